//! Lists the voters of a store's files as text.
ghost use Rattle.std.specs.Prelude.{◌≡◌, ◌≢◌, ◌++◌, IfErr, IfOk, IsTrue, OnErr, OnOk, string_bytes};
ghost use Rattle.std.specs.IoError.{error_kind};
ghost use Rattle.raft_voter_program.specs.Listing.{AreRising, ListsEarly, ListsVoters, MayList, TellsLines};
ghost use Rattle.raft_voter_program.specs.Lines.{voter_text, voters_text};

use crate::writing::write_whole;
use raft_voter::{Cause, Memory, Reply, Voter};
use raft_voter_world::{VoterDisk, VoterStorage};
use std::alloc::Global;
use std::io;
use std::io::{ErrorKind, Write};
use std::thread::Threads;

/// The text if the open fails.
const OPEN_REFUSED_TEXT: &str = "open refused\n";

/// The status if the open fails.
const OPEN_REFUSED: u8 = 4;

/// Opens a store on its files, with this many workers. Writes a line for each voter, in rising order of the groups, and
/// returns status 0. If the open fails, writes that, and returns status 4.
///
/// Fails if memory runs out, or if a read of the store or the writer fails. It also fails if the store lists a group
/// twice or out of order. Then nothing was written, or a prefix of what may be written, but not all. The error isn't
/// `Interrupted`.
pub fn list_voters<
    R: Threads + Sync,
    S: VoterStorage<R> + Drop,
    F: VoterDisk<R, S> + Drop,
    W: Write,
>(rt: &R, alloc: Global, files: F, workers: u64, writer: &mut W) -> io::Result<u8>
    ensures ok { IfOk result (ListsVoters S.service F.disk files workers
        (W.contents writer.old) (W.contents writer.new)) }
    ensures err { OnErr result (ListsEarly S.service F.disk files workers
        (W.contents writer.old) (W.contents writer.new)) }
    ensures retried { IfErr result (λ fault. error_kind fault ≢ ErrorKind.Interrupted) }
{
    let (text, status) = match told_of::<R, S, F>(rt, alloc, files, workers) {
        Ok(told) => told,
        Err(cause) => return Err(io::Error::from(kind_of(&cause))),
    };
    write_whole(writer, text.as_bytes())?;
    Ok(status)
}

/// The error kind if there is nothing to write.
fn kind_of(cause: &Cause) -> ErrorKind
    ensures { result ≢ ErrorKind.Interrupted }
{
    match cause {
        Cause::Memory => ErrorKind::OutOfMemory,
        _ => ErrorKind::Other,
    }
}

/// Returns the text for a store's files, and its status.
fn told_of<R: Threads + Sync, S: VoterStorage<R> + Drop, F: VoterDisk<R, S> + Drop>(
    rt: &R,
    alloc: Global,
    files: F,
    workers: u64,
) -> Result<(String, u8), Cause>
    ensures { IfOk result (λ told. MayList S.service F.disk files workers (string_bytes told.0) told.1) }
{
    match files.open(rt, alloc, workers) {
        Ok(store) => Ok((lines_of::<R, S>(rt, alloc, store)?, 0)),
        Err(refused) => {
            if refused.cause == Cause::Memory {
                return Err(Cause::Memory);
            }
            Ok((String::from_str(alloc, OPEN_REFUSED_TEXT)?, OPEN_REFUSED))
        }
    }
}

/// Returns a line for each voter of a store. Fails with `FileSystem` if a read fails, or if the store lists the groups
/// in another order.
fn lines_of<R, S: VoterStorage<R> + Drop>(
    rt: &R,
    alloc: Global,
    mut store: S,
) -> Result<String, Cause>
    ensures { IfOk result (λ text. TellsLines S.service store (string_bytes text)) }
{
    let voters = store.voters(rt, alloc)?;
    if !are_rising(voters.as_slice()) {
        return Err(Cause::FileSystem);
    }
    Ok(text_of(alloc, voters.as_slice())?)
}

/// Whether the groups rise.
fn are_rising(voters: &[(u64, Voter)]) -> bool
    ensures { IsTrue result → AreRising voters.now }
{
    for next in 1..voters.len() {
        if voters[next].0 <= voters[next - 1].0 {
            return false;
        }
    }
    true
}

/// Returns a line for each of these voters.
fn text_of(alloc: Global, voters: &[(u64, Voter)]) -> Result<String, Memory>
    ensures { IfOk result (λ text. string_bytes text ≡ voters_text voters.now) }
{
    let mut text = String::new(alloc);
    for voter in voters {
        write_voter(&mut text, voter.0, &voter.1)?;
    }
    Ok(text)
}

/// Writes a group and its voter's reply to `status`, as a line.
#[tactic(auto, unfolding(crate::specs::Lines::voter_text))]
fn write_voter(text: &mut String, group: u64, voter: &Voter) -> Result<(), Memory>
    ensures { OnOk result (string_bytes text.new ≡ string_bytes text.old ++ voter_text group voter.now) }
{
    let reply = Reply::Status(voter.state());
    write!(text, "voter {group} {reply}\n")?;
    Ok(())
}
