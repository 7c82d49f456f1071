//! Opens a store's files.
ghost use Rattle.std.specs.Prelude.{◌≡◌, IfOk};
ghost use Rattle.raft_voter.specs.Voters.{world_of};
ghost use Rattle.raft_voter_world.specs.Openings.{ComesOf, ComesOut};
ghost use Rattle.raft_voter_world.specs.Stores.{world_in};

use crate::disk::VoterDisk;
use crate::event::Left;
use crate::store::VoterStorage;
use raft_voter::{Memory, Voter, Voters};
use std::alloc::Global;
use std::thread::Threads;

/// The outcome of an open.
#[derive(Drop)]
pub enum Opened<S, F> {
    /// The store is open, and shows these voters.
    Shown(S, Voters),
    /// No store is open, and these are the files.
    Closed(F),
}

/// Opens a store over its files with this many workers, unless the disk has stopped. If the open succeeds but the disk
/// stopped in it, returns what a crash leaves, as `left` says. If the voters can't be read, closes the store again. If
/// the open fails, returns the files.
pub fn open_files<R: Threads + Sync, S: VoterStorage<R> + Drop, F: VoterDisk<R, S> + Drop>(
    rt: &R,
    alloc: Global,
    files: F,
    workers: u64,
    left: &Left,
) -> Result<Opened<S, F>, Memory>
    ensures { IfOk result (ComesOut S.service S.upkeep F.disk files workers left.now) }
{
    if files.has_stopped() {
        return Ok(Opened::Closed(files));
    }
    match files.open(rt, alloc, workers) {
        Ok(store) => read_store::<R, S, F>(rt, alloc, store, left),
        Err(refused) => Ok(Opened::Closed(refused.files)),
    }
}

/// Reads the voters of a store that was just opened, unless the disk stopped in the open. If they can't be read, closes
/// the store: else it would serve later rounds with unknown voters.
fn read_store<R, S: VoterStorage<R> + Drop, F: VoterDisk<R, S> + Drop>(
    rt: &R,
    alloc: Global,
    mut store: S,
    left: &Left,
) -> Result<Opened<S, F>, Memory>
    ensures { IfOk result (ComesOf S.service S.upkeep F.disk store left.now) }
{
    if store.has_stopped() {
        return Ok(Opened::Closed(F::crashed_under(&store, left)?));
    }
    match store.voters(rt, alloc) {
        Ok(listed) => Ok(Opened::Shown(store, gather(alloc, listed)?)),
        Err(_) => Ok(Opened::Closed(F::close(store, rt))),
    }
}

/// The voters of a list; the first one listed for a group counts.
fn gather(alloc: Global, mut listed: Vec<(u64, Voter)>) -> Result<Voters, Memory>
    ensures { IfOk result (λ voters. world_of voters ≡ world_in listed.items) }
{
    let mut voters = Voters::new(alloc);
    while let Some((group, voter)) = listed.pop() {
        voters.put(group, voter)?;
    }
    Ok(voters)
}
