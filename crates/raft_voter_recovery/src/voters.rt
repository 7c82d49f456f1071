//! Reads all voters, whole.
ghost use Rattle.std.specs.Prelude.{◌+◌, ◌<◌, IfErr, IfOk, OnOk};
ghost use Rattle.raft_voter_durability_laws.specs.raft_log_engine_laws.specs.Fetching.{StaysButBlock};
ghost use Rattle.raft_log_engine_core.specs.Reads.{shows_of};
ghost use Rattle.raft_voter_recovery.specs.Entries.{ReadsBelow};
ghost use Rattle.raft_voter_recovery.specs.Groups.{ReadsHead};
ghost use Rattle.raft_voter_recovery.specs.Listing.{AddsVoter, TellsVoter};
ghost use Rattle.raft_voter_recovery.specs.Reading.{IsUnreadFor, ListsVoters};

use crate::Unread;
use crate::entries::read_piece;
use crate::heads::{Head, read_head};
use raft_log_dual_pipes::PipeLog;
use raft_log_engine_core::LogEngine;
use raft_voter::Voter;
use raft_voter_messages::{Entry, Items};
use std::alloc::Global;

/// The voters in the log of an engine that was just opened, each with its group, in ascending order of group. If
/// nothing is pending, these groups have these voters, and every other group is empty.
///
/// Fails as [`read_outlines`] does. The engine is unchanged, except for the block that it read last.
///
/// [`read_outlines`]: crate::read_outlines
pub fn read_voters<P: PipeLog>(
    alloc: Global,
    engine: &mut LogEngine<P>,
) -> Result<Vec<(u64, Voter)>, Unread>
    ensures ok { IfOk result (λ voters. ListsVoters (shows_of P.shown engine.old) voters.items) }
    ensures err { IfErr result (λ cause. IsUnreadFor cause (shows_of P.shown engine.old)) }
    ensures stays { StaysButBlock (shows_of P.shown engine.old) (shows_of P.shown engine.new) }
{
    let groups = match engine.raft_groups() {
        Ok(groups) => groups,
        Err(refusal) => return Err(Unread::from_refusal(refusal)),
    };
    let mut voters: Vec<(u64, Voter)> = Vec::new(alloc);
    for group in groups.as_slice() {
        read_onto(alloc, engine, *group, &mut voters)?;
    }
    Ok(voters)
}

/// Reads a group's voter and appends it to the others, if the group isn't empty.
fn read_onto<P: PipeLog>(
    alloc: Global,
    engine: &mut LogEngine<P>,
    group: u64,
    voters: &mut Vec<(u64, Voter)>,
) -> Result<(), Unread>
    ensures ok { OnOk result
        (AddsVoter (shows_of P.shown engine.old) group voters.old.items voters.new.items) }
    ensures err { IfErr result (λ cause. IsUnreadFor cause (shows_of P.shown engine.old)) }
    ensures stays { StaysButBlock (shows_of P.shown engine.old) (shows_of P.shown engine.new) }
{
    let Some(voter) = read_voter(alloc, engine, group)? else {
        return Ok(());
    };
    let Ok(()) = voters.push((group, voter)) else {
        return Err(Unread::Memory);
    };
    Ok(())
}

/// Reads a group's voter, if the group isn't empty.
fn read_voter<P: PipeLog>(
    alloc: Global,
    engine: &mut LogEngine<P>,
    group: u64,
) -> Result<Option<Voter>, Unread>
    ensures ok { IfOk result (TellsVoter (shows_of P.shown engine.old) group) }
    ensures err { IfErr result (λ cause. IsUnreadFor cause (shows_of P.shown engine.old)) }
    ensures stays { StaysButBlock (shows_of P.shown engine.old) (shows_of P.shown engine.new) }
{
    let Some(head) = read_head(engine, group)? else {
        return Ok(None);
    };
    let entries = read_entries(alloc, engine, group, &head)?;
    match Voter::restore(alloc, head.state, Items::from_vec(entries)) {
        Ok(voter) => Ok(Some(voter)),
        // what was read is in range and in order, so the error is lack of memory
        Err(_) => Err(Unread::Memory),
    }
}

/// Reads the entries of a group; `head` was read before.
fn read_entries<P: PipeLog>(
    alloc: Global,
    engine: &mut LogEngine<P>,
    group: u64,
    head: &Head,
) -> Result<Vec<Entry>, Unread>
    requires { ReadsHead (shows_of P.shown engine.old) group head.now }
    ensures ok { IfOk result (λ entries. ReadsBelow (shows_of P.shown engine.old) group
        head.now.state.base_index head.now.end entries.items) }
    ensures err { IfErr result (λ cause. IsUnreadFor cause (shows_of P.shown engine.old)) }
    ensures stays { StaysButBlock (shows_of P.shown engine.old) (shows_of P.shown engine.new) }
{
    let mut entries: Vec<Entry> = Vec::new(alloc);
    let mut next = head.state.base_index + 1;
    while next < head.end {
        let mut piece = read_piece(alloc, engine, group, next, head.end)?;
        next += piece.len() as u64;
        let Ok(()) = entries.append(&mut piece) else {
            return Err(Unread::Memory);
        };
    }
    Ok(entries)
}
