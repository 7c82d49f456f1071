//! A store that lives twice. Its log is closed properly before it is opened again, so the contracts have no premise on
//! CRC collisions.

ghost use Rattle.std.specs.Prelude.{IfOk};
ghost use Rattle.raft_log_recovery_laws.specs.Bare.{IsBare};
ghost use Rattle.raft_shared_examples.specs.Lives.{ShowsFirstLife};
ghost use Rattle.raft_shared_examples.specs.Seats.{AreServed};

use crate::lives::{Quiet, Shared, list_voters, live};
use crate::sharing::Ended;
use raft_log_engine::{Config, FileSystem, MemoryFileSystem, Remainder};
use raft_voter::{Request, Round, Voter};
use raft_voter_group_laws::laws::each_group_keeps_its_voter;
use raft_voter_log::closed_stores::closed_stores_are_found;
use raft_voter_log::kept::kept_voters_are_told;
use raft_voter_log::opens::first_opens_are_fresh;
use raft_voter_shared::laws::openings_lead;
use std::alloc::Global;
use std::sync::Wait;
use std::thread::Threads;

/// What a store showed in two lives.
#[derive(Drop)]
pub struct TwoLives {
    /// The records of all rounds of the first life, in the order in which they were served.
    pub journal: Vec<Round>,
    /// The place of the first thread's record, if its round got replies.
    pub first: Option<usize>,
    /// The place of the second thread's record, if its round got replies.
    pub second: Option<usize>,
    /// The voters of the second life: each group that has taken a request, with its voter.
    pub voters: Vec<(u64, Voter)>,
}

/// Opens the store of these settings. Two threads share it, and each serves a round. Then the store is settled and
/// closed, opened again, and its voters are listed. Each group's voter is what one that never stops would be.
pub fn live_twice<R: Threads + Wait + Send + Sync, F: FileSystem + Send + Sync + Drop>(
    rt: &Quiet<'_, R>,
    alloc: Global,
    config: Config,
    files: F,
    one: &[(u64, Request)],
    other: &[(u64, Request)],
) -> Result<TwoLives, Ended>
    ensures served { IfOk result (λ lives.
        AreServed lives.journal.items one.now lives.first other.now lives.second) }
    ensures kept { IfOk result (λ lives. IsBare config (F.disk files)
        → ShowsFirstLife lives.journal.items lives.voters.items) }
{
    first_opens_are_fresh::<F>();
    closed_stores_are_found::<F>();
    kept_voters_are_told();
    openings_lead();
    each_group_keeps_its_voter();
    let Shared {
        config,
        files,
        journal,
        first,
        second,
    } = live(rt, alloc, config, files, one, other)?;
    let voters = list_voters(rt, alloc, config, files)?;
    Ok(TwoLives {
        journal,
        first,
        second,
        voters,
    })
}

/// The same, in memory. After the store is closed there is a crash, and `what` says what the crash leaves.
pub fn live_across_a_crash<R: Threads + Wait + Send + Sync>(
    rt: &Quiet<'_, R>,
    alloc: Global,
    config: Config,
    files: MemoryFileSystem,
    what: &Remainder,
    one: &[(u64, Request)],
    other: &[(u64, Request)],
) -> Result<TwoLives, Ended>
    ensures served { IfOk result (λ lives.
        AreServed lives.journal.items one.now lives.first other.now lives.second) }
    ensures kept { IfOk result (λ lives. IsBare config (⟦<MemoryFileSystem as FileSystem>⟧.disk files)
        → ShowsFirstLife lives.journal.items lives.voters.items) }
{
    first_opens_are_fresh::<MemoryFileSystem>();
    closed_stores_are_found::<MemoryFileSystem>();
    kept_voters_are_told();
    openings_lead();
    each_group_keeps_its_voter();
    let Shared {
        config,
        files,
        journal,
        first,
        second,
    } = live(rt, alloc, config, files, one, other)?;
    let left = files.remainder(what)?;
    let voters = list_voters(rt, alloc, config, left)?;
    Ok(TwoLives {
        journal,
        first,
        second,
        voters,
    })
}
