//! The lives of a store on a log: one in which two threads share it, and one in which its voters are listed.

ghost use Rattle.std.specs.Prelude.{◌≡◌, IfOk};
ghost use Rattle.raft_log_engine.specs.raft_log_engine_core.specs.Reads.{shows_of};
ghost use Rattle.raft_shared_examples.specs.Seats.{AreServed};
ghost use Rattle.raft_shared_examples.specs.Lives.{ListsFound, LivesShared};
ghost use Rattle.raft_shared_examples.specs.Sharing.{ClosesWell};

use crate::sharing::{Ended, Settled, share_store};
use log::sink::Discard;
use log::{Log, Logged};
use raft_log_engine::{Closed, Config, EnginePipes, FileSystem, Nobody, PipeLog};
use raft_log_recovery_laws::closed::successful_closes_are_proper;
use raft_voter::{Request, Round, Voter};
use raft_voter_shared_log::LogStore;
use raft_voter_store::{StoreRefused, VoterStore};
use std::alloc::Global;
use std::sync::Wait;
use std::thread::Threads;

/// A runtime that logs nothing.
pub type Quiet<'a, R> = Logged<&'a R, Discard>;

/// What is left of a store that two threads shared, after its log was closed.
#[derive(Drop)]
pub struct Shared<F> {
    /// Its settings.
    pub config: Config,
    /// The file system.
    pub files: F,
    /// The records of all rounds, in the order in which they were served.
    pub journal: Vec<Round>,
    /// The place of the first thread's record, if its round got replies.
    pub first: Option<usize>,
    /// The place of the second thread's record, if its round got replies.
    pub second: Option<usize>,
}

/// Opens the store of these settings. Two threads share it, and each serves a round. Then the store is settled, and its
/// log is closed. Returns the journal of the store, and the file system, if the close succeeds.
pub fn live<'a, R: Threads + Wait + Send + Sync, F: FileSystem + Send + Sync + Drop>(
    rt: &Quiet<'a, R>,
    alloc: Global,
    config: Config,
    files: F,
    one: &[(u64, Request)],
    other: &[(u64, Request)],
) -> Result<Shared<F>, Ended>
    ensures ok { IfOk result (λ shared. LivesShared F.disk F.tells_space
        (λ store. shows_of ⟦<EnginePipes<F, Nobody> as PipeLog>⟧.shown store.store.engine) config files shared) }
    ensures served { IfOk result (λ shared.
        AreServed shared.journal.items one.now shared.first other.now shared.second) }
{
    let store = match LogStore::open(rt, alloc, config, files) {
        Ok(store) => store,
        Err(
            StoreRefused {
                cause,
                file_system: _,
            },
        ) => return Err(Ended::Unread(cause)),
    };
    let settled = share_store(rt, alloc, store, one, other)?;
    close(rt, settled)
}

/// Closes the log of a settled store.
fn close<R: Log, F: FileSystem + Sync + Drop>(
    rt: &R,
    settled: Settled<LogStore<F>>,
) -> Result<Shared<F>, Ended>
    ensures closes { IfOk result (λ shared.
        ClosesWell (shows_of ⟦<EnginePipes<F, Nobody> as PipeLog>⟧.shown settled.store.store.engine)
        (F.disk shared.files)) }
    ensures config { IfOk result (λ shared. shared.config ≡ settled.store.config) }
    ensures journal { IfOk result (λ shared. shared.journal.items ≡ settled.journal.items) }
    ensures places { IfOk result (λ shared.
        (shared.first ≡ settled.first) × (shared.second ≡ settled.second)) }
{
    successful_closes_are_proper();
    let Settled {
        store: LogStore { config, store },
        journal,
        first,
        second,
    } = settled;
    let Closed { files, result } = store.close(rt);
    match result {
        Ok(()) => Ok(Shared {
            config,
            files,
            journal,
            first,
            second,
        }),
        Err(error) => Err(Ended::Close(error)),
    }
}

/// Opens the store of these settings, and returns its voters: each group that has taken a request, with its voter.
pub fn list_voters<R: Threads + Log + Sync, F: FileSystem + Sync + Drop>(
    rt: &R,
    alloc: Global,
    config: Config,
    files: F,
) -> Result<Vec<(u64, Voter)>, Ended>
    ensures { IfOk result (λ voters. ListsFound F.disk F.tells_space config files voters.items) }
{
    let mut store = match VoterStore::open(rt, alloc, config, files, Nobody) {
        Ok(store) => store,
        Err(
            StoreRefused {
                cause,
                file_system: _,
            },
        ) => return Err(Ended::Unread(cause)),
    };
    match store.voters() {
        Ok(voters) => Ok(voters),
        Err(cause) => Err(Ended::Unread(cause)),
    }
}
