//! A shared store that couldn't be settled.
ghost use Rattle.std.specs.Prelude.{◌≡◌, ◌<◌};

use crate::desk::Desk;
use crate::shared::SharedStore;
use raft_voter::{Round, RoundService};
use raft_voter_history::History;
use raft_voter_rounds::{Hall, Opening};
use std::alloc::Global;
use std::sync::{Condvar, Mutex};

/// A shared store that couldn't be settled. No thread uses it. It can be shared again.
#[derive(Drop)]
pub struct Unsettled<R, S: RoundService<R>, L: Opening> {
    pub(crate) alloc: Global,
    pub(crate) history: History<L>,
    pub(crate) hall: Mutex<Hall<L>>,
    pub(crate) moved: Condvar,
    pub(crate) desk: Desk<R, S, L>,
    pub(crate) parts: u64,
    ghost all: { parts ≡ L.all },
    ghost some: { 0 < parts },
}

impl<R, S: RoundService<R>, L: Opening> Unsettled<R, S, L> {
    /// Returns the records that the journal keeps.
    pub fn journal(&self) -> &[Round]
        ensures { result.now ≡ self.now.desk.journal.kept.items }
    {
        self.desk.kept()
    }

    /// Shares the store again.
    pub fn share(self) -> SharedStore<R, S, L> {
        let Unsettled {
            alloc,
            history,
            hall,
            moved,
            desk,
            parts,
        } = self;
        SharedStore {
            alloc,
            history,
            hall,
            moved,
            desk: Mutex::new(desk),
            parts,
        }
    }
}
