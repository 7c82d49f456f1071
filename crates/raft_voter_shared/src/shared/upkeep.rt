//! Looks at a store that threads share, and purges its files.
ghost use Rattle.std.specs.Prelude.{◌≡◌, IfErr, IfOk, OnOk};
ghost use Rattle.raft_voter_shared.specs.Looking.{IsSeen};
ghost use Rattle.raft_voter_shared.specs.Purging.{IsPurge};

use super::SharedStore;
use crate::maintenance::{Listing, Maintenance};
use raft_voter::{RoundService, Voter};
use raft_voter_rounds::Opening;
use std::sync::Wait;

impl<R, S: RoundService<R>, L: Opening> SharedStore<R, S, L> {
    ghost use Rattle.std.specs.Fn.{FnOnceReturnsAt};

    /// Calls a function on the store while it serves no round, and returns its result; it may wait. So a node reads the
    /// store's counters, or the status of a group. The store is the one after some rounds.
    pub fn look<T, F: FnOnce(&S) -> T>(&self, rt: &R, look: F) -> T
    where
        R: Wait,
        requires { F.IsAlwaysCallable look }
        ensures { IsSeen S.service L.served (λ store. FnOnceReturnsAt F.FnOnce look store result) }
    {
        self.desk.lock(rt).look(look)
    }
}

impl<R, S: Listing<R>, L: Opening> SharedStore<R, S, L> {
    /// Lists the voters while the store serves no round; it may wait. Records nothing in the journal, and no voter
    /// changes. The result is that of a listing of the store, after some rounds.
    pub fn voters(&self, rt: &R) -> Result<Vec<(u64, Voter)>, S::Unlisted>
    where
        R: Wait,
        ensures ok { IfOk result (λ voters. IsSeen S.service L.served (S.lists voters.items)) }
        ensures err { IfErr result (λ unlisted. IsSeen S.service L.served (S.hides unlisted)) }
    {
        self.desk.lock(rt).voters(rt)
    }
}

impl<R, S: Maintenance<R>, L: Opening> SharedStore<R, S, L> {
    /// Whether the store has failed; it may wait. A store that has failed serves no round until it is opened again.
    pub fn is_failed(&self, rt: &R) -> bool
    where
        R: Wait,
        ensures { IsSeen S.service L.served (λ store. result ≡ S.service.is_failed store) }
    {
        self.desk.lock(rt).is_failed()
    }

    /// Purges the store's files while it serves no round. Returns the groups to compact. Records nothing in the journal.
    /// Whether it succeeds or fails, no voter changes. The result is that of a purge of the store, after some rounds.
    pub fn maintain(&self, rt: &R) -> Result<Vec<u64>, S::Refusal>
    where
        R: Wait,
        ensures ok { IfOk result (λ groups. IsPurge S.service L.served (S.purges groups.items)) }
        ensures err { IfErr result (λ refusal. IsPurge S.service L.served (S.refuses refusal)) }
    {
        self.desk.lock(rt).maintain(rt)
    }

    /// Does one step of what `maintain` does, while the store serves no round. Other threads can have rounds served
    /// between two steps. Otherwise as `maintain`.
    pub fn purge_some(&self, rt: &R, budget: u64) -> Result<S::Step, S::Refusal>
    where
        R: Wait,
        ensures ok { IfOk result (λ step. IsPurge S.service L.served (S.steps budget step)) }
        ensures err { IfErr result (λ refusal. IsPurge S.service L.served (S.refuses refusal)) }
    {
        self.desk.lock(rt).purge_some(rt, budget)
    }

    /// Purges what `purge` names, whatever its size, while the store serves no round. Otherwise as `maintain`.
    pub fn force_purge(&self, rt: &R, purge: &S::Purge) -> Result<(), S::Refusal>
    where
        R: Wait,
        ensures ok { OnOk result (IsPurge S.service L.served (S.forces purge.now)) }
        ensures err { IfErr result (λ refusal. IsPurge S.service L.served (S.refuses_force purge.now refusal)) }
    {
        self.desk.lock(rt).force_purge(rt, purge)
    }
}
