//! Looks at the store at the desk, and purges its files.
ghost use Rattle.std.specs.Prelude.{◌≡◌, IfErr, IfOk, OnOk};
ghost use Rattle.raft_voter_shared.specs.Looking.{IsSeen, StaysServed};
ghost use Rattle.raft_voter_shared.specs.Purging.{IsPurge, KeepsServed};

use super::Desk;
use crate::failure::failure_in_purge;
use crate::maintenance::{Listing, Maintenance};
use raft_voter::{RoundService, Voter};
use raft_voter_rounds::Opening;

impl<R, S: RoundService<R>, L: Opening> Desk<R, S, L> {
    ghost use Rattle.std.specs.Fn.{FnOnceReturnsAt};

    /// Calls a function on the store, and returns its result.
    pub fn look<T, F: FnOnce(&S) -> T>(&self, look: F) -> T
        requires { F.IsAlwaysCallable look }
        ensures { IsSeen S.service L.served (λ store. FnOnceReturnsAt F.FnOnce look store result) }
    {
        look(&self.store)
    }
}

impl<R, S: Listing<R>, L: Opening> Desk<R, S, L> {
    /// Lists the voters. Appends nothing to the journal, and no voter changes.
    pub fn voters(&mut self, rt: &R) -> Result<Vec<(u64, Voter)>, S::Unlisted>
        ensures journal { self.new.journal ≡ self.old.journal }
        ensures keeps { StaysServed S.service self.old.store self.new.store }
        ensures ok { IfOk result (λ voters. IsSeen S.service L.served (S.lists voters.items)) }
        ensures err { IfErr result (λ unlisted. IsSeen S.service L.served (S.hides unlisted)) }
    {
        self.store.voters(rt)
    }
}

impl<R, S: Maintenance<R>, L: Opening> Desk<R, S, L> {
    /// Whether the store has failed.
    pub fn is_failed(&self) -> bool
        ensures { IsSeen S.service L.served (λ store. result ≡ S.service.is_failed store) }
    {
        self.store.is_failed()
    }

    /// Purges the store's files. Returns the groups to compact. Appends nothing to the journal. Whether it succeeds or
    /// fails, no voter changes.
    pub fn maintain(&mut self, rt: &R) -> Result<Vec<u64>, S::Refusal>
        ensures journal { self.new.journal ≡ self.old.journal }
        ensures keeps { KeepsServed S.service self.old.store self.new.store }
        ensures ok { IfOk result (λ groups. IsPurge S.service L.served (S.purges groups.items)) }
        ensures err { IfErr result (λ refusal. IsPurge S.service L.served (S.refuses refusal)) }
    {
        let Desk { store, failure, .. } = self;
        let before = store.is_failed();
        let purged = store.maintain(rt);
        *failure = failure_in_purge(before, store.is_failed(), *failure);
        purged
    }

    /// Does one step of what `maintain` does. Appends nothing to the journal. Whether it succeeds or fails, no voter
    /// changes.
    pub fn purge_some(&mut self, rt: &R, budget: u64) -> Result<S::Step, S::Refusal>
        ensures journal { self.new.journal ≡ self.old.journal }
        ensures keeps { KeepsServed S.service self.old.store self.new.store }
        ensures ok { IfOk result (λ step. IsPurge S.service L.served (S.steps budget step)) }
        ensures err { IfErr result (λ refusal. IsPurge S.service L.served (S.refuses refusal)) }
    {
        let Desk { store, failure, .. } = self;
        let before = store.is_failed();
        let purged = store.purge_some(rt, budget);
        *failure = failure_in_purge(before, store.is_failed(), *failure);
        purged
    }

    /// Purges what `purge` names, whatever its size. Appends nothing to the journal. Whether it succeeds or fails, no
    /// voter changes.
    pub fn force_purge(&mut self, rt: &R, purge: &S::Purge) -> Result<(), S::Refusal>
        ensures journal { self.new.journal ≡ self.old.journal }
        ensures keeps { KeepsServed S.service self.old.store self.new.store }
        ensures ok { OnOk result (IsPurge S.service L.served (S.forces purge.now)) }
        ensures err { IfErr result (λ refusal. IsPurge S.service L.served (S.refuses_force purge.now refusal)) }
    {
        let Desk { store, failure, .. } = self;
        let before = store.is_failed();
        let purged = store.force_purge(rt, purge);
        *failure = failure_in_purge(before, store.is_failed(), *failure);
        purged
    }
}
