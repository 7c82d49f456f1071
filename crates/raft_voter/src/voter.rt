//! One Raft voter.
ghost use Rattle.std.specs.Prelude.{◌≡◌, ◌+◌, ◌-◌, ◌^◌, ◌<◌, ◌≤◌, length, IfOk, OnOk, OnErr};
ghost use Rattle.raft_voter_messages.specs.declared.reply.Reply.TheVariants.{Entries};
ghost use Rattle.raft_voter_outline.specs.Outlines.{ChangesEach, Copies, without_bytes};
ghost use Rattle.raft_voter_outline.specs.Rules.{entries_between, next, reply};
ghost use Rattle.raft_voter_outline.specs.State.{fresh, last_index, state_of};

mod log;
mod restoring;

use crate::{Items, Memory, Reply, Request, VoterState};
use log::{numbered, write};
use raft_voter_outline::{Answer, Change, Decision, Outline};
use std::alloc::Global;
use std::marker::Model;

/// A Raft voter: its outline, which decides its replies and next states, and its log above the base. Contracts see it
/// as a `State` of `raft_voter_outline`.
#[derive(Debug, Drop)]
pub struct Voter {
    outline: Outline,
    log: Vec<(u64, Items<u8>)>,
}

impl Model for Voter {
    ghost use Rattle.raft_voter.specs.Entries.{IsOutlineOf, with_entries};
    ghost use Rattle.raft_voter_outline.specs.State.{State};

    ghost Value = { State };

    ghost view = { λ v. with_entries v.outline.voter v.log.items };

    ghost invariant = { λ v. IsOutlineOf v.outline.voter v.log.items };
}

impl Voter {
    /// Returns a fresh voter: term 0, no vote, an empty log.
    pub fn new(alloc: Global) -> Voter
        ensures { result ≡ fresh }
    {
        Voter {
            outline: Outline::new(alloc),
            log: Vec::new(alloc),
        }
    }

    /// Returns the voter's state, without its entries.
    pub fn state(&self) -> VoterState
        ensures { result ≡ state_of self.now }
    {
        self.outline.state()
    }

    /// Returns the entries above the base, each with its term and its bytes. The first is right above the base.
    pub fn log(&self) -> &[(u64, Items<u8>)]
        ensures entries { result.now ≡ self.now.log }
        ensures in_range { self.now.base_index + length self.now.log < 2 ^ 63 }
    {
        self.log.as_slice()
    }

    /// Takes a request and returns the reply. A request out of range changes nothing, and its reply is `Refused`.
    /// Memory can run out only if entries are copied: those of an Append that aren't in the log, or those that a Read
    /// returns. If it runs out, nothing changes.
    pub fn step(&mut self, request: &Request) -> Result<Reply, Memory>
        ensures replies { IfOk result (λ given. given ≡ reply self.old request.now) }
        ensures changes { OnOk result (self.new ≡ next self.old request.now) }
        ensures err { OnErr result (self.new ≡ self.old) }
        ensures errors { OnErr result (Copies self.old request.now) }
    {
        let Decision { answer, change } = self.outline.decide(request);
        let reply = match answer {
            Answer::Entries { from, to } => return self.entries(from, to),
            Answer::Told(reply) => reply,
        };
        let Some(change) = change else {
            return Ok(reply);
        };
        self.make(&change, request)?;
        Ok(reply)
    }

    /// Makes the change that was decided for a request.
    fn make(&mut self, change: &Change, request: &Request) -> Result<(), Memory>
        requires { ChangesEach (without_bytes self.old) request.now change.now }
        ensures ok { OnOk result (self.new ≡ next self.old request.now) }
        ensures err { OnErr result (self.new ≡ self.old) }
        ensures errors { OnErr result (Copies self.old request.now) }
    {
        self.outline.reserve(change, request)?;
        let base_index = self.outline.base_index();
        write(&mut self.log, base_index, &change.write, request)?;
        self.outline.apply(change, request);
        Ok(())
    }

    /// Copies the entries from one index to below another. All of them must be in the log.
    fn entries(&self, from: u64, to: u64) -> Result<Reply, Memory>
        requires above { self.now.base_index < from }
        requires some { from < to }
        requires there { to ≤ last_index self.now + 1 }
        ensures { IfOk result (λ given. given ≡ Entries (entries_between self.now from to)) }
    {
        let start = (from - self.outline.base_index() - 1) as usize;
        let end = start + (to - from) as usize;
        let alloc = *self.log.allocator();
        let entries = numbered(alloc, from, &self.log[start..end])?;
        Ok(Reply::Entries(entries))
    }
}
