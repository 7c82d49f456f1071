//! The voters of many groups, in memory.
ghost use Rattle.std.specs.Prelude.{◌≡◌, ◌<◌, ℕ, false, IsTrue, length, unwrap_or, IfOk, OnOk, OnErr};
ghost use Rattle.std.specs.BTreeMap.{get};
ghost use Rattle.std.specs.Ordering.{nat_cmp};
ghost use Rattle.std.specs.Bool.{Decides};
ghost use Rattle.raft_voter.specs.Rounds.{after, after_one, are_rising, fresh_world, is_among, put, replies_from, taken_from, TakesFirst};
ghost use Rattle.raft_voter_outline.specs.Rules.{reply};
ghost use Rattle.raft_voter_outline.specs.State.{fresh};
ghost use Rattle.raft_voter.specs.Voters.{is_listed, NeedsMemory, world_of};

use crate::{Items, Memory, Reply, Request, Voter};
use std::alloc::Global;
use std::collections::BTreeMap;

/// The voters of many groups, in memory. A group that has taken no request has a fresh voter.
#[derive(Drop)]
pub struct Voters {
    alloc: Global,
    voters: BTreeMap<u64, Voter>,
}

impl Voters {
    /// Returns voters of which no group has taken a request.
    pub fn new(alloc: Global) -> Voters
        ensures { world_of result ≡ fresh_world }
    {
        Voters {
            alloc,
            voters: BTreeMap::new(alloc),
        }
    }

    /// One group's voter takes a request and returns the reply. Memory can run out only if the group is new here, or
    /// entries are copied. If it runs out, no voter changes.
    pub fn take(&mut self, group: u64, request: &Request) -> Result<Reply, Memory>
        ensures replies { IfOk result (λ given. given ≡ reply (world_of self.old group) request.now) }
        ensures changes { OnOk result
            (world_of self.new ≡ after_one (world_of self.old) (group, request.now)) }
        ensures err { OnErr result (world_of self.new ≡ world_of self.old) }
        ensures errors { OnErr result (NeedsMemory self.old group request.now) }
    {
        let voter = self.voters.entry(group)?.or_insert(Voter::new(self.alloc));
        voter.step(request)
    }

    /// Replaces one group's voter. If memory runs out, no voter changes.
    pub fn put(&mut self, group: u64, voter: Voter) -> Result<(), Memory>
        ensures ok { OnOk result (world_of self.new ≡ put (world_of self.old) group voter) }
        ensures err { OnErr result (world_of self.new ≡ world_of self.old) }
    {
        self.voters.insert(group, voter)?;
        Ok(())
    }

    /// Returns the groups that have a voter here, in rising order. The voter of any other group is a fresh one.
    pub fn groups(&self) -> Result<Vec<u64>, Memory>
        ensures { IfOk result (λ groups.
            (g : ℕ) → is_listed groups.items g ≡ false → world_of self.now g ≡ fresh) }
    {
        let mut groups = Vec::new(self.alloc);
        for (group, _) in self.voters.iter() {
            groups.push(*group)?;
        }
        Ok(groups)
    }

    /// Whether a group has the same voter in both.
    pub fn is_same_at(&self, other: &Voters, group: u64) -> bool
        ensures { Decides result (world_of self.now group ≡ world_of other.now group) }
    {
        let blank = Voter::new(self.alloc);
        is_same(self.voter_or(group, &blank), other.voter_or(group, &blank))
    }

    /// Returns a group's voter, or `blank` if it has none.
    fn voter_or<'a>(&'a self, group: u64, blank: &'a Voter) -> &'a Voter
        ensures { result.now ≡ unwrap_or (get nat_cmp self.now.voters group) blank.now }
    {
        match self.voters.get(&group) {
            Some(voter) => voter,
            None => blank,
        }
    }

    /// The voters take the requests of a round in order, except those at the refused places, which must rise. Returns
    /// their replies, and `Refused` at each refused place. If memory runs out, they have taken only the requests before
    /// some place. It can't run out if there are no requests.
    pub fn serve(
        &mut self,
        requests: &[(u64, Request)],
        refused: &[usize],
    ) -> Result<Items<Reply>, Memory>
        requires { (high : ℕ) × IsTrue (are_rising 0 high refused.now) }
        ensures replies { IfOk result (λ given.
            given ≡ replies_from 0 refused.now (world_of self.old) requests.now) }
        ensures changes { OnOk result (world_of self.new
            ≡ after (world_of self.old) (taken_from 0 (length requests.now) refused.now requests.now)) }
        ensures err { OnErr result
            (TakesFirst (world_of self.old) requests.now refused.now (world_of self.new)) }
        ensures errors { OnErr result (0 < length requests.now) }
    {
        let mut replies = Vec::with_capacity(self.alloc, requests.len())?;
        let mut passed = 0;
        for (place, (group, request)) in requests.iter().enumerate() {
            if is_next(&refused[passed..], place) {
                passed += 1;
                replies.push_reserved(Reply::Refused);
                continue;
            }
            let reply = self.take(*group, request)?;
            replies.push_reserved(reply);
        }
        Ok(Items::from_vec(replies))
    }
}

/// Whether a place is among the remaining rising places, of which none is before it.
fn is_next(ahead: &[usize], place: usize) -> bool
    requires { (high : ℕ) × IsTrue (are_rising place high ahead.now) }
    ensures { result ≡ is_among ahead.now place }
{
    match ahead.first() {
        Some(next) => *next == place,
        None => false,
    }
}

/// Whether two voters are the same.
fn is_same(voter: &Voter, other: &Voter) -> bool
    ensures { Decides result (voter.now ≡ other.now) }
{
    if voter.state() != other.state() {
        return false;
    }
    voter.log() == other.log()
}
