//! Outlines by group.
ghost use Rattle.std.specs.Prelude.{◌≡◌, ◌==◌, ℕ, false, IfOk, MatchOption, None, OnErr, OnOk, Some};
ghost use Rattle.std.specs.Borrow.{sem};
ghost use Rattle.raft_voter_outline.specs.Outlines.{Decides, without_bytes};

use crate::{Decision, Memory, Outline, Request, VoterState};
use std::alloc::Global;
use std::collections::BTreeMap;

/// The outline of each group's voter. A group without an outline here has a fresh voter.
#[derive(Drop)]
pub struct Outlines {
    alloc: Global,
    kept: BTreeMap<u64, Outline>,
}

impl Outlines {
    ghost use Rattle.std.specs.Prelude.{◌^◌, ◌<◌, ◌≤◌};
    ghost use Rattle.raft_voter_outline.specs.State.{fresh, state_of, term_at};
    ghost use Rattle.raft_voter_outline.specs.Kept.{kept_of, outlines_in};
    ghost use Rattle.raft_voter_outline.specs.Lending.{LendsOutline};
    ghost use Rattle.raft_voter_outline.specs.Pairs.{outlines_of};

    /// Outlines of fresh voters.
    pub fn new(alloc: Global) -> Outlines
        ensures { (g : ℕ) → outlines_in result g ≡ fresh }
    {
        let kept = BTreeMap::new(alloc);
        Outlines { alloc, kept }
    }

    /// Keeps an outline as that of a group's voter. If memory runs out, the voters are unchanged.
    pub fn put(&mut self, group: u64, outline: Outline) -> Result<(), Memory>
        ensures kept { OnOk result (kept_of self.new group ≡ Some outline) }
        ensures own { OnOk result (outlines_in self.new group ≡ outline.voter) }
        ensures others { OnOk result ((g : ℕ) → (g == group) ≡ false
            → outlines_in self.new g ≡ outlines_in self.old g) }
        ensures err { OnErr result ((g : ℕ) → outlines_in self.new g ≡ outlines_in self.old g) }
    {
        match self.kept.insert(group, outline) {
            Ok(_) => Ok(()),
            Err(_) => Err(Memory),
        }
    }

    /// Forgets the outline of a group whose voter is fresh, and gives its memory back. The voters are unchanged.
    pub fn forget(&mut self, group: u64)
        requires { outlines_in self.old group ≡ fresh }
        ensures gone { kept_of self.new group ≡ None }
        ensures voters { (g : ℕ) → outlines_in self.new g ≡ outlines_in self.old g }
    {
        let _outline = self.kept.remove(&group);
    }

    /// Outlines from pairs with their groups. If several have one group, the last counts. The tree's nodes are full,
    /// unlike those of a tree built one `put` at a time. While it is built, the pairs take twice their memory.
    pub fn from_pairs(alloc: Global, pairs: Vec<(u64, Outline)>) -> Result<Outlines, Memory>
        ensures { IfOk result (λ outlines. (g : ℕ) → outlines_in outlines g ≡ outlines_of pairs.items g) }
    {
        let kept = BTreeMap::from_iter(alloc, pairs)?;
        Ok(Outlines { alloc, kept })
    }

    /// Decides a request with the outline of the group's voter.
    pub fn decide(&self, group: u64, request: &Request) -> Decision
        ensures decides { Decides (outlines_in self.now group) request.now result }

        // An outline is that of a voter: itself.
        ensures own { without_bytes (outlines_in self.now group) ≡ outlines_in self.now group }
    {
        match self.kept.get(&group) {
            Some(outline) => decide_by(outline, request),
            None => decide_by(&Outline::new(self.alloc), request),
        }
    }

    /// The state of the group's voter.
    pub fn state(&self, group: u64) -> VoterState
        ensures value { result ≡ state_of (outlines_in self.now group) }
        ensures small { result.last_index < 2 ^ 63 }
        ensures above { result.base_index ≤ result.last_index }
    {
        match self.kept.get(&group) {
            Some(outline) => outline.state(),
            None => Outline::new(self.alloc).state(),
        }
    }

    /// The term of the entry at an index in the group's voter, or of its base; `None` if it has neither there.
    pub fn term_at(&self, group: u64, index: u64) -> Option<u64>
        ensures { result ≡ term_at (outlines_in self.now group) index }
    {
        match self.kept.get(&group) {
            Some(outline) => outline.term_at(index),
            None => Outline::new(self.alloc).term_at(index),
        }
    }

    /// Lends the outline that is kept for a group's voter, to be changed: what is left there is that voter's outline.
    /// Returns `None` if none is kept.
    pub fn get_mut(&mut self, group: u64) -> Option<&mut Outline>
        ensures* lends { sem 𝓛 (LendsOutline self.entry group result) }
        ensures value { MatchOption result (kept_of self.old group ≡ None)
            (λ outline. kept_of self.old group ≡ Some outline.now) }
    {
        self.kept.get_mut(&group)
    }
}

/// Decides a request with an outline.
fn decide_by(outline: &Outline, request: &Request) -> Decision
    ensures decides { Decides outline.now.voter request.now result }
    ensures own { without_bytes outline.now.voter ≡ outline.now.voter }
{
    // the outline's state shows that it is the outline of a voter: itself
    let _state = outline.state();
    outline.decide(request)
}
