//! In how many purges in a row each group was asked to be compacted.

ghost use Rattle.std.specs.Prelude.{◌≡◌, ◌==◌, ℕ, true, IfOk, OnOk, if◌then◌else◌};
ghost use Rattle.std.specs.List.{list_any};
ghost use Rattle.raft_log_purge_policy.specs.Behind.{round_behind};

use std::alloc::{AllocError, Global};
use std::collections::BTreeMap;

/// After so many purges in a row that ask for a group to be compacted, the next one rewrites it.
pub const ROUNDS_OF_ASKING: u32 = 9;

/// In how many purges in a row each group was asked to be compacted; in none, if it isn't listed.
#[derive(Drop)]
pub struct Rounds {
    counts: BTreeMap<u64, u32>,
}

impl Rounds {
    ghost use Rattle.raft_log_purge_policy.specs.Picking.{count_of};

    /// No purge asked for a group yet.
    pub fn new(alloc: Global) -> Rounds
        ensures { (g : ℕ) → count_of result g ≡ 0 }
    {
        Rounds {
            counts: BTreeMap::new(alloc),
        }
    }

    /// In how many purges in a row the caller was asked to compact a group.
    pub fn count_of(&self, group: u64) -> u32
        ensures { result ≡ count_of self.now group }
    {
        match self.counts.get(&group) {
            Some(count) => *count,
            None => 0,
        }
    }

    /// The counts after a purge that asked for these groups to be compacted: one more for each, and 0 for all others.
    /// If nine purges in a row had asked for a group before, it starts anew at 0. These counts stay unchanged.
    pub fn behind(&self, alloc: Global, asked: &[u64]) -> Result<Rounds, AllocError>
        ensures { IfOk result (λ next. (g : ℕ) → count_of next g
            ≡ round_behind (list_any (λ k. k == g) asked.now) (count_of self.now g)) }
    {
        let mut next = Rounds::new(alloc);
        for group in asked {
            next.note(*group, round_behind(self.count_of(*group)))?;
        }
        Ok(next)
    }

    /// Sets the count of a group.
    fn note(&mut self, group: u64, count: u32) -> Result<(), AllocError>
        ensures { OnOk result ((g : ℕ) → count_of self.new g
            ≡ (if group == g then count else count_of self.old g)) }
    {
        self.counts.insert(group, count)?;
        Ok(())
    }
}

/// The count of a group after one more purge asked for it.
fn round_behind(count: u32) -> u32
    ensures { result ≡ round_behind true count }
{
    if count < ROUNDS_OF_ASKING {
        count + 1
    } else {
        0
    }
}
