//! The traits of stores whose files can be purged, and whose voters can be listed.
ghost use Rattle.std.specs.Prelude.{◌≡◌, ℕ, List, IfErr, IfOk, OnOk};
ghost use Rattle.raft_voter_outline.specs.State.{State};
ghost use Rattle.raft_voter_shared.specs.Looking.{StaysServed};
ghost use Rattle.raft_voter_shared.specs.Purging.{KeepsServed};

use raft_voter::{RoundService, Voter};

/// A store of voters whose files are purged between rounds.
pub trait Maintenance<R>: RoundService<R> {
    /// Why a purge fails.
    type Refusal;

    /// What a step of a purge returns.
    type Step;

    /// What a purge by force purges.
    type Purge;

    /// A purge that succeeds may change the first store into the second, and return these groups to compact.
    ghost purges: { List ℕ → Self → Self → Type 0 };

    /// A step with this budget that succeeds may return this, and change the first store into the second.
    ghost steps: { ℕ → Self.Step → Self → Self → Type 0 };

    /// A purge, or a step of one, may fail with this error, and change the first store into the second.
    ghost refuses: { Self.Refusal → Self → Self → Type 0 };

    /// A forced purge that succeeds may change the first store into the second.
    ghost forces: { Self.Purge → Self → Self → Type 0 };

    /// A forced purge may fail with this error, and change the first store into the second.
    ghost refuses_force: { Self.Purge → Self.Refusal → Self → Self → Type 0 };

    /// Whether the store failed: then it serves nothing until it is opened again.
    fn is_failed(&self) -> bool
        ensures { result ≡ Self.service.is_failed self.now };

    /// Purges its files. Returns the groups to compact. Whether it succeeds or fails, no voter changes. If the store
    /// fails in it, a file call failed, and what it left before is still left.
    fn maintain(&mut self, rt: &R) -> Result<Vec<u64>, Self::Refusal>
        ensures keeps { KeepsServed Self.service self.old self.new }
        ensures ok { IfOk result (λ groups. purges groups.items self.old self.new) }
        ensures err { IfErr result (λ refusal. refuses refusal self.old self.new) };

    /// Does one step of what `maintain` does, so that rounds can be served between two steps. `steps` says what
    /// `budget` bounds. It keeps the voters as `maintain` does.
    fn purge_some(&mut self, rt: &R, budget: u64) -> Result<Self::Step, Self::Refusal>
        ensures keeps { KeepsServed Self.service self.old self.new }
        ensures ok { IfOk result (λ step. steps budget step self.old self.new) }
        ensures err { IfErr result (λ refusal. refuses refusal self.old self.new) };

    /// Purges what `purge` names, whatever its size. It keeps the voters as `maintain` does.
    fn force_purge(&mut self, rt: &R, purge: &Self::Purge) -> Result<(), Self::Refusal>
        ensures keeps { KeepsServed Self.service self.old self.new }
        ensures ok { OnOk result (forces purge.now self.old self.new) }
        ensures err { IfErr result (λ refusal. refuses_force purge.now refusal self.old self.new) };
}

/// A store that lists its voters between rounds.
pub trait Listing<R>: RoundService<R> {
    /// Why a listing fails.
    type Unlisted;

    /// A listing of this store may return these voters, each with its group.
    ghost lists: { List (ℕ × State) → Self → Type 0 };

    /// A listing of this store may fail with this error.
    ghost hides: { Self.Unlisted → Self → Type 0 };

    /// Returns the stored voters, each with its group. Whether it succeeds or fails, the store serves the same voters
    /// afterwards, and has failed only if it had before.
    fn voters(&mut self, rt: &R) -> Result<Vec<(u64, Voter)>, Self::Unlisted>
        ensures keeps { StaysServed Self.service self.old self.new }
        ensures ok { IfOk result (λ voters. lists voters.items self.old) }
        ensures err { IfErr result (λ unlisted. hides unlisted self.old) };
}
