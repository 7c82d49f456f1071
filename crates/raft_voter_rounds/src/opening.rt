//! The state of a store when it was shared.
use raft_voter_history::Named;
use std::marker::Brand;
use std::sync::ledger::Ledger;

/// Names the ledger and the history of a shared store, and the state of the store when it was shared.
pub trait Opening: Ledger + Named {
    ghost use Rattle.std.specs.Prelude.{ℕ, Bool};
    ghost use Rattle.raft_voter.specs.Rounds.{World};

    /// All parts of the ledger.
    ghost all: { ℕ };

    /// The voters that the store served.
    ghost served: { World → Type 0 };

    /// Whether the store had failed.
    ghost had_failed: { Bool };
}

impl Opening for Brand {
    ghost use Rattle.std.specs.Prelude.{false};

    ghost all = { 0 };

    ghost served = { λ W. ⊥ };

    ghost had_failed = { false };
}
