//! The rule of a history, and what each step changes in the view of a pass.
use crate::served::Served;
use atomic_table::{Join, Split};
use crossbeam_utils::atomic::seq_cell::{Pass, RuledSeqCell};
use crossbeam_utils::rule::{Outcome, Protocol};
use std::collections::LinkedList;
use std::marker::{Brand, PhantomData};

/// What a pass knows: the whole history, or the records of a part of it. It exists in contracts alone.
pub struct View {
    /// Whether the pass knows the whole history.
    pub keeps: bool,
    /// The history, if it does.
    pub all: LinkedList<Served>,
    /// Whether it claims a part.
    pub claims: bool,
    /// The place of the first record of that part.
    pub first: u64,
    /// The records of that part.
    pub part: LinkedList<Served>,
}

/// The rule: there is one history of which all views are true.
pub struct OneHistory;

impl Protocol<[u64; 1], View> for OneHistory {
    ghost use Rattle.std.specs.Prelude.{[]};
    ghost use Rattle.raft_log_shared.specs.History.{IsOneHistory, knows};

    ghost holds = { IsOneHistory };

    ghost first = { knows [] };
}

/// Names a part of the history.
pub trait Portion {
    ghost use Rattle.std.specs.Prelude.{ℕ, List};
    ghost use Rattle.raft_log_shared.specs.declared.served.Served.{Served};

    /// The place of its first record.
    ghost first: { ℕ };

    /// Its records.
    ghost part: { List Served };
}

impl Portion for Brand {
    ghost use Rattle.std.specs.Prelude.{[]};

    ghost first = { 0 };

    ghost part = { [] };
}

/// Names a call, which is to be noted.
pub trait Noting {
    ghost use Rattle.raft_log_record_batches.specs.Batch.{Batch};
    ghost use Rattle.raft_log_world.specs.declared.event.Call.{Call};

    /// The call.
    ghost call: { Call Batch };
}

impl Noting for Brand {
    ghost use Rattle.raft_log_world.specs.declared.event.Call.TheVariants.{Sync};

    ghost call = { Sync };
}

/// The keeper adds the records of a part.
pub struct Add<X: Portion> {
    of: PhantomData<X>,
}

impl<X: Portion> Outcome<[u64; 1], View> for Add<X> {
    ghost use Rattle.raft_log_shared.specs.History.{Notes};

    ghost then = { Notes X.part };
}

/// The keeper compares a claim with the history.
pub struct Find;

impl Outcome<[u64; 1], View> for Find {
    ghost use Rattle.raft_log_shared.specs.History.{Finds};

    ghost then = { Finds };
}

/// The keeper gives out a claim for a part.
pub struct Give<X: Portion> {
    of: PhantomData<X>,
}

impl<X: Portion> Split<View> for Give<X> {
    ghost use Rattle.raft_log_shared.specs.History.{claims_part};

    ghost left = { λ v. v };

    ghost right = { λ v. claims_part X.first X.part };
}

/// The keeper takes over a claim.
pub struct TakeIn;

impl Join<View> for TakeIn {
    ghost use Rattle.raft_log_shared.specs.History.{spent, with_claim};

    ghost both = { with_claim };

    ghost spent = { spent };
}

/// A pass gives all that it claims to a new one.
pub struct Whole;

impl Split<View> for Whole {
    ghost use Rattle.raft_log_shared.specs.History.{spent};

    ghost left = { λ v. spent };

    ghost right = { λ v. v };
}

/// A pass gives a new one the same claim, and keeps its own.
pub struct Twice;

impl Split<View> for Twice {
    ghost left = { λ v. v };

    ghost right = { λ v. v };
}

/// The cell whose passes follow the rule.
pub type Cell = RuledSeqCell<[u64; 1], View, OneHistory, 1>;

/// A pass of the cell. It has no bytes.
pub type HistoryPass = Pass<[u64; 1], View>;
