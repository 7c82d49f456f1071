//! Claims: which records are in a history.
ghost use Rattle.std.specs.Prelude.{◌≡◌, ◌+◌, ◌++◌, [], length};
ghost use Rattle.crossbeam_utils.specs.Seq.{cell_view};
ghost use Rattle.raft_voter_history.specs.History.{claims_part};

use crate::history::{History, Named};
use crate::rule::{Append, HistoryPass, Twice, Whole};
use std::marker::{Model, PhantomData};

/// Says that the history has these records, from this place on. Contracts see it as the place and the records. It takes
/// no memory.
#[derive(Drop)]
pub struct Claim<L: Named> {
    pass: HistoryPass,
    of: PhantomData<L>,
}

impl<L: Named> Model for Claim<L> {
    ghost use Rattle.std.specs.Prelude.{◌≡◌, ℕ, List, []};
    ghost use Rattle.crossbeam_utils.specs.Seq.{cell_view};
    ghost use Rattle.raft_voter_messages.specs.declared.round.Round.{Round};
    ghost use Rattle.raft_voter_history.specs.History.{claims_part};

    ghost Value = { ℕ × List Round };

    ghost view = { λ c. ((cell_view c.pass).first, (cell_view c.pass).part) };

    ghost invariant = { λ c. (c.pass.table_id ≡ L.history) × (c.pass.me.1 ≡ [])
        × (cell_view c.pass ≡ claims_part (cell_view c.pass).first (cell_view c.pass).part) };
}

impl<L: Named> Claim<L> {
    /// Returns the claim of a pass.
    pub(crate) fn of(pass: HistoryPass) -> Claim<L>
        requires named { (pass.table_id ≡ L.history) × (pass.me.1 ≡ []) }
        requires claims { cell_view pass ≡ claims_part (cell_view pass).first (cell_view pass).part }
        ensures { result ≡ ((cell_view pass).first, (cell_view pass).part) }
    {
        Claim {
            pass,
            of: PhantomData,
        }
    }

    /// Returns the pass of the claim.
    pub(crate) fn into_pass(self) -> HistoryPass
        ensures named { (result.table_id ≡ L.history) × (result.me.1 ≡ []) }
        ensures claims { cell_view result ≡ claims_part self.0 self.1 }
    {
        let Claim { pass, of: _ } = self;
        pass
    }

    /// Returns a second claim for the same records.
    pub fn again(&mut self, history: &History<L>) -> Claim<L>
        ensures same { self.new ≡ self.old }
        ensures claim { result ≡ self.old }
    {
        let second = history.cell.split_pass::<Twice>(&mut self.pass);
        let whole = history.cell.split_pass::<Whole>(&mut self.pass);
        self.pass = whole;
        Claim::of(second)
    }

    /// Adds to this claim one for the records that follow its own in the history.
    pub fn join(&mut self, history: &History<L>, next: Claim<L>)
        requires { next.0 ≡ self.old.0 + length self.old.1 }
        ensures { self.new ≡ (self.old.0, self.old.1 ++ next.1) }
    {
        history
            .cell
            .join_pass::<Append>(&mut self.pass, next.into_pass());
        let whole = history.cell.split_pass::<Whole>(&mut self.pass);
        self.pass = whole;
    }
}
