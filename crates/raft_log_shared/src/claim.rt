//! Claims: which records are in a history.
ghost use Rattle.std.specs.Prelude.{◌≡◌, []};
ghost use Rattle.crossbeam_utils.specs.Seq.{cell_view};
ghost use Rattle.raft_log_shared.specs.History.{claims_part};

use crate::history::{History, Named};
use crate::rule::{HistoryPass, Twice, Whole};
use std::marker::{Model, PhantomData};

/// Says that the history has these records, from this place on. Contracts see it as the place and the records. It takes
/// no memory.
#[derive(Drop)]
pub struct Claim<L: Named> {
    pass: HistoryPass,
    of: PhantomData<L>,
}

impl<L: Named> Model for Claim<L> {
    ghost use Rattle.std.specs.Prelude.{◌≡◌, ℕ, List, []};
    ghost use Rattle.crossbeam_utils.specs.Seq.{cell_view};
    ghost use Rattle.raft_log_shared.specs.declared.served.Served.{Served};
    ghost use Rattle.raft_log_shared.specs.History.{claims_part};

    ghost Value = { ℕ × List Served };

    ghost view = { λ c. ((cell_view c.pass).first, (cell_view c.pass).part) };

    ghost invariant = { λ c. (c.pass.table_id ≡ L.history) × (c.pass.me.1 ≡ [])
        × (cell_view c.pass ≡ claims_part (cell_view c.pass).first (cell_view c.pass).part) };
}

impl<L: Named> Claim<L> {
    /// Returns the claim of a pass.
    pub(crate) fn of(pass: HistoryPass) -> Claim<L>
        requires named { (pass.table_id ≡ L.history) × (pass.me.1 ≡ []) }
        requires claims { cell_view pass ≡ claims_part (cell_view pass).first (cell_view pass).part }
        ensures { result ≡ ((cell_view pass).first, (cell_view pass).part) }
    {
        Claim {
            pass,
            of: PhantomData,
        }
    }

    /// Returns the pass of the claim.
    pub(crate) fn into_pass(self) -> HistoryPass
        ensures named { (result.table_id ≡ L.history) × (result.me.1 ≡ []) }
        ensures claims { cell_view result ≡ claims_part self.0 self.1 }
    {
        let Claim { pass, of: _ } = self;
        pass
    }

    /// Returns a second claim for the same records.
    pub fn again(&mut self, history: &History<L>) -> Claim<L>
        ensures same { self.new ≡ self.old }
        ensures claim { result ≡ self.old }
    {
        let second = history.cell.split_pass::<Twice>(&mut self.pass);
        let whole = history.cell.split_pass::<Whole>(&mut self.pass);
        self.pass = whole;
        Claim::of(second)
    }
}
