//! The keeper of a history.
ghost use Rattle.std.specs.Prelude.{◌≡◌, ◌++◌, ◌∷◌, [], length};
ghost use Rattle.crossbeam_utils.specs.Seq.{cell_view};
ghost use Rattle.raft_log_shared.specs.History.{HasPart, claims_part, knows};

use crate::claim::Claim;
use crate::history::{History, Named};
use crate::rule::{Add, Cell, Find, Give, HistoryPass, Noting, Portion, TakeIn};
use raft_log_world::Answer;
use std::marker::{Brand, Model, PhantomData};
use std::sync::Wait;

/// Knows the whole history, and adds records to it. Contracts see it as the records. It takes no memory.
#[derive(Drop)]
pub struct Keeper<L: Named> {
    pass: HistoryPass,
    of: PhantomData<L>,
}

impl<L: Named> Model for Keeper<L> {
    ghost use Rattle.std.specs.Prelude.{◌≡◌, List};
    ghost use Rattle.crossbeam_utils.specs.Seq.{cell_view};
    ghost use Rattle.raft_log_shared.specs.declared.served.Served.{Served};
    ghost use Rattle.raft_log_shared.specs.History.{knows};

    ghost Value = { List Served };

    ghost view = { λ k. (cell_view k.pass).all };

    ghost invariant = { λ k. (k.pass.table_id ≡ L.history) × (cell_view k.pass ≡ knows (cell_view k.pass).all) };
}

impl<L: Named> Keeper<L> {
    /// Returns the keeper of an empty history, given its pass.
    pub(crate) fn first(pass: HistoryPass) -> Keeper<L>
        requires named { pass.table_id ≡ L.history }
        requires empty { cell_view pass ≡ knows [] }
        ensures { result ≡ [] }
    {
        Keeper {
            pass,
            of: PhantomData,
        }
    }

    /// Adds the record of the call that `X` names, which ended with this answer, at the end of the history. Returns a
    /// claim for it. May wait.
    pub fn note<X: Noting, R: Wait>(
        &mut self,
        rt: &R,
        history: &History<L>,
        answer: &Answer,
    ) -> Claim<L>
        ensures noted { self.new ≡ self.old ++ record { call = X.call; answer = answer.now } ∷ [] }
        ensures claim { result ≡ (length self.old, record { call = X.call; answer = answer.now } ∷ []) }
    {
        Claim::of(noted::<Brand, R>(rt, &history.cell, &mut self.pass, answer))
    }

    /// Compares a claim with the history, which proves that the history has the claim's records. May wait.
    pub fn find<R: Wait>(&mut self, rt: &R, history: &History<L>, claim: Claim<L>)
        ensures same { self.new ≡ self.old }
        ensures found { HasPart self.old claim.0 claim.1 }
    {
        history
            .cell
            .join_pass::<TakeIn>(&mut self.pass, claim.into_pass());
        history.cell.load_as::<Find, R>(rt, &mut self.pass);
    }
}

/// Adds records at the end of the history that a pass knows. Returns a pass that claims them.
fn noted<X: Portion, R: Wait>(
    rt: &R,
    cell: &Cell,
    pass: &mut HistoryPass,
    _answer: &Answer,
) -> HistoryPass
    requires cell { pass.old.table_id ≡ cell.now.table.shared.table_id }
    requires knows { (cell_view pass.old ≡ knows (cell_view pass.old).all)
        × (X.first ≡ length (cell_view pass.old).all) }
    ensures same { pass.new.table_id ≡ pass.old.table_id }
    ensures noted { cell_view pass.new ≡ knows ((cell_view pass.old).all ++ X.part) }
    ensures named { (result.table_id ≡ pass.old.table_id) × (result.me.1 ≡ []) }
    ensures claim { cell_view result ≡ claims_part X.first X.part }
{
    cell.load_as::<Add<X>, R>(rt, pass);
    cell.split_pass::<Give<X>>(pass)
}
