//! The keeper of a history.
ghost use Rattle.std.specs.Prelude.{◌≡◌, ◌++◌, ◌∷◌, [], length};
ghost use Rattle.crossbeam_utils.specs.Seq.{cell_view};
ghost use Rattle.raft_voter_history.specs.History.{HasPart, claims_part, knows};

use crate::claim::Claim;
use crate::history::{History, Named};
use crate::rule::{Add, Cell, Find, Give, HistoryPass, Portion, TakeIn};
use raft_voter_messages::Round;
use std::marker::{Brand, Model, PhantomData};
use std::sync::Wait;

/// Knows the whole history, and adds records to it. Contracts see it as the records. It takes no memory.
#[derive(Drop)]
pub struct Keeper<L: Named> {
    pass: HistoryPass,
    of: PhantomData<L>,
}

impl<L: Named> Model for Keeper<L> {
    ghost use Rattle.std.specs.Prelude.{◌≡◌, List};
    ghost use Rattle.crossbeam_utils.specs.Seq.{cell_view};
    ghost use Rattle.raft_voter_messages.specs.declared.round.Round.{Round};
    ghost use Rattle.raft_voter_history.specs.History.{knows};

    ghost Value = { List Round };

    ghost view = { λ k. (cell_view k.pass).all };

    ghost invariant = { λ k. (k.pass.table_id ≡ L.history) × (cell_view k.pass ≡ knows (cell_view k.pass).all) };
}

impl<L: Named> Keeper<L> {
    /// Returns the keeper of an empty history, given its pass.
    pub(crate) fn first(pass: HistoryPass) -> Keeper<L>
        requires named { pass.table_id ≡ L.history }
        requires empty { cell_view pass ≡ knows [] }
        ensures { result ≡ [] }
    {
        Keeper {
            pass,
            of: PhantomData,
        }
    }

    /// Adds a record at the end of the history, and returns a claim for it. May wait.
    pub fn note<R: Wait>(&mut self, rt: &R, history: &History<L>, round: &Round) -> Claim<L>
        ensures noted { self.new ≡ self.old ++ round.now ∷ [] }
        ensures claim { result ≡ (length self.old, round.now ∷ []) }
    {
        Claim::of(noted::<Brand, R>(rt, &history.cell, &mut self.pass, round))
    }

    /// Returns a claim for the records `part`, which the history must have from place `first` on.
    pub fn claim(&mut self, history: &History<L>, first: usize, part: &[Round]) -> Claim<L>
        requires { HasPart self.old first part.now }
        ensures same { self.new ≡ self.old }
        ensures claim { result ≡ (first, part.now) }
    {
        Claim::of(claimed::<Brand>(&history.cell, &mut self.pass, first, part))
    }

    /// Compares a claim with the history, which proves that the history has the claim's records. May wait.
    pub fn find<R: Wait>(&mut self, rt: &R, history: &History<L>, claim: Claim<L>)
        ensures same { self.new ≡ self.old }
        ensures found { HasPart self.old claim.0 claim.1 }
    {
        history
            .cell
            .join_pass::<TakeIn>(&mut self.pass, claim.into_pass());
        history.cell.load_as::<Find, R>(rt, &mut self.pass);
    }
}

/// Adds a record at the end of the history that a pass knows. Returns a pass that claims it.
fn noted<X: Portion, R: Wait>(
    rt: &R,
    cell: &Cell,
    pass: &mut HistoryPass,
    _round: &Round,
) -> HistoryPass
    requires cell { pass.old.table_id ≡ cell.now.table.shared.table_id }
    requires knows { cell_view pass.old ≡ knows (cell_view pass.old).all }
    requires first { X.first ≡ length (cell_view pass.old).all }
    requires part { X.part ≡ _round.now ∷ [] }
    ensures same { pass.new.table_id ≡ pass.old.table_id }
    ensures noted { cell_view pass.new ≡ knows ((cell_view pass.old).all ++ X.part) }
    ensures named { (result.table_id ≡ pass.old.table_id) × (result.me.1 ≡ []) }
    ensures claim { cell_view result ≡ claims_part X.first X.part }
{
    cell.load_as::<Add<X>, R>(rt, pass);
    cell.split_pass::<Give<X>>(pass)
}

/// Returns a pass that claims these records of the history that a pass knows.
fn claimed<X: Portion>(
    cell: &Cell,
    pass: &mut HistoryPass,
    _first: usize,
    _part: &[Round],
) -> HistoryPass
    requires cell { pass.old.table_id ≡ cell.now.table.shared.table_id }
    requires knows { cell_view pass.old ≡ knows (cell_view pass.old).all }
    requires part { (X.first ≡ _first) × (X.part ≡ _part.now) }
    requires has { HasPart (cell_view pass.old).all X.first X.part }
    ensures same { pass.new.table_id ≡ pass.old.table_id }
    ensures known { cell_view pass.new ≡ cell_view pass.old }
    ensures named { (result.table_id ≡ pass.old.table_id) × (result.me.1 ≡ []) }
    ensures claim { cell_view result ≡ claims_part X.first X.part }
{
    cell.split_pass::<Give<X>>(pass)
}
