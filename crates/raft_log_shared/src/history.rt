//! A history, which its keeper and its claims have in common.
ghost use Rattle.std.specs.Prelude.{◌≡◌, [], IfOk};
ghost use Rattle.crossbeam_utils.specs.Seq.{cell_view};
ghost use Rattle.raft_log_shared.specs.History.{knows};

use crate::keeper::Keeper;
use crate::rule::{Cell, HistoryPass};
use std::alloc::{AllocError, Global};
use std::marker::{Brand, PhantomData};

/// Names a history, so that a keeper and claims are of the same one.
pub trait Named {
    ghost use Rattle.atomic_table.specs.Seated.{TableId};

    /// The history's name.
    ghost history: { TableId };
}

impl Named for Brand {
    ghost use Rattle.raft_log_shared.specs.History.{no_table};

    ghost history = { no_table };
}

/// An empty history that has no name yet.
#[derive(Drop)]
pub struct FreshHistory {
    cell: Cell,
    pass: HistoryPass,
    pub ghost same: { pass.table_id ≡ cell.table.shared.table_id },
    pub ghost empty: { cell_view pass ≡ knows [] },
}

impl FreshHistory {
    /// Returns an empty history without a name. Fails if memory runs out.
    pub fn new(alloc: Global) -> Result<FreshHistory, AllocError> {
        let (cell, pass) = Cell::ruled(alloc, [0])?;
        Ok(FreshHistory { cell, pass })
    }

    /// Names the history, and returns it with its keeper. `L::history` must be the name of this
    /// one.
    pub fn named<L: Named>(self) -> (History<L>, Keeper<L>)
        requires { self.cell.table.shared.table_id ≡ L.history }
        ensures { result.1 ≡ [] }
    {
        let FreshHistory { cell, pass } = self;
        let history = History {
            cell,
            of: PhantomData,
        };
        (history, Keeper::first(pass))
    }
}

/// A history. Its keeper and its claims are used together with it.
#[derive(Drop)]
pub struct History<L: Named> {
    pub(crate) cell: Cell,
    of: PhantomData<L>,
    ghost named: { cell.table.shared.table_id ≡ L.history },
}
