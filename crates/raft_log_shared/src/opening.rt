//! The state of an engine when it was shared.
use crate::history::Named;
use std::marker::{Brand, PhantomData};

/// Names the histories of a shared engine, and the logs that the engine had open when it was shared.
pub trait Opening: Named {
    ghost use Rattle.atomic_table.specs.Seated.{TableId};
    ghost use Rattle.raft_log_engine_laws.specs.EngineState.{LogDirectories};
    ghost use Rattle.raft_log_world.specs.Model.{ModelLog};

    /// The name of the history of the requests.
    ghost asks: { TableId };

    /// The logs of the model that the engine had open, each with its directories.
    ghost began: { LogDirectories → ModelLog → Type 0 };
}

impl Opening for Brand {
    ghost use Rattle.raft_log_shared.specs.History.{no_table};

    ghost asks = { no_table };

    ghost began = { λ home log. ⊥ };
}

/// Names the history of the requests of a shared engine.
pub struct Asks<L: Opening> {
    of: PhantomData<L>,
}

impl<L: Opening> Named for Asks<L> {
    ghost history = { L.asks };
}
