//! The report of a run.
use crate::event::Answer;
use crate::storage::Storage;

/// The report of a run.
#[derive(Drop)]
pub struct LogReport<S, F> {
    /// How each event ended, in order.
    pub answers: Vec<Answer>,
    /// The engine that still has the log open, or the files.
    pub storage: Storage<S, F>,
}
