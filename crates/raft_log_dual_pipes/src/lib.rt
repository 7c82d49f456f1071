//! The two pipes of a log over one file system. The clauses `ok` and `err` of their calls state the steps of the log,
//! without paths. The laws state what each call does to the two queues on one disk, in terms of the machine's numbered
//! files. All public functions except those of `DualPipes` and `PipeLog` are laws: they do nothing, and their contracts
//! are what is proved.
#![tactic(auto)]

pub mod appending;
pub mod beginning;
pub mod closed;
pub mod closing;
pub mod dual_pipes;
pub mod failing;
pub mod frame;
pub mod images;
pub mod laws;
pub mod on_disk;
pub mod open_or_closed;
pub mod opening;
pub mod own;
pub mod per_queue;
pub mod pipe_log;
pub mod purging;
pub mod queues;
pub mod recycling;
pub mod reopening;
pub mod syncing;
pub mod writes;

pub use closed::Closed;
pub use dual_pipes::DualPipes;
pub use opening::{FoundPipe, OpenRefused};
pub use pipe_log::PipeLog;
