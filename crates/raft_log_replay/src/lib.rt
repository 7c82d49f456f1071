//! Reads the segments of a queue in parallel: machines that take batches, sources that provide them, and workers that
//! each read a part of the segments. The result is one reading in order.
#![tactic(auto)]

mod chunk;
pub mod in_turn;
pub mod laws;
pub mod machine;
pub mod scoped;
pub mod segments;
pub mod source;

pub use in_turn::replay_segments_in_turn;
pub use machine::{Factory, ReplayMachine};
pub use scoped::{ReplayThreads, replay_segments_by, replay_segments_scoped};
pub use segments::{ReadSegments, chunk_size, replay_segments};
pub use source::ReplaySource;
