//! What the whole log shares: numbers as bytes, sizes, rounding, queues, files and places in them, and errors.
#![tactic(auto)]

pub mod codec;
pub mod errors;
pub mod laws;
pub mod pipe_log;
mod rounding;
pub mod size;

pub use errors::{Error, Result};
pub use pipe_log::{FileBlockHandle, FileId, FileSeq, LogFileContext, LogQueue, Version};
pub use rounding::{round_down, round_up};
pub use size::{ParseSizeError, ReadableSize};
