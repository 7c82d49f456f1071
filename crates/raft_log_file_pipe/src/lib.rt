//! A queue of log files as an engine uses it. Records are appended to its active file. A rotation continues in a file
//! that was kept for recycling or in a new one. A purge removes what isn't needed any more.
//!
//! Every call borrows the file system. Anything that allocates memory comes before the first file call that changes
//! something; if memory runs out there, pipe and disk are unchanged.
#![tactic(auto)]

mod appending;
mod closing;
pub mod found_files;
mod headers;
pub mod laws;
pub mod new_files;
mod opening;
pub mod pipe_files;
mod purging;
pub mod reactive_bytes;
mod rotating;
pub mod single_pipe;
mod writing;

pub use found_files::FoundFiles;
pub use new_files::NewFiles;
pub use pipe_files::PipeFiles;
pub use reactive_bytes::ReactiveBytes;
pub use single_pipe::{PipeSettings, SinglePipe};
