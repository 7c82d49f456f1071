//! A file system over a device, such as one over real files. Each change is made on a model in memory and then on the
//! device. The device's calls are in a trace, which determines what a crash leaves.
#![tactic(auto)]

pub mod device;
pub mod directory;
mod durable;
pub mod undoing;
pub mod writing_back;

pub use device::{Attempt, Device};
pub use directory::DirectoryFileSystem;
pub use writing_back::write_back;
