//! Opens a log in real directories by its settings, in one call: [`open_engine`].
#![tactic(auto)]

pub mod fault;
pub mod opening;

pub use fault::OpenFault;
pub use opening::{DirectoryEngine, open_engine, open_files, set_limits};
