//! Opens a log: from its settings and its file system to the pipes and the tables of its engine.
#![tactic(auto)]

pub mod content;
pub mod in_turn;
pub mod laws;
pub mod opening;
mod passing;
pub mod placed_file;
mod placing;
mod reading;
pub mod replacing;
pub mod unpadding;

pub use content::unpadded;
pub use in_turn::open_directory_in_turn;
pub use opening::{OpenedLog, open_directory};
pub use placed_file::PlacedFile;
pub use unpadding::unpad;
