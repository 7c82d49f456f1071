//! The storage of the file system in memory: names, each file's content, and its changes since the last sync. Each
//! change keeps what it replaced. The storage knows what is synced, and what a crash may leave.
#![tactic(auto)]

mod bytes;
pub mod change;
pub mod content;
pub mod files;
pub mod former;
pub mod laws;
mod order;
pub mod remainder;
mod remains;
pub mod storage;

pub use change::{Change, Stamped};
pub use content::Content;
pub use files::Stored;
pub use former::Former;
pub use remainder::{Piece, Remainder};
pub use storage::{Node, Storage};
