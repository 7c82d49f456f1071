//! The file system that a store needs (`FileSystem`), and definitions for its contracts: what a file system holds, how
//! each call changes it if it succeeds or fails, and what a crash may leave. Functions without a body state the laws of
//! these definitions.
#![tactic(auto)]

pub mod calls;
pub mod causes;
pub mod file_system;
pub mod handle;
pub mod images;
pub mod kinds;
pub mod names;
pub mod receipt;

pub use file_system::FileSystem;
pub use handle::{Fault, Handle, Permission};
pub use kinds::{Kinds, told_at_stop};
pub use receipt::{Judged, Read, Receipt};
