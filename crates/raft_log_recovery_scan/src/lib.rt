//! A log's directories before any engine opens them: which files there are, which of them are read, and by how many
//! workers.
#![tactic(auto)]

pub mod chunks;
pub mod file_kind;
pub mod recovery_config;
pub mod scanning;

pub use chunks::{Workers, share_workers};
pub use file_kind::{FileKind, FileName};
pub use recovery_config::RecoveryConfig;
