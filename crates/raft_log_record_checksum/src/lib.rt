//! The checksum of the log's formats, and the hash that spreads groups.
#![tactic(auto)]

mod checksum;
mod hash;

pub use checksum::crc32;
pub use hash::{hash_u64, unhash_u64};
