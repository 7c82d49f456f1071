//! Signs batches for the file that the pipe picks (`SignedBatch`). Reads entries back through the last block
//! (`BlockCache`), so that consecutive entries of one block need one read. The laws (`stored`, `kept`) say which bytes
//! the log and the cache have.
#![tactic(auto)]

pub mod block_cache;
pub mod kept;
pub mod signed_batch;
pub mod stored;

pub use block_cache::BlockCache;
pub use signed_batch::SignedBatch;
