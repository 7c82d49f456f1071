//! Log records: items and entries in signed batches, which may be parts of atomic groups.
#![tactic(auto)]

pub mod atomic_group;
pub mod bounds;
mod entry_writer;
pub mod laws;
pub mod log_batch;

pub use atomic_group::AtomicGroupBuilder;
pub use entry_writer::{EntrySlices, EntryWriter};
pub use log_batch::{BatchState, LogBatch};
pub use raft_log_record_frames::{
    AtomicGroupStatus, LOG_BATCH_HEADER_LEN, LogItemBatch, Marking, decode_entries_block,
    decode_footer, decode_header,
};
pub use raft_log_record_items::{
    Bytes, Command, CompressionType, EntryIndex, EntryIndexes, Error, FileBlockHandle, FileId,
    FileSeq, KeyValue, LogFileContext, LogItem, LogItemContent, LogQueue, Message, MessageExt,
    OpType, Result, Version,
};
