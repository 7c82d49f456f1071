//! The records of a log, in one name: numbers, sizes, items, batches and their bytes, and errors.
//!
//! This crate only re-exports; the page of each part says what its calls promise.
#![tactic(auto)]

pub use raft_log_record_base::codec::BytesSlice;
pub use raft_log_record_base::size::{B, GIB, KIB, MIB, PIB, TIB};
pub use raft_log_record_base::{
    Error, FileBlockHandle, FileId, FileSeq, LogFileContext, LogQueue, ParseSizeError,
    ReadableSize, Result, Version, codec, round_down, round_up,
};
pub use raft_log_record_batches::{AtomicGroupBuilder, BatchState, LogBatch, LogItemBatch};
pub use raft_log_record_checksum::{crc32, hash_u64, unhash_u64};
pub use raft_log_record_frames::{
    AtomicGroupStatus, LOG_BATCH_HEADER_LEN, Marking, decode_entries_block, decode_footer,
    decode_header,
};
pub use raft_log_record_items::{
    Bytes, Command, CompressionType, EntryIndex, EntryIndexes, KeyValue, LogItem, LogItemContent,
    Message, MessageExt, OpType,
};
