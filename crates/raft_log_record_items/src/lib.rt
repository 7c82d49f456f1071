//! The items of a log and their bytes: runs of entries, commands and keys. Also the messages that users keep in them.
#![tactic(auto)]

mod bytes;
pub mod command;
pub mod compression;
pub mod entry;
pub mod entry_indexes;
pub mod item;
pub mod items;
pub mod key_value;
pub mod laws;
pub mod message;
pub mod op_type;
pub mod raw_message;

pub use command::Command;
pub use compression::CompressionType;
pub use entry::EntryIndex;
pub use entry_indexes::EntryIndexes;
pub use item::{LogItem, LogItemContent};
pub use key_value::KeyValue;
pub use message::{Message, MessageExt};
pub use op_type::OpType;
pub use raft_lists::Bytes;
pub use raft_log_record_base::{
    Error, FileBlockHandle, FileId, FileSeq, LogFileContext, LogQueue, Result, Version,
};
pub use raw_message::{RawEntries, RawMessage};
