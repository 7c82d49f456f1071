//! The log store under one name. A program that keeps a log needs at most two other crates of the log:
//! `raft_log_engine_os`, which opens a log in real directories, and `raft_log_record_items` for `RawEntries`.
//!
//! [`Engine`] is opened over a file system with settings. It writes batches, reads, compacts, purges and closes. A log
//! that no engine has open can be forked, dumped and checked. This crate only re-exports; the page of each part says
//! what its calls guarantee.
#![tactic(auto)]

pub use raft_log_dual_pipes::{Closed, OpenRefused, PipeLog};
pub use raft_log_engine_core::{Engine, EnginePipes, LogEngine, PurgeStep, ReplayThreads};
pub use raft_log_file_listeners::{EventListener, Listeners, Nobody, PurgeHook};
pub use raft_log_file_reader::LogItemReader;
pub use raft_log_file_settings::{Config, RecoveryMode};
pub use raft_log_fs::{Fault, FileSystem, Handle, Permission, Read, Receipt};
pub use raft_log_fs_memory::{MemoryFileSystem, Piece, Remainder};
pub use raft_log_offline::{
    ConsistencyChecker, CopyDetails, Finding, check_log, consistency_check_with_file_system,
    dump_with_file_system, fork,
};
pub use raft_log_record_base::{
    Error, FileBlockHandle, FileId, FileSeq, LogQueue, ReadableSize, Result, Version,
};
pub use raft_log_record_batches::{BatchState, LogBatch};
pub use raft_log_record_items::{
    Bytes, Command, CompressionType, EntryIndex, LogItem, LogItemContent, Message, MessageExt,
    OpType,
};
pub use raft_log_recovery::{DualPipesBuilder, DualPipesBuilder as FilePipeLogBuilder};
