//! The files of a log, under one name: file systems, names, headers, settings, readers and writers of one file,
//! pipes, and listeners.
//!
//! This crate only re-exports; the page of each part says what its calls promise.
#![tactic(auto)]

pub use raft_log_active_file::{
    DEFAULT_FIRST_FILE_SEQ, DEFAULT_PATH_ID, File, LogLayout, PathId, Paths,
};
pub use raft_log_dual_pipes::{DualPipes, DualPipes as FilePipeLog, OpenRefused, PipeLog};
pub use raft_log_file_format::{
    FileNameExt, LogFileFormat, build_reserved_file_name, parse_reserved_file_name,
};
pub use raft_log_file_listeners::{EventListener, Listeners, Nobody, PurgeHook, ToldPipes};
pub use raft_log_file_pipe::{ReactiveBytes, SinglePipe};
pub use raft_log_file_reader::{LogItemBatchFileReader, LogItemReader};
pub use raft_log_file_settings::{Config, RecoveryMode};
pub use raft_log_file_writer::{
    LogFileReader, LogFileWriter, build_file_reader, build_file_writer,
};
pub use raft_log_fs::{Fault, FileSystem, Handle, Permission, Read, Receipt};
pub use raft_log_fs_memory::{MemoryFileSystem, Piece, Remainder};
