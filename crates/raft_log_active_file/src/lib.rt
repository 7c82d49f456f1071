//! A queue of numbered log files on a disk: the state of its files at any point inside any call, what a stop leaves of
//! them, and the machine's numbered files. Also the calls of which a pipe is made; they keep synced records whether
//! they succeed or fail.
//!
//! Each call's contract says what holds when it succeeds and when it fails, over any file system and any format of
//! files: for the last file of a queue (`last_file`), and for the names of its files (`rotation`).
#![tactic(auto)]

pub mod format;
pub mod last_file;
pub mod laws;
pub mod layout;
pub mod layout_laws;
pub mod numbered;
pub mod opening;
pub mod record;
pub mod rotation;

pub use format::{
    DEFAULT_FIRST_FILE_SEQ, DEFAULT_PATH_ID, File, PathId, Paths, PipeFormat, has_sign, place_of,
    plain_place,
};
pub use last_file::{WriteFault, append_record, begin_file, finish_file, sync_records};
pub use layout::LogLayout;
pub use opening::{begin_queue, reopen_file, truncate_torn_tail};
pub use record::LogRecord;
pub use rotation::{drop_file, rotate_over, rotate_to_new};
