//! A file system over real directories: each change is also made on the real files, and a sync that succeeds has synced
//! them. `CALLING.md` says what is trusted about it.
#![tactic(auto)]

pub mod fault;
pub mod file_device;
mod growing;
mod load;
mod locked_directory;
mod log_names;
mod making_durable;
mod open_file;
pub mod opening;
mod record;
mod reserve;
mod second_directory;

pub use fault::DirectoryFault;
pub use file_device::FileDevice;
pub use opening::{make_directory, open_directories, open_directories_for_reading};
pub use raft_log_fs_traced::DirectoryFileSystem;
