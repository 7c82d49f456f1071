//! Copies the files of a directory between a real directory and a file system. `load_directory` copies each regular
//! file of a real directory into a file system, synced. `save_directory` writes each file of a file system's directory
//! into a real one.
//!
//! Both go through a list of files (`StoredFile`). It is proved what a file system then holds of such a list, and which
//! list is read from it. What a real directory returns and stores is up to the operating system.
#![tactic(auto)]

pub mod fault;
pub mod gathering;
pub mod laws;
pub mod laying;
pub mod real;
pub mod stored_file;

pub use fault::CopyFault;
pub use gathering::gather;
pub use laying::lay_out;
pub use real::{load_directory, read_directory, save_directory, write_directory};
pub use stored_file::StoredFile;
