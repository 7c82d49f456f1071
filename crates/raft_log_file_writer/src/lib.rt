//! One log file over any file system: its header, appending to it, and reading it again.
#![tactic(auto)]

pub mod build;
pub mod chains;
pub mod laws;
pub mod logs;
pub mod reader;
pub mod writer;

pub use build::{build_file_writer, build_header};
pub use reader::{LogFileReader, build_file_reader};
pub use writer::LogFileWriter;
