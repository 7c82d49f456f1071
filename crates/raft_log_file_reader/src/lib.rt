//! Reads log files: the batches of a file one after another, by blocks; and the items of one file or of all files in a
//! directory.
#![tactic(auto)]

mod batch;
mod batches;
mod files;
pub mod foreign;
mod header;
pub mod item_laws;
pub mod item_reader;
pub mod laws;
pub mod log_file;
pub mod open_file;
pub mod reader;
pub mod source;
mod window;

pub use foreign::ForeignRecord;
pub use item_reader::LogItemReader;
pub use log_file::LogFile;
pub use open_file::OpenFile;
pub use reader::LogItemBatchFileReader;
pub use source::Source;
