//! One log file: its name and its header.
#![tactic(auto)]

pub mod header;
pub mod laws;
pub mod name;
pub mod padding;

pub use header::LogFileFormat;
pub use name::{
    FileNameExt, build_reserved_file_name, build_signed_file_name, build_signed_file_path,
    build_signed_reserved_file_name, parse_reserved_file_name,
};
pub use padding::is_zero_padded;
