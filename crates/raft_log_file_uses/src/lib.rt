//! Proved callers of the reader of log files: they read a directory's items, and find the end of a file's good
//! records.
#![tactic(auto)]

pub mod answers;
pub mod good_end;
pub mod whole_end;
