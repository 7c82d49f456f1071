//! A log that no engine has open is copied file by file (`fork`), checked for holes in its entries
//! (`consistency_check_with_file_system`), or its items are listed (`dump_with_file_system`). A fork and a dump
//! change nothing that was there; a check truncates damaged files if its settings tolerate damage.
#![tactic(auto)]

pub mod checker;
pub mod checking;
pub mod choosing;
pub mod copying;
pub mod directory;
pub mod dump;
pub mod forking;
pub mod group_runs;
pub mod laws;
pub mod permission;
pub mod source_file;

pub use checker::{ConsistencyChecker, ConsistencyCheckerFactory, Finding};
pub use checking::{check_log, check_log_in_turn};
pub use copying::copy_file;
pub use directory::consistency_check_with_file_system;
pub use dump::dump_with_file_system;
pub use forking::{CopyDetails, fork};
pub use group_runs::GroupRuns;
pub use source_file::SourceFile;
