//! The program: runs a session's events over a store of voters on a log, and writes the replies with a verdict on them.
//!
//! The log is in a file system in memory that fails, stops and crashes as the session says. `start` is the whole
//! program except for its exit. With arguments it keeps a session's log in a real directory (`save`), lists the voters
//! of a log in one (`load`), or prints its usage.
#![tactic(auto)]

mod arguments;
mod listing;
mod loading;
mod over_store;
mod running;
mod saving;
mod setup;
mod store_setup;
mod writing;

pub use arguments::{Arguments, USAGE};
pub use listing::list_voters;
pub use loading::load;
pub use over_store::{
    Ended, exit_status, has_arguments, program_over, run_bytes, run_bytes_leaving, run_leaving,
    run_over,
};
pub use raft_voter_log;
pub use running::{carry_out, program, run, start};
pub use saving::{kept_files, save};
pub use setup::LogSetup;
pub use store_setup::{NoFiles, StoreSetup};
pub use writing::write_whole;
