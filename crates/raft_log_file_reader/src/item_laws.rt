//! Laws of a reader of items.
ghost use Rattle.raft_log_file_reader.specs.ItemLaws.{CallsGiveAll};

use raft_log_fs::FileSystem;

/// Called until it returns nothing, a reader of items returns all that it had still to return of
/// its files.
pub fn calls_give_all<F: FileSystem>()
    ensures { CallsGiveAll F.disk }
{}
