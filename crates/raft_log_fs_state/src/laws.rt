//! Laws of a storage in memory.
ghost use Rattle.raft_log_fs_state.specs.Storage.{OrderIsTheFiles};

/// The list of all files' unsynced changes, in the order of the calls, has for each file exactly its own changes, in
/// its order. If only part of a write or growth was made, the list has that part.
pub fn order_has_each_files_changes()
    ensures { OrderIsTheFiles }
{}
