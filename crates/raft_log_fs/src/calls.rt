//! Laws of the disk after a call.

ghost use Rattle.raft_log_fs.specs.Laws.{CallsKeepSound};

/// If a disk is sound, it is sound after a changing call, whether that is done in whole or in part.
/// A write or a growth must end below 2^63.
pub fn calls_keep_a_disk_sound()
    ensures { CallsKeepSound }
{}
