//! What a crash may leave of a file after a change of it was undone.
ghost use Rattle.raft_log_fs_traced.specs.Undoing.{UndoneIsAsCut};

/// After a change that was undone, a crash may leave what it may leave after the change and a truncation to the old
/// length.
pub fn an_undone_change_is_as_a_cut_one()
    ensures { UndoneIsAsCut }
{}
