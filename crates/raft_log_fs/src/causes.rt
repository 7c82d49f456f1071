//! Laws of the causes of failures.

ghost use Rattle.std.specs.Prelude.{ℕ};
ghost use Rattle.std.specs.declared.io.ErrorKind.{ErrorKind};
ghost use Rattle.raft_log_fs.specs.Disk.{Disk};
ghost use Rattle.raft_log_fs.specs.Laws.{UndisturbedHasNoCause, OtherFilesAreNoCause, CountedRefusalTellsItsKind, CountedRefusalHasOneKind, StopIsNoWantOfMemory};

/// Defines which files a call asks for.
pub trait FilesInQuestion {
    ghost asks_for: { ℕ → Type 0 };
}

/// A failed call has no cause if the disk runs, every place is readable, and no failure was counted during the call.
pub fn undisturbed_disk_has_no_cause<Q: FilesInQuestion>()
    ensures { UndisturbedHasNoCause Q.asks_for }
{}

/// An unreadable place of a file that the call doesn't ask for is no cause. If all places of its files are readable, a
/// failure was counted or the file system has stopped.
pub fn other_files_are_no_cause<Q: FilesInQuestion>()
    ensures { OtherFilesAreNoCause Q.asks_for }
{}

/// Defines which errors mean a wrong argument of a call, and what the call does if it is done whole or not at all.
pub trait Refusing {
    ghost wrong: { ErrorKind → Type 0 };

    ghost done: { Disk → Type 0 };
}

/// If a call with right arguments fails and the file system still runs, the failure was counted. The kind that the call
/// returned is kept with it.
pub fn a_counted_refusal_tells_its_kind<C: Refusing>()
    ensures { CountedRefusalTellsItsKind C.wrong C.done }
{}

/// Such a call has one error: the disks before and after it determine the kind.
pub fn a_counted_refusal_has_one_kind<C: Refusing>()
    ensures { CountedRefusalHasOneKind C.wrong C.done }
{}

/// If the file system has stopped after a failed changing call, the error isn't `OutOfMemory`.
pub fn a_stop_is_no_want_of_memory<C: Refusing>()
    ensures { StopIsNoWantOfMemory C.wrong C.done }
{}
