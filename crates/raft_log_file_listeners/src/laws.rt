//! Which files of Append the engine's own hook pins. Only `purge_expired_files` obeys pins.

ghost use Rattle.raft_log_file_listeners.specs.Active.{MissingFilesAreHeld, WaitingFilesAreHeld};
ghost use Rattle.raft_log_file_listeners.specs.Hearing.{WritesHoldNothingBack, WrittenFilesAreHeld};

use crate::purge_hook::PurgeHook;
use crate::told_pipes::ToldPipes;
use raft_log_dual_pipes::PipeLog;

/// If a listed file has a record that waits for the tables, the hook pins from that file on, or from an earlier one.
pub fn waiting_files_are_held()
    ensures { WaitingFilesAreHeld }
{}

/// If a file couldn't be listed, the hook pins from that file on, or from an earlier one.
pub fn missing_files_are_held()
    ensures { MissingFilesAreHeld }
{}

/// After a write whose record is in the tables, the hook of any pipes pins what it pinned before: it counted the record
/// up and down again. If a file that the write began couldn't be listed, the hook may pin more.
pub fn writes_hold_nothing_back<P: PipeLog>()
    ensures { WritesHoldNothingBack ⟦<ToldPipes<P, PurgeHook> as PipeLog>⟧.hears (λ listeners. listeners.1) }
{}

/// Right after a record was written to a listed file, the hook of any pipes pins from that file on, or from an earlier
/// one.
pub fn written_files_are_held<P: PipeLog>()
    ensures { WrittenFilesAreHeld ⟦<ToldPipes<P, PurgeHook> as PipeLog>⟧.hears (λ listeners. listeners.1) }
{}
