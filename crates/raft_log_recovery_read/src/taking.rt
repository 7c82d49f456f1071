//! A machine is handed the records of a file, one after another.

ghost use Rattle.std.specs.Prelude.{List, ◌++◌, ◌∷◌, []};
ghost use Rattle.raft_log_record_items.specs.declared.item.LogItem.{LogItem};
ghost use Rattle.raft_log_recovery_read.specs.Batches.{HasTaken, said};
ghost use Rattle.raft_log_recovery_read.specs.Behind.{with_noted};

use crate::behind::LastRecord;
use raft_log_record_base::{Error, FileId};
use raft_log_record_items::LogItem;
use raft_log_replay::ReplayMachine;

/// Hands a machine the items of a record, unless it declined one before. Returns the error with which it declined.
pub(crate) fn take<M: ReplayMachine>(
    machine: &mut M,
    id: FileId,
    items: Vec<LogItem>,
    declined: Option<Error>,
) -> Option<Error>
    ensures { (start : M) (before : List (List LogItem))
        → HasTaken (M.reads id.queue) (M.declines id.queue) (said id before) start machine.old declined
        → HasTaken (M.reads id.queue) (M.declines id.queue) (said id (before ++ items.items ∷ [])) start
        machine.new result }
{
    match declined {
        Some(error) => Some(error),
        None => match machine.replay(items, id) {
            Ok(()) => None,
            Err(error) => Some(error),
        },
    }
}

/// Hands a machine the noted record, if there is one.
pub(crate) fn take_noted<M: ReplayMachine>(
    machine: &mut M,
    id: FileId,
    noted: Option<LastRecord>,
    declined: Option<Error>,
) -> Option<Error>
    ensures { (start : M) (before : List (List LogItem))
        → HasTaken (M.reads id.queue) (M.declines id.queue) (said id before) start machine.old declined
        → HasTaken (M.reads id.queue) (M.declines id.queue) (said id (with_noted before noted)) start
        machine.new result }
{
    match noted {
        Some(record) => take(machine, id, record.items, declined),
        None => declined,
    }
}
