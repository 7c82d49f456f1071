//! A caller of `raft_log_file_listeners`: finds up to which file a queue may be purged.

ghost use Rattle.std.specs.Prelude.{◌≤◌};

use raft_log_file_listeners::{EventListener, Listeners};
use raft_log_record_base::{FileSeq, LogQueue};

/// The number up to which the files of a queue may be purged: `end`, or the first that a listener pins if that is
/// lower.
pub fn purge_end<H: EventListener>(
    listeners: &Listeners<H>,
    queue: LogQueue,
    end: FileSeq,
) -> FileSeq
    ensures { result ≤ end }
{
    match listeners.first_file_not_ready_for_purge(queue) {
        Some(first) => first.min(end),
        None => end,
    }
}
