//! The cause that an open, a purge or a copy returns for an error of the log.
ghost use Rattle.std.specs.Prelude.{◌≡◌};
ghost use Rattle.raft_voter_log.specs.Causes.{cause_of, purge_cause, unread_cause};

use raft_log_engine::Error;
use raft_voter::Cause;
use raft_voter_recovery::Unread;

/// The cause of a failed open, or of a failed read of its voters: `Memory` if memory ran out, else
/// `FileSystem`. This is also the cause if a group stores no voter.
pub fn unread_cause(cause: &Unread) -> Cause
    ensures { result ≡ unread_cause cause.now }
{
    match cause {
        Unread::Engine(error) => cause_of(error),
        Unread::Foreign(_) => Cause::FileSystem,
        Unread::Memory => Cause::Memory,
    }
}

/// The cause of a failed purge: `Failed` if the store had failed before, `Memory` if memory ran
/// out, else `FileSystem`.
pub fn purge_cause(failed: bool, error: &Error) -> Cause
    ensures { result ≡ purge_cause failed error.now }
{
    if failed {
        return Cause::Failed;
    }
    cause_of(error)
}

/// `Memory` if memory ran out, else `FileSystem`.
pub(crate) fn cause_of(error: &Error) -> Cause
    ensures { result ≡ cause_of error.now }
{
    match error {
        Error::Memory => Cause::Memory,
        _ => Cause::FileSystem,
    }
}
