//! Why reading voters fails.
ghost use Rattle.std.specs.Prelude.{◌≡◌};
ghost use Rattle.raft_voter_recovery.specs.Reading.{cause_of};

use raft_log_record_base::Error as Refusal;
use thiserror::Error;

/// Why reading the voters of a log fails.
#[derive(Debug, Drop, Error)]
pub enum Unread {
    /// The engine failed a read: it has failed, or didn't read a block of entries.
    #[error("a read failed: {0}")]
    Engine(Refusal),
    /// The contents of this group aren't a voter.
    #[error("group {0} holds no voter")]
    Foreign(u64),
    /// Out of memory.
    #[error("out of memory")]
    Memory,
}

impl Unread {
    /// The cause for a read that the engine failed; out of memory has its own.
    pub fn from_refusal(refusal: Refusal) -> Unread
        ensures { result ≡ cause_of refusal }
    {
        match refusal {
            Refusal::Memory => Unread::Memory,
            refusal => Unread::Engine(refusal),
        }
    }
}
