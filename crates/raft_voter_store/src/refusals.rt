//! The refusals of a round, each with its cause.
ghost use Rattle.std.specs.Prelude.{◌≡◌, ◌+◌, ◌<◌, ◌≤◌, ◌++◌, ◌∷◌, [], vec_capacity, vec_len};
ghost use Rattle.raft_voter_store.specs.Refusals.{told_refusal};

use raft_log_engine::Error;
use raft_voter_messages::Reply;

/// A request of a round that was refused.
#[derive(Debug, Drop)]
pub struct Refusal {
    /// The position of the request in the round.
    pub place: usize,
    /// Why it was refused.
    pub cause: RefusalCause,
}

/// Why a request of a round was refused.
#[derive(Debug, Drop)]
pub enum RefusalCause {
    /// The request is out of range.
    OutOfRange,
    /// The request was rejected with this error: its record couldn't be written, the entries that it asks for couldn't
    /// be read, or memory ran out.
    Rejected(Error),
}

/// Notes that the request at this position was refused for this cause. Notes nothing if there is no room.
pub fn note(refusals: &mut Vec<Refusal>, place: usize, cause: RefusalCause)
    ensures noted { vec_len refusals.old < vec_capacity refusals.old
        → refusals.new.items ≡ refusals.old.items ++ record { place = place; cause = cause } ∷ [] }
    ensures len { vec_len refusals.new ≤ vec_len refusals.old + 1 }
    ensures room { vec_capacity refusals.old ≤ vec_capacity refusals.new }
{
    if refusals.len() < refusals.capacity() {
        refusals.push_reserved(Refusal { place, cause });
    }
}

/// Notes that the request at this position is out of range, if its reply is `Refused`. Without room, notes nothing.
pub fn note_told(refusals: &mut Vec<Refusal>, place: usize, reply: &Reply)
    ensures noted { vec_len refusals.old < vec_capacity refusals.old
        → refusals.new.items ≡ refusals.old.items ++ told_refusal place reply.now }
    ensures len { vec_len refusals.new ≤ vec_len refusals.old + 1 }
    ensures room { vec_capacity refusals.old ≤ vec_capacity refusals.new }
{
    match reply {
        Reply::Refused => note(refusals, place, RefusalCause::OutOfRange),
        _ => {}
    }
}
