//! A whole session.
ghost use Rattle.std.specs.Prelude.{◌≡◌, Ok, IfOk, IfErr, take};
ghost use Rattle.raft_voter_session.specs.Told.{said};
ghost use Rattle.raft_voter_session.specs.Session.{session_of};
ghost use Rattle.raft_voter_session.specs.Fault.{TellsLineFault};

use crate::reading::Reading;
use crate::words::split_at_byte;
use raft_voter_messages::Memory;
use raft_voter_world::Event;
use std::alloc::Global;
use std::collections::VecDeque;
use thiserror::Error;

/// The most bytes of a session.
const MOST_SESSION_BYTES: usize = 268_435_456;

/// A session: its settings and its events.
#[derive(Drop)]
pub struct Session {
    /// The text of the settings, lines of TOML; `None` if there are none.
    pub settings: Option<String>,
    /// The events, in order.
    pub events: VecDeque<Event>,
}

/// Why a session couldn't be read.
#[derive(Clone, Copy, Debug, PartialEq, Eq, Error)]
pub enum SessionFault {
    /// The line of this number, counted from 1, is the first that is unreadable.
    #[error("line {0}: unreadable")]
    Unreadable(usize),
    /// An allocation failed.
    #[error("out of memory")]
    Memory,
}

impl From<Memory> for SessionFault {
    ghost use Rattle.raft_voter_session.specs.declared.session.SessionFault.TheVariants.{Memory as OutOfMemory};

    ghost from_gives = { λ _ fault. fault ≡ OutOfMemory };

    fn from(_refused: Memory) -> SessionFault {
        SessionFault::Memory
    }
}

/// Returns the first bytes, at most `most`.
fn front(bytes: &[u8], most: usize) -> &[u8]
    ensures { result.now ≡ take most bytes.now }
{
    if bytes.len() <= most {
        return bytes;
    }
    &bytes[..most]
}

/// Reads the session that these bytes encode. Fails with `Unreadable` and the number of the first unreadable line, or
/// with `Memory`. Unreadable are also:
/// - a line of more than 4 MiB
/// - the last line, if it has no line feed
/// - the line after the last one, if the settings or a round have no end
/// - the line in which a session has more than 256 MiB
#[tactic(auto, unfolding(crate::specs::Session::session_of))]
pub fn read_session(alloc: Global, input: &[u8]) -> Result<Session, SessionFault>
    ensures ok { IfOk result (λ session. session_of input.now ≡ Ok (said session)) }
    ensures err { IfErr result (TellsLineFault (session_of input.now)) }
{
    let is_whole = input.len() <= MOST_SESSION_BYTES;
    let mut left = front(input, MOST_SESSION_BYTES);
    let mut number = 1;
    let mut reading = Reading::new(alloc);
    while let Some((line, rest)) = split_at_byte(left, b'\n') {
        let Some(next) = reading.after(alloc, line)? else {
            return Err(SessionFault::Unreadable(number));
        };
        reading = next;
        left = rest;
        number += 1;
    }
    reading.finish(is_whole, left, number)
}
