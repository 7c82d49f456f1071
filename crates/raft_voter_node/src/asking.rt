//! Reads what a node is to do, line by line.
use raft_voter_session::read_session;
use raft_voter_world::Event;
use std::alloc::Global;
use std::io;
use std::io::BufRead;

/// The line with which a round begins.
const ROUND: &[u8] = b"round\n";

/// The line at the end of a round.
const END: &[u8] = b"end\n";

/// What lines of input request.
#[derive(Drop)]
pub enum Asked {
    /// An event.
    Event(Event),
    /// Lines that are no event of a session, or that couldn't be read for lack of memory.
    Unreadable,
    /// Nothing more: the input has ended.
    End,
}

/// Reads what the next lines request: one line, or those of a round up to its end. Fails as the input does.
pub fn read_asked<I: BufRead>(alloc: Global, input: &mut I) -> io::Result<Asked> {
    let lines = read_lines(alloc, input)?;
    if lines.is_empty() {
        return Ok(Asked::End);
    }
    let Ok(session) = read_session(alloc, lines.as_slice()) else {
        return Ok(Asked::Unreadable);
    };
    let mut events = session.events;
    match events.pop_front() {
        Some(event) if session.settings.is_none() => Ok(Asked::Event(event)),
        _ => Ok(Asked::Unreadable),
    }
}

/// The next line; if it begins a round, all lines up to the round's end.
fn read_lines<I: BufRead>(alloc: Global, input: &mut I) -> io::Result<Vec<u8>> {
    let mut lines = Vec::new(alloc);
    for _ in 0..u64::MAX {
        let begin = lines.len();
        let count = input.read_until(b'\n', &mut lines)?;
        let line = &lines[begin..];
        if count == 0 || line == END || (begin == 0 && line != ROUND) {
            break;
        }
    }
    Ok(lines)
}
