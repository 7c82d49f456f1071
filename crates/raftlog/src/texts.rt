//! Texts of sessions, one after another.
ghost use Rattle.std.specs.Prelude.{◌≡◌, ◌<◌, ◌≤◌, false, IfOk, IfSome, IsTrue, length, string_bytes};
ghost use Rattle.raftlog.specs.Playing.{AreTranscripts, IsSomeTranscript};

use crate::playing::play;
use log::Log;
use raft_log_engine::{Error, LogBatch, Remainder};
use raft_log_session::{Session, SessionFault, read_session};
use raft_log_world::LogFiles;
use raft_log_world_engine::{ClosedLog, OpenLog};
use std::alloc::{AllocError, Global};
use std::thread::Threads;

/// The line between two sessions, and between two transcripts.
const BETWEEN: &str = "---\n";

/// Plays the sessions of a text, one after another. Returns their transcripts, with a line `---` between two, and
/// whether each verdict is yes. In place of a session that can't be played it returns a line that says why, and the
/// result is false. Fails only for lack of memory.
pub fn answer_all<R: Threads + Log + Sync>(
    rt: &R,
    alloc: Global,
    text: &[u8],
) -> Result<(String, bool), AllocError>
    ensures { IfOk result (λ told. IsTrue told.1 → AreTranscripts
        ⟦<ClosedLog as LogFiles<R, OpenLog, LogBatch, Remainder>>⟧.log (string_bytes told.0)) }
{
    let mut told = String::new(alloc);
    let mut good = true;
    let mut left = text;
    while let Some((session, rest)) = split_session(left) {
        let (lines, yes) = answer(rt, alloc, session)?;
        told.push_str(lines.as_str())?;
        told.push_str(BETWEEN)?;
        good = good && yes;
        left = rest;
    }
    let (lines, yes) = answer(rt, alloc, left)?;
    told.push_str(lines.as_str())?;
    Ok((told, good && yes))
}

/// Returns the text before the first line that parts sessions, and the text after it; `None` if there is none.
fn split_session(text: &[u8]) -> Option<(&[u8], &[u8])>
    ensures { IfSome result (λ parts. length parts.1.now < length text.now) }
{
    let mut at = 0;
    while at < text.len() {
        let rest = &text[at..];
        if let Some(later) = rest.strip_prefix(BETWEEN.as_bytes()) {
            return Some((&text[..at], later));
        }
        at += line_len(rest);
    }
    None
}

/// The length of the first line, with its line feed; at least 1 if there is any text.
fn line_len(text: &[u8]) -> usize
    ensures within { result ≤ length text.now }
    ensures some { 0 < length text.now → 0 < result }
{
    for (i, b) in text.iter().enumerate() {
        if *b == b'\n' {
            return i + 1;
        }
    }
    text.len()
}

/// Plays the session of a text. Returns its transcript, and whether the verdict is yes. If the text is no session, or
/// the log rejects its settings or a batch, returns a line that says so, and false.
fn answer<R: Threads + Log + Sync>(
    rt: &R,
    alloc: Global,
    text: &[u8],
) -> Result<(String, bool), AllocError>
    ensures { IfOk result (λ told. IsTrue told.1 → IsSomeTranscript
        ⟦<ClosedLog as LogFiles<R, OpenLog, LogBatch, Remainder>>⟧.log (string_bytes told.0) told.1) }
{
    let Session { mut config, events } = match read_session(alloc, text) {
        Ok(session) => session,
        Err(SessionFault::Memory) => return Err(AllocError),
        Err(fault) => return Ok((format!(in alloc; "{fault}\n")?, false)),
    };
    if let Err(error) = config.sanitize(rt, alloc) {
        return refused(alloc, error);
    }
    match play(rt, alloc, config, events.as_slice()) {
        Ok(played) => Ok(played),
        Err(error) => refused(alloc, error),
    }
}

/// The line for an error.
fn refused(alloc: Global, error: Error) -> Result<(String, bool), AllocError>
    ensures { IfOk result (λ told. told.1 ≡ false) }
{
    match error {
        Error::Memory => Err(AllocError),
        error => Ok((format!(in alloc; "{error}\n")?, false)),
    }
}
