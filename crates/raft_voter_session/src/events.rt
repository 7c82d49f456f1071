//! Events that a single line encodes.
ghost use Rattle.std.specs.Prelude.{◌≡◌, IfOk};
ghost use Rattle.std.specs.Option.{option_map};
ghost use Rattle.raft_voter_session.specs.Told.{told};
ghost use Rattle.raft_voter_session.specs.Words.{count_at};
ghost use Rattle.raft_voter_session.specs.Events.{crash_at, event_at, event_of, fork_at, left_at, open_at, refuse_at, stop_at};

use crate::words::{end_of_word, read_text, split_number, split_word};
use raft_voter_messages::Memory;
use raft_voter_world::{Event, Left};
use std::alloc::Global;

/// Returns a number that is at least 1, and the text after it.
#[tactic(auto, unfolding(crate::specs::Words::count_at))]
fn split_count(text: &[u8]) -> Option<(u64, &[u8])>
    ensures { option_map (λ field. (field.0, field.1.now)) result ≡ count_at text.now }
{
    let (count, rest) = split_number(text)?;
    if count == 0 {
        return None;
    }
    Some((count, rest))
}

/// `open W`, with at least one worker.
#[tactic(auto, unfolding(crate::specs::Events::open_at))]
fn read_open(text: &[u8]) -> Option<Event>
    ensures { option_map told result ≡ open_at text.now }
{
    let (workers, rest) = split_count(text)?;
    if !rest.is_empty() {
        return None;
    }
    Some(Event::Open { workers })
}

/// What a crash leaves: `last`, `all` or `first P B`.
#[tactic(auto, unfolding(crate::specs::Events::left_at))]
fn read_left(text: &[u8]) -> Option<Left>
    ensures { result ≡ left_at text.now }
{
    if text == b" last".as_slice() {
        return Some(Left::Last);
    }
    if text == b" all".as_slice() {
        return Some(Left::All);
    }
    let (word, text) = split_word(text)?;
    if word != b"first".as_slice() {
        return None;
    }
    let (pieces, text) = split_number(text)?;
    let (bytes, rest) = split_number(text)?;
    if !rest.is_empty() {
        return None;
    }
    Some(Left::First { pieces, bytes })
}

/// `crash R`, with what it leaves.
#[tactic(auto, unfolding(crate::specs::Events::crash_at))]
fn read_crash(text: &[u8]) -> Option<Event>
    ensures { option_map told result ≡ crash_at text.now }
{
    let left = read_left(text)?;
    Some(Event::Crash { left })
}

/// `crash-at N R`, with the number of a call that changes files, and what the crash leaves.
#[tactic(auto, unfolding(crate::specs::Events::stop_at))]
fn read_stop(text: &[u8]) -> Option<Event>
    ensures { option_map told result ≡ stop_at text.now }
{
    let (calls, text) = split_count(text)?;
    let left = read_left(text)?;
    Some(Event::CrashAt { calls, left })
}

/// `refuse N`, with the number of a call that changes files.
#[tactic(auto, unfolding(crate::specs::Events::refuse_at))]
fn read_refuse(text: &[u8]) -> Option<Event>
    ensures { option_map told result ≡ refuse_at text.now }
{
    let (calls, rest) = split_count(text)?;
    if !rest.is_empty() {
        return None;
    }
    Some(Event::Refuse { calls })
}

/// `fork NAME`, with a directory's name, which is one word.
#[tactic(auto, unfolding(crate::specs::Events::fork_at))]
fn read_fork(alloc: Global, text: &[u8]) -> Result<Option<Event>, Memory>
    ensures { IfOk result (λ event. option_map told event ≡ fork_at text.now) }
{
    let Some((word, rest)) = split_word(text) else {
        return Ok(None);
    };
    if word.is_empty() || !rest.is_empty() {
        return Ok(None);
    }
    let Some(name) = read_text(word) else {
        return Ok(None);
    };
    let target = String::from_str(alloc, name)?;
    Ok(Some(Event::Fork { target }))
}

/// Reads an event from the first word of its line and the rest of it.
#[tactic(auto, unfolding(crate::specs::Events::event_at))]
fn read_words(alloc: Global, word: &[u8], text: &[u8]) -> Result<Option<Event>, Memory>
    ensures { IfOk result (λ event. option_map told event ≡ event_at word.now text.now) }
{
    if word == b"open".as_slice() {
        return Ok(read_open(text));
    }
    if word == b"crash".as_slice() {
        return Ok(read_crash(text));
    }
    if word == b"crash-at".as_slice() {
        return Ok(read_stop(text));
    }
    if word == b"refuse".as_slice() {
        return Ok(read_refuse(text));
    }
    if word == b"fork".as_slice() {
        return read_fork(alloc, text);
    }
    Ok(None)
}

/// Returns the event that a line encodes, without its line feed; `None` if it encodes none.
#[tactic(auto, unfolding(crate::specs::Events::event_of))]
pub fn read_event(alloc: Global, line: &[u8]) -> Result<Option<Event>, Memory>
    ensures { IfOk result (λ event. option_map told event ≡ event_of line.now) }
{
    if line == b"close".as_slice() {
        return Ok(Some(Event::Close));
    }
    if line == b"purge".as_slice() {
        return Ok(Some(Event::Maintain));
    }
    if line == b"rewrite-append".as_slice() {
        return Ok(Some(Event::RewriteAppend));
    }
    if line == b"rewrite-rewrite".as_slice() {
        return Ok(Some(Event::RewriteRewrite));
    }
    let (word, text) = line.split_at(end_of_word(line));
    read_words(alloc, word, text)
}
