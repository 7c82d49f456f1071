//! Requests in words.
use raft_voter_messages::{Memory, Request};
use std::alloc::Global;

/// Returns the request to a group's voter in words, as `group 1: vote, term 5, for 2`.
///
/// Fails with `Memory` if there is no room for it.
pub fn request_words(alloc: Global, group: u64, request: &Request) -> Result<String, Memory> {
    let mut words = format!(in alloc; "group {group}: ")?;
    push_request(&mut words, request)?;
    Ok(words)
}

/// Appends a request in words.
fn push_request(words: &mut String, request: &Request) -> Result<(), Memory> {
    match request {
        Request::Vote {
            term,
            candidate,
            ..
        } => write!(words, "vote, term {term}, for {candidate}")?,
        Request::Append {
            term,
            prev_index,
            entries,
            ..
        } => push_append(words, *term, *prev_index, entries.len())?,
        Request::Compact { index } => write!(words, "compact up to {index}")?,
        Request::Install { term, index, .. } => {
            write!(words, "install, term {term}, up to {index}")?
        }
        Request::Read { from, to } => write!(words, "read from {from} to below {to}")?,
        Request::Status => words.push_str("status")?,
        Request::Retire => words.push_str("retire")?,
    }
    Ok(())
}

/// Appends an Append in words: this many entries after an index.
fn push_append(words: &mut String, term: u64, prev_index: u64, count: usize) -> Result<(), Memory> {
    let noun = if count == 1 { "entry" } else { "entries" };
    write!(
        words,
        "append, term {term}, {count} {noun} after {prev_index}"
    )?;
    Ok(())
}
