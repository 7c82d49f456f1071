//! The lines of requests to a voter.
ghost use Rattle.std.specs.Prelude.{◌≡◌, IfOk};
ghost use Rattle.std.specs.Option.{option_map};
ghost use Rattle.raft_voter_session.specs.Words.{ends};
ghost use Rattle.raft_voter_session.specs.Requests.{append_at, commit_at, compact_at, entries_at, entry_of, has_plain_word, install_at, read_at, request_at, request_of, retire_at, status_at, vote_at};

use crate::words::{end_of_word, read_data, read_number, split_at_byte, split_number, split_word};
use raft_voter_messages::{Items, Memory, Request};
use std::alloc::Global;

/// Returns the request, if its line has no more text.
fn at_end(text: &[u8], asked: (u64, Request)) -> Option<(u64, Request)>
    ensures { result ≡ ends text.now asked }
{
    if text.is_empty() { Some(asked) } else { None }
}

/// `vote G T C I U`: group, term, candidate, last index and last term.
#[tactic(auto, unfolding(crate::specs::Requests::vote_at))]
fn vote(text: &[u8]) -> Option<(u64, Request)>
    ensures { result ≡ vote_at text.now }
{
    let (group, text) = split_number(text)?;
    let (term, text) = split_number(text)?;
    let (candidate, text) = split_number(text)?;
    let (last_index, text) = split_number(text)?;
    let (last_term, text) = split_number(text)?;
    let request = Request::Vote {
        term,
        candidate,
        last_index,
        last_term,
    };
    at_end(text, (group, request))
}

/// `compact G I`: group and index.
#[tactic(auto, unfolding(crate::specs::Requests::compact_at))]
fn compact(text: &[u8]) -> Option<(u64, Request)>
    ensures { result ≡ compact_at text.now }
{
    let (group, text) = split_number(text)?;
    let (index, text) = split_number(text)?;
    at_end(text, (group, Request::Compact { index }))
}

/// `install G T I U`: group, term, index and the term of the entry there.
#[tactic(auto, unfolding(crate::specs::Requests::install_at))]
fn install(text: &[u8]) -> Option<(u64, Request)>
    ensures { result ≡ install_at text.now }
{
    let (group, text) = split_number(text)?;
    let (term, text) = split_number(text)?;
    let (index, text) = split_number(text)?;
    let (entry_term, text) = split_number(text)?;
    let request = Request::Install {
        term,
        index,
        entry_term,
    };
    at_end(text, (group, request))
}

/// `read G A B`: group, first index, and the index after the last.
#[tactic(auto, unfolding(crate::specs::Requests::read_at))]
fn read(text: &[u8]) -> Option<(u64, Request)>
    ensures { result ≡ read_at text.now }
{
    let (group, text) = split_number(text)?;
    let (from, text) = split_number(text)?;
    let (to, text) = split_number(text)?;
    at_end(text, (group, Request::Read { from, to }))
}

/// `status G`.
#[tactic(auto, unfolding(crate::specs::Requests::status_at))]
fn status(text: &[u8]) -> Option<(u64, Request)>
    ensures { result ≡ status_at text.now }
{
    let (group, text) = split_number(text)?;
    at_end(text, (group, Request::Status))
}

/// `retire G`.
#[tactic(auto, unfolding(crate::specs::Requests::retire_at))]
fn retire(text: &[u8]) -> Option<(u64, Request)>
    ensures { result ≡ retire_at text.now }
{
    let (group, text) = split_number(text)?;
    at_end(text, (group, Request::Retire))
}

/// `term:hex`, an entry's term and its bytes.
#[tactic(auto, unfolding(crate::specs::Requests::entry_of))]
fn read_entry(alloc: Global, word: &[u8]) -> Result<Option<(u64, Items<u8>)>, Memory>
    ensures { IfOk result (λ entry. entry ≡ entry_of word.now) }
{
    let Some((term, digits)) = split_at_byte(word, b':') else {
        return Ok(None);
    };
    let Some(term) = read_number(term) else {
        return Ok(None);
    };
    let Some(bytes) = read_data(alloc, digits)? else {
        return Ok(None);
    };
    Ok(Some((term, bytes)))
}

/// Returns the entries that the words of a text encode.
#[tactic(auto, unfolding(crate::specs::Requests::entries_at))]
fn read_entries(alloc: Global, text: &[u8]) -> Result<Option<Items<(u64, Items<u8>)>>, Memory>
    ensures { IfOk result (λ entries. entries ≡ entries_at text.now) }
{
    let mut entries = Items::new(alloc);
    let mut left = text;
    while let Some((word, rest)) = split_word(left) {
        let Some(entry) = read_entry(alloc, word)? else {
            return Ok(None);
        };
        entries.push(entry)?;
        left = rest;
    }
    if !left.is_empty() {
        return Ok(None);
    }
    Ok(Some(entries))
}

/// Whether there is a next word that isn't an entry, because it has no colon.
fn has_plain_word(text: &[u8]) -> bool
    ensures { result ≡ has_plain_word text.now }
{
    match split_word(text) {
        Some((word, _)) => !word.contains(&b':'),
        None => false,
    }
}

/// Returns the commit and the text after it. The commit is the next word if that has no colon; otherwise it was
/// omitted, and is 0.
#[tactic(auto, unfolding(crate::specs::Requests::commit_at))]
fn split_commit(text: &[u8]) -> Option<(u64, &[u8])>
    ensures { option_map (λ field. (field.0, field.1.now)) result ≡ commit_at text.now }
{
    if !has_plain_word(text) {
        return Some((0, text));
    }
    split_number(text)
}

/// `append G T P U C E..`: group, term, index and term right before the entries, the commit, which is optional, and the
/// entries.
#[tactic(auto, unfolding(crate::specs::Requests::append_at))]
fn append(alloc: Global, text: &[u8]) -> Result<Option<(u64, Request)>, Memory>
    ensures { IfOk result (λ asked. asked ≡ append_at text.now) }
{
    let Some((group, text)) = split_number(text) else {
        return Ok(None);
    };
    let Some((term, text)) = split_number(text) else {
        return Ok(None);
    };
    let Some((prev_index, text)) = split_number(text) else {
        return Ok(None);
    };
    let Some((prev_term, text)) = split_number(text) else {
        return Ok(None);
    };
    let Some((commit, text)) = split_commit(text) else {
        return Ok(None);
    };
    let Some(entries) = read_entries(alloc, text)? else {
        return Ok(None);
    };
    let request = Request::Append {
        term,
        prev_index,
        prev_term,
        commit,
        entries,
    };
    Ok(Some((group, request)))
}

/// Reads a request from the first word of its line and the rest of it.
#[tactic(auto, unfolding(crate::specs::Requests::request_at))]
fn read_words(alloc: Global, word: &[u8], text: &[u8]) -> Result<Option<(u64, Request)>, Memory>
    ensures { IfOk result (λ asked. asked ≡ request_at word.now text.now) }
{
    if word == b"append".as_slice() {
        return append(alloc, text);
    }
    if word == b"vote".as_slice() {
        return Ok(vote(text));
    }
    if word == b"compact".as_slice() {
        return Ok(compact(text));
    }
    if word == b"install".as_slice() {
        return Ok(install(text));
    }
    if word == b"read".as_slice() {
        return Ok(read(text));
    }
    if word == b"status".as_slice() {
        return Ok(status(text));
    }
    if word == b"retire".as_slice() {
        return Ok(retire(text));
    }
    Ok(None)
}

/// Returns the request that a line encodes, without its line feed, with its group; `None` if it encodes none.
pub fn read_request(alloc: Global, line: &[u8]) -> Result<Option<(u64, Request)>, Memory>
    ensures { IfOk result (λ asked. asked ≡ request_of line.now) }
{
    let (word, text) = line.split_at(end_of_word(line));
    read_words(alloc, word, text)
}
