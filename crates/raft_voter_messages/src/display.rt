//! The text of replies.
ghost use Rattle.std.specs.Prelude.{◌≤◌, length, Some};
ghost use Rattle.std.specs.Fmt.{WritesOnOk};
ghost use Rattle.std.specs.List.{flat_map};
ghost use Rattle.hex.specs.Hex.{encode_lower};
ghost use Rattle.raft_voter_messages.specs.ReplyText.{entry_word, reply_text, spaced_entry, state_words, vote_word};

use crate::{Entry, Reply, VoterState};
use std::{fmt, str};

/// How many bytes are encoded as hex digits at once.
const CHUNK_BYTES: usize = 128;

/// Writes the reply's name and values, as `Granted 5`. A space precedes each entry.
impl fmt::Display for Reply {
    ghost output = { λ reply. Some (reply_text reply) };

    fn fmt<W: fmt::Write>(&self, f: &mut fmt::Formatter<W>) -> fmt::Result {
        match self {
            Reply::Granted(term) => write!(f, "Granted {term}"),
            Reply::Denied(term) => write!(f, "Denied {term}"),
            Reply::Matched(index) => write!(f, "Matched {index}"),
            Reply::Mismatch(index) => write!(f, "Mismatch {index}"),
            Reply::Stale(term) => write!(f, "Stale {term}"),
            Reply::Base(index) => write!(f, "Base {index}"),
            Reply::Entries(entries) => {
                f.write_str("Entries")?;
                write_entries(f, entries.as_slice())
            }
            Reply::Gone(index) => write!(f, "Gone {index}"),
            Reply::Unknown(index) => write!(f, "Unknown {index}"),
            Reply::Status(state) => write!(f, "Status {state}"),
            Reply::Retired => write!(f, "Retired"),
            Reply::Refused => write!(f, "Refused"),
        }
    }
}

/// Writes the term, the vote (`-` if there is none), the base's index and term, the last entry's index and term, and
/// the commit.
impl fmt::Display for VoterState {
    ghost output = { λ state. Some (state_words state) };

    #[tactic(auto, unfolding(crate::specs::ReplyText::state_words))]
    fn fmt<W: fmt::Write>(&self, f: &mut fmt::Formatter<W>) -> fmt::Result {
        let (term, base_index, base_term) = (self.term, self.base_index, self.base_term);
        let (last_index, last_term, commit) = (self.last_index, self.last_term, self.commit);
        write!(f, "{term} ")?;
        write_vote(f, self.vote)?;
        write!(f, " {base_index} {base_term}")?;
        write!(f, " {last_index} {last_term} {commit}")
    }
}

/// Writes the index, the term and the bytes as hex digits, as `3:2:00ff`.
impl fmt::Display for Entry {
    ghost output = { λ entry. Some (entry_word entry) };

    #[tactic(auto, unfolding(crate::specs::ReplyText::entry_word))]
    fn fmt<W: fmt::Write>(&self, f: &mut fmt::Formatter<W>) -> fmt::Result {
        let (index, term) = (self.index, self.term);
        write!(f, "{index}:{term}:")?;
        write_hex(f, self.bytes.as_slice())
    }
}

/// Writes a candidate, or `-` if there is none.
fn write_vote<W: fmt::Write>(f: &mut fmt::Formatter<W>, vote: Option<u64>) -> fmt::Result
    ensures { WritesOnOk W.write_str_gives f.old result (vote_word vote) f.new }
{
    match vote {
        None => write!(f, "-"),
        Some(candidate) => write!(f, "{candidate}"),
    }
}

/// Writes entries, each after a space.
fn write_entries<W: fmt::Write>(f: &mut fmt::Formatter<W>, entries: &[Entry]) -> fmt::Result
    ensures { WritesOnOk W.write_str_gives f.old result (flat_map spaced_entry entries.now) f.new }
{
    for entry in entries {
        write!(f, " {entry}")?;
    }
    Ok(())
}

/// Writes bytes as hex digits in lower case.
fn write_hex<W: fmt::Write>(f: &mut fmt::Formatter<W>, bytes: &[u8]) -> fmt::Result
    ensures { WritesOnOk W.write_str_gives f.old result (encode_lower bytes.now) f.new }
{
    let mut left = bytes;
    while !left.is_empty() {
        let (chunk, rest) = left.split_at(left.len().min(CHUNK_BYTES));
        write_chunk(f, chunk)?;
        left = rest;
    }
    Ok(())
}

/// Writes a few bytes as hex digits in lower case.
fn write_chunk<W: fmt::Write>(f: &mut fmt::Formatter<W>, bytes: &[u8]) -> fmt::Result
    requires { length bytes.now ≤ 128 }
    ensures { WritesOnOk W.write_str_gives f.old result (encode_lower bytes.now) f.new }
{
    let mut digits = [0u8; 2 * CHUNK_BYTES];
    let room = &mut digits[..2 * bytes.len()];
    let Ok(()) = hex::encode_to_slice(bytes, room) else {
        unreachable!();
    };
    let Ok(text) = str::from_utf8(room) else {
        unreachable!();
    };
    f.write_str(text)
}
