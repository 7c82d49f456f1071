//! The words of a line.
ghost use Rattle.std.specs.Prelude.{◌≡◌, ◌↔◌, ◌==◌, ◌≤◌, ◌<◌, ℕ, List, Some, length, IfOk, IfSome, MatchOption, unwrap_or};
ghost use Rattle.std.specs.List.{after_first, before_first, position_or_len};
ghost use Rattle.std.specs.Option.{option_map};
ghost use Rattle.raft_log_session.specs.Words.{argument_at, BeginsWithNumber, IsNumberWord, parts_words};

use crate::bytes::{read_bytes, read_list};
use crate::session::Unread;
use raft_lists::{Bytes, Items};
use std::alloc::Global;

/// Returns the position of the first space, or the length if there is none.
pub fn end_of_word(text: &[u8]) -> usize
    ensures value { result ≡ position_or_len parts_words text.now }
    ensures within { result ≤ length text.now }
{
    let mut end = 0;
    for b in text {
        if *b == b' ' {
            return end;
        }
        end += 1;
    }
    end
}

/// Returns the parts of a text before and after the first of these bytes; `None` if it has none.
pub fn split_at_byte(text: &[u8], byte: u8) -> Option<(&[u8], &[u8])>
    ensures parts { MatchOption result (length text.now ≤ position_or_len (λ b. b == byte) text.now)
        (λ parts. (position_or_len (λ b. b == byte) text.now < length text.now)
        × (parts.0.now ≡ before_first (λ b. b == byte) text.now)
        × (parts.1.now ≡ after_first (λ b. b == byte) text.now)) }
    ensures shorter { IfSome result (λ parts. length parts.1.now < length text.now) }
{
    for (i, b) in text.iter().enumerate() {
        if *b == byte {
            return Some((&text[..i], &text[i + 1..]));
        }
    }
    None
}

/// Returns the number that a word is in decimal, perhaps after a plus sign; `None` if it is none below 2^64.
pub fn read_number(word: &[u8]) -> Option<u64>
    ensures { (n : ℕ) → (result ≡ Some n) ↔ IsNumberWord word.now n }
{
    let Ok(text) = std::str::from_utf8(word) else {
        return None;
    };
    text.parse::<u64>().ok()
}

/// Returns the value of the argument with which a text begins, and the text after it. `front` is a space, the
/// argument's key and `=`. Returns `None` if the text doesn't begin with it.
#[tactic(auto, unfolding(crate::specs::Words::argument_at))]
fn split_argument<'a>(text: &'a [u8], front: &[u8]) -> Option<(&'a [u8], &'a [u8])>
    ensures { option_map (λ parts. (parts.0.now, parts.1.now)) result ≡ argument_at front.now text.now }
{
    let rest = text.strip_prefix(front)?;
    Some(rest.split_at(end_of_word(rest)))
}

/// The arguments of a line that aren't read yet. Each is `KEY=VALUE` after a space. They are read in the order of the
/// line's form. `front` is a space, the key and `=`.
#[derive(Drop)]
pub struct Words<'a> {
    /// The allocator for what is read.
    pub alloc: Global,
    /// The text that isn't read yet.
    pub left: &'a [u8],
}

impl<'a> Words<'a> {
    /// The arguments in the text after a line's first word.
    pub fn new(alloc: Global, text: &'a [u8]) -> Words<'a>
        ensures { result.left.now ≡ text.now }
    {
        Words { alloc, left: text }
    }

    /// Reads the next argument if it has this key; otherwise reads nothing.
    pub fn word_if(&mut self, front: &[u8]) -> Option<&'a [u8]>
        ensures value { option_map (λ word. word.now) result
            ≡ option_map (λ parts. parts.0) (argument_at front.now self.old.left.now) }
        ensures left { self.new.left.now
            ≡ unwrap_or (option_map (λ parts. parts.1) (argument_at front.now self.old.left.now)) self.old.left.now }
    {
        let (value, rest) = split_argument(self.left, front)?;
        self.left = rest;
        Some(value)
    }

    /// Reads the next argument. Fails if it doesn't have this key.
    pub fn word(&mut self, front: &[u8]) -> Result<&'a [u8], Unread>
        ensures { IfOk result (λ word.
            argument_at front.now self.old.left.now ≡ Some (word.now, self.new.left.now)) }
    {
        match self.word_if(front) {
            Some(value) => Ok(value),
            None => Err(Unread::Form),
        }
    }

    /// Reads a number.
    pub fn number(&mut self, front: &[u8]) -> Result<u64, Unread>
        ensures { IfOk result (λ n.
            BeginsWithNumber front.now self.old.left.now n self.new.left.now) }
    {
        let value = self.word(front)?;
        number_in(value)
    }

    /// Reads a number, if the next argument has this key.
    pub fn number_if(&mut self, front: &[u8]) -> Result<Option<u64>, Unread> {
        match self.word_if(front) {
            Some(value) => Ok(Some(number_in(value)?)),
            None => Ok(None),
        }
    }

    /// Reads bytes.
    pub fn bytes(&mut self, front: &[u8]) -> Result<Bytes, Unread> {
        let value = self.word(front)?;
        read_bytes(self.alloc, value)
    }

    /// Reads bytes, if the next argument has this key.
    pub fn bytes_if(&mut self, front: &[u8]) -> Result<Option<Vec<u8>>, Unread> {
        match self.word_if(front) {
            Some(value) => Ok(Some(read_bytes(self.alloc, value)?.into_vec())),
            None => Ok(None),
        }
    }

    /// Reads a list of bytes.
    pub fn list(&mut self, front: &[u8]) -> Result<Items<Bytes>, Unread> {
        let value = self.word(front)?;
        read_list(self.alloc, value)
    }

    /// Whether the rest of the line is this text; if so, reads it.
    pub fn is_last(&mut self, text: &[u8]) -> bool {
        if self.left != text {
            return false;
        }
        self.left = b"".as_slice();
        true
    }

    /// Fails if arguments are left.
    pub fn end(&self) -> Result<(), Unread> {
        if self.left.is_empty() {
            Ok(())
        } else {
            Err(Unread::Form)
        }
    }
}

/// Returns the number that a word is in decimal. Fails if it is none below 2^64.
fn number_in(word: &[u8]) -> Result<u64, Unread>
    ensures { IfOk result (IsNumberWord word.now) }
{
    match read_number(word) {
        Some(number) => Ok(number),
        None => Err(Unread::Form),
    }
}
