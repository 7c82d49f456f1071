//! The words of a line: numbers in decimal digits, and data in hex digits.
ghost use Rattle.std.specs.Prelude.{◌≡◌, ◌==◌, ◌≤◌, ◌<◌, length, IfOk, MatchOption};
ghost use Rattle.std.specs.List.{position_or_len, before_first, after_first, list_all};
ghost use Rattle.std.specs.Option.{option_map};
ghost use Rattle.raft_voter_session.specs.Words.{is_space, is_lower_hex_digit, number_of, number_at, data_of, text_of, value_from, word_at};

use hex::FromHexError;
use raft_voter_messages::{Items, Memory};
use std::alloc::Global;

/// The most digits that a number may have.
const MOST_DIGITS: usize = 20;

/// Returns the place of the first space, or the length if there is none.
pub fn end_of_word(text: &[u8]) -> usize
    ensures value { result ≡ position_or_len is_space text.now }
    ensures within { result ≤ length text.now }
{
    let mut end = 0;
    for b in text {
        if *b == b' ' {
            return end;
        }
        end += 1;
    }
    end
}

/// Returns the parts of a text before and after the first of these bytes; `None` if it has none.
pub fn split_at_byte(text: &[u8], byte: u8) -> Option<(&[u8], &[u8])>
    ensures { MatchOption result (length text.now ≤ position_or_len (λ b. b == byte) text.now)
        (λ parts. (position_or_len (λ b. b == byte) text.now < length text.now)
        × (parts.0.now ≡ before_first (λ b. b == byte) text.now)
        × (parts.1.now ≡ after_first (λ b. b == byte) text.now)) }
{
    for (i, b) in text.iter().enumerate() {
        if *b == byte {
            return Some((&text[..i], &text[i + 1..]));
        }
    }
    None
}

/// Returns the value of digits, if it fits a `u64`.
#[tactic(auto, using(crate::proofs::Digits::digits_say_more), unfolding(crate::specs::Words::value_from))]
fn read_digits(digits: &[u8]) -> Option<u64>
    ensures { result ≡ value_from 0 digits.now }
{
    let mut number: u64 = 0;
    for b in digits {
        if !b.is_ascii_digit() {
            return None;
        }
        number = number.checked_mul(10)?.checked_add(u64::from(*b - b'0'))?;
    }
    Some(number)
}

/// Returns the value of a word of one to twenty digits, if it fits a `u64`.
pub fn read_number(word: &[u8]) -> Option<u64>
    ensures { result ≡ number_of word.now }
{
    if word.is_empty() || word.len() > MOST_DIGITS {
        return None;
    }
    read_digits(word)
}

/// Returns the next word and the text after it; `None` if the text doesn't begin with a space. The word is after this
/// space, and ends before the next one.
pub fn split_word(text: &[u8]) -> Option<(&[u8], &[u8])>
    ensures { option_map (λ word. (word.0.now, word.1.now)) result ≡ word_at text.now }
{
    let (first, rest) = text.split_first()?;
    if *first != b' ' {
        return None;
    }
    Some(rest.split_at(end_of_word(rest)))
}

/// Returns the number in the next word, and the text after it.
#[tactic(auto, unfolding(crate::specs::Words::number_at))]
pub fn split_number(text: &[u8]) -> Option<(u64, &[u8])>
    ensures { option_map (λ field. (field.0, field.1.now)) result ≡ number_at text.now }
{
    let (word, rest) = split_word(text)?;
    Some((read_number(word)?, rest))
}

/// Whether a byte is a hex digit in lower case.
fn is_lower_hex_digit(b: u8) -> bool
    ensures { result ≡ is_lower_hex_digit b }
{
    b.is_ascii_digit() || (b'a' <= b && b <= b'f')
}

/// Whether all bytes are hex digits in lower case.
fn is_lower_hex(word: &[u8]) -> bool
    ensures { result ≡ list_all is_lower_hex_digit word.now }
{
    word.iter().all(|b| is_lower_hex_digit(*b))
}

/// Decodes hex digits in lower case; `None` if the word has other bytes or an odd number of digits.
pub fn read_data(alloc: Global, word: &[u8]) -> Result<Option<Items<u8>>, Memory>
    ensures { IfOk result (λ bytes. bytes ≡ data_of word.now) }
{
    if !is_lower_hex(word) {
        return Ok(None);
    }
    match hex::decode(alloc, word) {
        Ok(bytes) => Ok(Some(Items::from_vec(bytes))),
        Err(FromHexError::OutOfMemory) => Err(Memory),
        Err(_) => Ok(None),
    }
}

/// Returns bytes as text; `None` if they aren't UTF-8.
pub fn read_text(bytes: &[u8]) -> Option<&str>
    ensures { option_map (λ text. text.now) result ≡ text_of bytes.now }
{
    match std::str::from_utf8(bytes) {
        Ok(text) => Some(text),
        Err(_) => None,
    }
}
