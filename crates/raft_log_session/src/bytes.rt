//! Bytes as the text of case files: terms joined by `+`.
use crate::session::Unread;
use crate::words::{read_number, split_at_byte};
use hex::FromHexError;
use raft_lists::{Bytes, Items};
use std::alloc::{AllocError, Global};

/// The most times that a term may be repeated.
const MOST_TIMES: u64 = 1_048_576;

/// Returns the bytes that a word spells: those of its terms, which are joined by `+`. A term is an even number of hex
/// digits, or a text in single quotes without `+` and `*`. `*` and a number after it repeat it, at most 1,048,576
/// times.
pub fn read_bytes(alloc: Global, word: &[u8]) -> Result<Bytes, Unread> {
    let mut bytes = Items::new(alloc);
    let mut left = word;
    while let Some((term, rest)) = split_at_byte(left, b'+') {
        add_term(alloc, &mut bytes, term)?;
        left = rest;
    }
    add_term(alloc, &mut bytes, left)?;
    Ok(bytes)
}

/// Returns the bytes that each word of a list spells. The words are separated by commas, so none has one.
pub fn read_list(alloc: Global, text: &[u8]) -> Result<Items<Bytes>, Unread> {
    let mut list = Items::new(alloc);
    let mut left = text;
    while let Some((word, rest)) = split_at_byte(left, b',') {
        list.push(read_bytes(alloc, word)?)?;
        left = rest;
    }
    list.push(read_bytes(alloc, left)?)?;
    Ok(list)
}

/// Appends the bytes of a term.
fn add_term(alloc: Global, bytes: &mut Bytes, term: &[u8]) -> Result<(), Unread> {
    let Some((word, times)) = split_times(term) else {
        return Err(Unread::Form);
    };
    let unit = read_unit(alloc, word)?;
    for _ in 0..times {
        append(bytes, unit.as_slice())?;
    }
    Ok(())
}

/// Returns a term without `*` and what follows, and how often it is repeated; `None` if that isn't a number up to the
/// most.
fn split_times(term: &[u8]) -> Option<(&[u8], u64)> {
    let Some((word, count)) = split_at_byte(term, b'*') else {
        return Some((term, 1));
    };
    let times = read_number(count)?;
    if times > MOST_TIMES {
        return None;
    }
    Some((word, times))
}

/// Appends bytes.
fn append(bytes: &mut Bytes, unit: &[u8]) -> Result<(), AllocError> {
    for b in unit {
        bytes.push(*b)?;
    }
    Ok(())
}

/// Returns the bytes of hex digits, or of a text in quotes.
fn read_unit(alloc: Global, word: &[u8]) -> Result<Bytes, Unread> {
    if let Some(rest) = word.strip_prefix(b"'".as_slice()) {
        return match rest.strip_suffix(b"'".as_slice()) {
            Some(text) => Ok(Bytes::from_slice(alloc, text)?),
            None => Err(Unread::Form),
        };
    }
    match hex::decode(alloc, word) {
        Ok(bytes) => Ok(Items::from_vec(bytes)),
        Err(FromHexError::OutOfMemory) => Err(Unread::Memory),
        Err(_) => Err(Unread::Form),
    }
}
