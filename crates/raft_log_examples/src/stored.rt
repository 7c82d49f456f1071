//! What a node stores, and its bytes.

use std::alloc::{AllocError, Global};

/// What a node must not forget before it replies.
#[derive(Clone, Copy)]
pub struct HardState {
    /// The latest term that it knows.
    pub term: u64,
    /// The candidate that got its vote in this term, or 0.
    pub vote: u64,
    /// The last index that it knows to be committed.
    pub commit: u64,
}

/// What a snapshot covers.
#[derive(Clone, Copy)]
pub struct Base {
    /// The last index in the snapshot, or 0.
    pub index: u64,
    /// The term of the entry at that index.
    pub term: u64,
}

impl HardState {
    /// The state of a new node.
    pub fn new() -> HardState {
        HardState {
            term: 0,
            vote: 0,
            commit: 0,
        }
    }

    /// The state with which these bytes begin; `None` if they have fewer than 24.
    pub fn decode(bytes: &[u8]) -> Option<HardState> {
        let (term, rest) = split_number(bytes)?;
        let (vote, rest) = split_number(rest)?;
        let (commit, _) = split_number(rest)?;
        Some(HardState { term, vote, commit })
    }
}

impl Base {
    /// The base with which these bytes begin; `None` if they have fewer than 16.
    pub fn decode(bytes: &[u8]) -> Option<Base> {
        let (index, rest) = split_number(bytes)?;
        let (term, _) = split_number(rest)?;
        Some(Base { index, term })
    }
}

/// The bytes of these numbers, eight for each, the lowest first.
pub fn encode_numbers(alloc: Global, numbers: &[u64]) -> Result<Vec<u8>, AllocError> {
    let mut bytes = Vec::new(alloc);
    for number in numbers {
        bytes.extend_from_slice(&number.to_le_bytes())?;
    }
    Ok(bytes)
}

/// The number in the first eight of these bytes, the lowest byte first, and the rest; `None` if there are fewer.
pub fn split_number(bytes: &[u8]) -> Option<(u64, &[u8])> {
    let (number, rest) = bytes.split_first_chunk::<8>()?;
    Some((u64::from_le_bytes(*number), rest))
}
