//! How a voter's state and its entries are stored as bytes. The first byte names the form. A number is eight bytes,
//! big-endian.
ghost use Rattle.std.specs.Prelude.{◌≡◌, ◌+◌, ◌^◌, ◌<◌, ◌≤◌, ◌++◌, length, vec_capacity, vec_len};
ghost use Rattle.raft_voter_messages.specs.StoredForms.{number_text};
ghost use Rattle.raft_voter_messages.specs.declared.stored.StoredFault.TheVariants as faults;

mod entry;
mod head;
mod state;

use crate::Memory;
pub use entry::{ENTRY_HEAD_BYTES, append_entry, entry_bytes, read_entry, stored_entry_fits};
pub use state::{STATE_BYTES, append_state, read_state, state_bytes, state_fits};
use std::alloc::AllocError;
use thiserror::Error;

/// How many bytes a number has.
const NUMBER_BYTES: usize = 8;

/// Why stored bytes do not encode a voter.
#[derive(Clone, Copy, Debug, PartialEq, Eq, Error)]
pub enum StoredFault {
    /// There are no bytes, or too few or too many for their form.
    #[error("wrong length")]
    Length,
    /// The first byte names no known form.
    #[error("unknown form")]
    Form,
    /// A number is above the limit, or the commit is below the base. Or the vote byte is neither 0 nor 1, or a
    /// candidate is named without a vote.
    #[error("value out of range")]
    Range,
    /// The entry has another index than the expected one.
    #[error("wrong index")]
    Index,
    /// The entries are not consecutive from the base on.
    #[error("entries out of order")]
    Order,
    /// An allocation failed.
    #[error("out of memory")]
    Memory,
}

impl From<Memory> for StoredFault {
    ghost from_gives = { λ _ fault. fault ≡ faults.Memory };

    fn from(_refused: Memory) -> StoredFault {
        StoredFault::Memory
    }
}

impl From<AllocError> for StoredFault {
    ghost from_gives = { λ _ fault. fault ≡ faults.Memory };

    fn from(_refused: AllocError) -> StoredFault {
        StoredFault::Memory
    }
}

/// Appends a number's bytes. The caller has reserved room for them.
fn push_number(bytes: &mut Vec<u8>, number: u64)
    requires { vec_len bytes.old + 8 ≤ vec_capacity bytes.old }
    ensures items { bytes.new.items ≡ bytes.old.items ++ number_text number }
    ensures len { vec_len bytes.new ≡ vec_len bytes.old + 8 }
    ensures room { vec_capacity bytes.old ≤ vec_capacity bytes.new }
{
    let Ok(()) = bytes.extend_from_slice(&number.to_be_bytes()) else {
        unreachable!();
    };
}

/// Splits the number off the front of these bytes. Returns it and the remaining bytes.
fn split_number(bytes: &[u8]) -> (u64, &[u8])
    requires { 8 ≤ length bytes.now }
    ensures text { bytes.now ≡ number_text result.0 ++ result.1.now }
    ensures rest { length result.1.now + 8 ≡ length bytes.now }
    ensures small { result.0 < 2 ^ 64 }
{
    let (front, rest) = bytes.split_at(NUMBER_BYTES);
    let number = u64::from_be_bytes([
        front[0], front[1], front[2], front[3], front[4], front[5], front[6], front[7],
    ]);
    (number, rest)
}
