//! Places of entries that are alone in their blocks, each as eight numbers of 32 bits.
ghost use Rattle.std.specs.Prelude.{◌≡◌, ◌+◌, ◌*◌, ◌/◌, ◌%◌, ◌≤◌, ◌^◌, ◌++◌, [], ◌∷◌, drop, length};
ghost use Rattle.std.specs.VecDeque.{deque_capacity, deque_len};
ghost use Rattle.raft_log_extents.specs.Words.{place_from, words_of};

use crate::Place;
use std::collections::VecDeque;

const HALF: u64 = 0x1_0000_0000;

/// The number of these halves.
fn joined(low: u32, high: u32) -> u64
    ensures { result ≡ low + high * 2 ^ 32 }
{
    low as u64 + high as u64 * HALF
}

/// The place that eight numbers of a deque encode, from this position on.
pub(crate) fn place_in_deque(words: &VecDeque<u32>, at: usize) -> Place
    requires { at + 8 ≤ length words.now.items }
    ensures { result ≡ place_from (drop at words.now.items) }
{
    Place {
        file: joined(words[at], words[at + 1]),
        offset: joined(words[at + 2], words[at + 3]),
        len: joined(words[at + 4], words[at + 5]) as usize,
        entry_offset: words[at + 6],
        entry_len: words[at + 7],
    }
}

/// The place that eight numbers of a slice encode, from this position on.
pub(crate) fn place_in_slice(words: &[u32], at: usize) -> Place
    requires { at + 8 ≤ length words.now }
    ensures { result ≡ place_from (drop at words.now) }
{
    Place {
        file: joined(words[at], words[at + 1]),
        offset: joined(words[at + 2], words[at + 3]),
        len: joined(words[at + 4], words[at + 5]) as usize,
        entry_offset: words[at + 6],
        entry_len: words[at + 7],
    }
}

/// Appends the two halves of a number to a deque that has room for them.
fn push_halves(words: &mut VecDeque<u32>, number: u64)
    requires { deque_len words.old + 2 ≤ deque_capacity words.old }
    ensures items { words.new.items ≡ words.old.items ++ (number % 2 ^ 32 ∷ (number / 2 ^ 32 ∷ [])) }
    ensures len { deque_len words.new ≡ deque_len words.old + 2 }
    ensures capacity { deque_capacity words.new ≡ deque_capacity words.old }
{
    words.push_back_reserved((number % HALF) as u32);
    words.push_back_reserved((number / HALF) as u32);
}

/// Appends the eight numbers that encode a place to a deque that has room for them.
pub(crate) fn push_place(words: &mut VecDeque<u32>, place: Place)
    requires { deque_len words.old + 8 ≤ deque_capacity words.old }
    ensures items { words.new.items ≡ words.old.items ++ words_of place }
    ensures len { deque_len words.new ≡ deque_len words.old + 8 }
    ensures capacity { deque_capacity words.new ≡ deque_capacity words.old }
{
    push_halves(words, place.file);
    push_halves(words, place.offset);
    push_halves(words, place.len as u64);
    words.push_back_reserved(place.entry_offset);
    words.push_back_reserved(place.entry_len);
}
