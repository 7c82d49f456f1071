//! Pieces of entries that follow one another in a block, and a run for each.
ghost use Rattle.std.specs.Prelude.{◌≡◌, ℕ, ◌+◌, ◌*◌, ◌-◌, ◌≤◌, ◌<◌, ◌^◌, ◌++◌, List, true, length, map, take, drop, slice_index_or};
ghost use Rattle.std.specs.VecDeque.{deque_capacity, deque_len};
ghost use Rattle.raft_log_record_items.specs.declared.entry.EntryIndex.{EntryIndex};
ghost use Rattle.raft_log_extents.specs.Entries.{place_of};
ghost use Rattle.raft_log_extents.specs.Blocks.{follows, pieces, AreOnePiece};
ghost use Rattle.raft_log_extents.specs.Runs.{places_of, start_of_entry, starts_for, total, width, AreAdded, StartsFit};

use crate::{Run, place_of};
use raft_log_record_items::EntryIndex;
use std::collections::VecDeque;

/// Appends the runs of these entries, and their starts, to others that have room for them, numbered from these numbers
/// on. Each piece of entries that follow one another in a block is a run.
pub(super) fn push_pieces(
    runs: &mut VecDeque<Run>,
    starts: &mut VecDeque<u32>,
    entries: &[EntryIndex],
    first: usize,
    at: usize,
)
    requires runs { deque_len runs.old + length entries.now ≤ deque_capacity runs.old }
    requires starts { deque_len starts.old + length entries.now ≤ deque_capacity starts.old }
    requires numbers { (first + length entries.now < 2 ^ 64) × (at + length entries.now < 2 ^ 64) }
    ensures added { (more : List Run) × ((kept : List ℕ)
        × (AreAdded first at (length entries.now) (map place_of entries.now) runs.old.items runs.new.items
        starts.old.items starts.new.items more kept
        × (length more ≤ pieces (map place_of entries.now)) × (length kept ≤ length entries.now))) }
    ensures capacities { (deque_capacity runs.new ≡ deque_capacity runs.old)
        × (deque_capacity starts.new ≡ deque_capacity starts.old) }
{
    let before = starts.len();
    let mut done = 0;
    while done < entries.len() {
        let (_, rest) = entries.split_at(done);
        let count = piece_len(rest);
        let (piece, _) = rest.split_at(count);
        let run = run_of_piece(piece, first + done, at + (starts.len() - before));
        keep_starts(starts, piece, run.even);
        runs.push_back_reserved(run);
        done += count;
    }
}

/// The number of entries in the first piece: they follow one another in a block.
fn piece_len(entries: &[EntryIndex]) -> usize
    requires { 0 < length entries.now }
    ensures within { (0 < result) × (result ≤ length entries.now) }
    ensures piece { AreOnePiece (map place_of (take result entries.now)) }
    ensures rest { pieces (map place_of entries.now) ≡ 1 + pieces (map place_of (drop result entries.now)) }
{
    for i in 1..entries.len() {
        if !lies_behind(&entries[i - 1], &entries[i]) {
            return i;
        }
    }
    entries.len()
}

/// Whether an entry directly follows another in the same block.
fn lies_behind(before: &EntryIndex, entry: &EntryIndex) -> bool
    ensures { result ≡ follows (place_of before.now) (place_of entry.now) }
{
    let before = place_of(before);
    let place = place_of(entry);
    before.file == place.file
        && before.offset == place.offset
        && before.len == place.len
        && before.entry_offset as u64 + before.entry_len as u64 == place.entry_offset as u64
}

/// The run of a piece, with these numbers.
fn run_of_piece(piece: &[EntryIndex], first: usize, at: usize) -> Run
    requires some { 0 < length piece.now }
    requires one { AreOnePiece (map place_of piece.now) }
    ensures numbers { (result.first ≡ first) × (result.at ≡ at) × (total result ≡ length piece.now) }
    ensures fits { StartsFit result.even result }
    ensures places { places_of result (starts_for result.even piece.now) ≡ map place_of piece.now }
    ensures starts { width result ≡ length (starts_for result.even piece.now) }
{
    let count = piece.len();
    let front = place_of(&piece[0]);
    let size = piece[count - 1].entry_len;
    Run {
        first,
        count,
        at,
        file: front.file,
        offset: front.offset,
        len: front.len,
        start: front.entry_offset,
        size,
        alone: 0,
        even: have_length(piece, size) && fit(front.entry_offset, count - 1, size),
    }
}

/// Whether all entries have this length.
fn have_length(entries: &[EntryIndex], size: u32) -> bool
    ensures { result ≡ true → (k : ℕ) (d : EntryIndex) → k < length entries.now
        → (slice_index_or entries.now k d).entry_len ≡ size }
{
    for entry in entries {
        if entry.entry_len != size {
            return false;
        }
    }
    true
}

/// Whether an entry after `count` others of this length starts at an offset of 32 bits.
fn fit(start: u32, count: usize, size: u32) -> bool
    ensures { result ≡ true → start + count * size < 2 ^ 32 }
{
    match (count as u64).checked_mul(size as u64) {
        Some(before) => before <= u32::MAX as u64 - start as u64,
        None => false,
    }
}

/// Appends the starts that are kept for these entries to a queue that has room for them.
fn keep_starts(starts: &mut VecDeque<u32>, entries: &[EntryIndex], even: bool)
    requires { deque_len starts.old + length entries.now ≤ deque_capacity starts.old }
    ensures items { starts.new.items ≡ starts.old.items ++ starts_for even entries.now }
    ensures len { deque_len starts.new ≤ deque_len starts.old + length entries.now }
    ensures capacity { deque_capacity starts.new ≡ deque_capacity starts.old }
{
    if even {
        return;
    }
    push_starts(starts, entries);
}

/// Appends the starts of these entries to a queue that has room for them.
fn push_starts(starts: &mut VecDeque<u32>, entries: &[EntryIndex])
    requires { deque_len starts.old + length entries.now ≤ deque_capacity starts.old }
    ensures items { starts.new.items ≡ starts.old.items ++ map start_of_entry entries.now }
    ensures len { deque_len starts.new ≡ deque_len starts.old + length entries.now }
    ensures capacity { deque_capacity starts.new ≡ deque_capacity starts.old }
{
    for entry in entries {
        starts.push_back_reserved(entry.entry_offset);
    }
}
