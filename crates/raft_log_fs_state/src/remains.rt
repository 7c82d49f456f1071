//! What a crash leaves of the files.
ghost use Rattle.std.specs.Prelude.{◌≡◌, ℕ, ◌<◌, length, reverse, IfOk, OnOk, vec_len};
ghost use Rattle.std.specs.List.Sorted.{IsNonDecreasing};
ghost use Rattle.raft_log_fs.specs.Disk.{file_limit};
ghost use Rattle.raft_log_fs.specs.Image.{end_of};
ghost use Rattle.raft_log_fs_state.specs.Changes.{change_of};
ghost use Rattle.raft_log_fs_state.specs.Held.{IfHeld, AllBecome, AreShort, held, before, all_written, items_of};
ghost use Rattle.raft_log_fs_state.specs.Left.{left_by};
ghost use Rattle.raft_log_fs_state.specs.Stamps.{left_of_file, left_held, place_in};

use crate::change::{Change, Stamped};
use crate::content::Content;
use crate::files::Stored;
use crate::order::place_of;
use crate::remainder::{Piece, Remainder};
use std::alloc::{AllocError, Global};

// Makes what is left of the change at this place in the order of the calls; `bytes` are a write's.
fn carry_out(
    what: &Remainder,
    place: usize,
    change: &Change,
    bytes: &[u8],
    content: &mut Content,
) -> Result<(), AllocError>
    requires { end_of (change_of change.now bytes.now) < file_limit }
    ensures { OnOk result
        (content.new ≡ left_by what.now place (change_of change.now bytes.now) content.old) }
{
    match what {
        Remainder::LastSync => Ok(()),
        Remainder::AllWritten => change.carry_out(bytes, content),
        Remainder::First {
            pieces,
            bytes: count,
        } => {
            if place < *pieces {
                change.carry_out(bytes, content)
            } else if place == *pieces {
                change.carry_out_front(*count, bytes, content)
            } else {
                Ok(())
            }
        }
        Remainder::Pieces(list) => match list.get(place) {
            Some(Piece::Keep) => change.carry_out(bytes, content),
            Some(Piece::Bytes(other)) => change.carry_out_as(other, bytes, content),
            Some(Piece::Lose) | None => Ok(()),
        },
    }
}

// Undoes all changes, the last one first. Returns what they wrote, the last one first.
fn take_back(
    alloc: Global,
    changes: &[Stamped],
    content: &mut Content,
) -> Result<Vec<Vec<u8>>, AllocError>
    ensures before { OnOk result (content.new ≡ before changes.now content.old) }
    ensures pieces { IfOk result (λ pieces.
        items_of pieces.items ≡ reverse (all_written changes.now content.old)) }
{
    let mut pieces = Vec::with_capacity(alloc, changes.len())?;
    let mut left = changes.len();
    while 0 < left {
        left -= 1;
        let piece = changes[left].take_back(alloc, content)?;
        pieces.push(piece)?;
    }
    Ok(pieces)
}

// What is left of a file's bytes, if these are the stamps of all changes.
fn left_bytes(
    alloc: Global,
    what: &Remainder,
    stamps: &[u64],
    stored: &Stored,
) -> Result<Content, AllocError>
    requires sorted { IsNonDecreasing stamps.now }
    requires short { AreShort (held stored.now).changes }
    ensures { IfOk result (λ content. content ≡ left_of_file what.now stamps.now (held stored.now)) }
{
    let mut content = stored.content.copied(alloc)?;
    let mut pieces = take_back(alloc, &stored.changes, &mut content)?;
    for stamped in &stored.changes {
        let place = place_of(stamps, stamped.stamp);
        let piece = pieces.pop().unwrap();
        carry_out(what, place, &stamped.change, &piece, &mut content)?;
    }
    Ok(content)
}

// What is left of all files, if these are the stamps of all changes.
pub(crate) fn left_files(
    alloc: Global,
    what: &Remainder,
    stamps: &[u64],
    files: &[Option<Stored>],
) -> Result<Vec<Option<Stored>>, AllocError>
    requires sorted { IsNonDecreasing stamps.now }
    requires short { (id : ℕ) → IfHeld files.now id (λ file. AreShort file.changes) }
    ensures len { IfOk result (λ after. vec_len after ≡ length files.now) }
    ensures files { IfOk result (λ after.
        AllBecome (left_held what.now (place_in stamps.now)) files.now after.items) }
{
    let mut left = Vec::with_capacity(alloc, files.len())?;
    for slot in files {
        let after = match slot {
            Some(stored) => {
                let content = left_bytes(alloc, what, stamps, stored)?;
                Some(Stored::at_rest(alloc, content))
            }
            None => None,
        };
        left.push(after)?;
    }
    Ok(left)
}
