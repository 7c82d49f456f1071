//! The order in which the changes of all files were made.
ghost use Rattle.std.specs.Prelude.{◌≡◌, ◌++◌, IfOk, OnOk};
ghost use Rattle.std.specs.List.Sorted.{IsNonDecreasing};
ghost use Rattle.raft_log_fs_state.specs.Stamps.{HasAllStamps, stamps_on, place_in};

use crate::change::Stamped;
use crate::files::Stored;
use std::alloc::{AllocError, Global};

// The stamps of all files' changes, the least first.
pub(crate) fn sorted_stamps(alloc: Global, files: &[Option<Stored>]) -> Result<Vec<u64>, AllocError>
    ensures all { IfOk result (λ stamps. HasAllStamps files.now stamps.items) }
    ensures sorted { IfOk result (λ stamps. IsNonDecreasing stamps.items) }
{
    let mut stamps = Vec::new(alloc);
    for slot in files {
        if let Some(stored) = slot {
            add_stamps(&mut stamps, &stored.changes)?;
        }
    }
    stamps.sort_unstable();
    Ok(stamps)
}

// Appends the stamps of a file's changes.
fn add_stamps(stamps: &mut Vec<u64>, changes: &[Stamped]) -> Result<(), AllocError>
    ensures { OnOk result (stamps.new.items ≡ stamps.old.items ++ stamps_on changes.now) }
{
    stamps.reserve(changes.len())?;
    for stamped in changes {
        stamps.push(stamped.stamp)?;
    }
    Ok(())
}

// How many of the stamps are below this one.
pub(crate) fn place_of(stamps: &[u64], stamp: u64) -> usize
    requires { IsNonDecreasing stamps.now }
    ensures { result ≡ place_in stamps.now stamp }
{
    stamps.partition_point(|other| *other < stamp)
}
