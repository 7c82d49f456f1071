//! Entries that write their own bytes.
use std::alloc::AllocError;

/// A list of entries that write their own bytes. Contracts see the bytes of each.
pub trait EntryWriter {
    ghost use Rattle.std.specs.Prelude.{◌≡◌, ◌<◌, ℕ, List, length, OnOk, OnErr};
    ghost use Rattle.raft_log_record_items.specs.Writing.{KeepsFront};
    ghost use Rattle.raft_log_record_batches.specs.EntriesFrom.{AppendsText};

    /// The bytes of each entry, in order.
    ghost texts: { Self → List (List ℕ) };

    /// The number of entries.
    fn len(&self) -> usize
        ensures { result ≡ length (texts self.now) };

    /// Appends the bytes of the entry at this place. If it fails, a part may follow the old bytes.
    fn append(&self, place: usize, out: &mut Vec<u8>) -> Result<(), AllocError>
        requires { place < length (texts self.now) }
        ensures ok { OnOk result (AppendsText (texts self.now) place out.old.items out.new.items) }
        ensures err { OnErr result (KeepsFront out.old.items out.new.items) };
}

/// Entries whose bytes are slices.
#[derive(Clone, Copy)]
pub struct EntrySlices<'a> {
    /// The bytes of each, in order.
    pub slices: &'a [&'a [u8]],
}

impl<'a> EntryWriter for EntrySlices<'a> {
    ghost use Rattle.raft_log_record_batches.specs.Entries.{slices_bytes};

    ghost texts = { λ e. slices_bytes e.slices.now };

    fn len(&self) -> usize {
        self.slices.len()
    }

    fn append(&self, place: usize, out: &mut Vec<u8>) -> Result<(), AllocError> {
        let bytes: &[u8] = self.slices[place];
        out.extend_from_slice(bytes)
    }
}
