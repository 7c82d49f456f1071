//! The files of a pipe, as it keeps them in memory.

ghost use Rattle.std.specs.Prelude.{◌≡◌, ◌<◌, IfSome, None, ◌++◌, ◌∷◌, []};
ghost use Rattle.raft_log_file_pipe.specs.Reading.{IsListed, IsNotTold, IsUnlisted};
ghost use Rattle.std.specs.VecDeque.{deque_len, deque_capacity};

use raft_log_active_file::File;
use raft_log_file_writer::LogFileWriter;
use raft_log_fs::Handle;
use raft_log_record_base::{Error, FileSeq};
use std::alloc::Global;
use std::collections::VecDeque;

/// The files of a pipe: its live range, whose last file is the active one, and those that are kept for recycling.
#[derive(Drop, Debug)]
pub struct PipeFiles {
    /// The number of the live range's first file.
    pub first_seq: FileSeq,
    /// The earlier files of the live range, in the order of their numbers.
    pub earlier: VecDeque<File>,
    /// The active file.
    pub active: File,
    /// The writer of the active file.
    pub writer: LogFileWriter,
    /// The files that are kept for recycling, the oldest first.
    pub recycled: VecDeque<File>,
}

impl PipeFiles {
    /// Moves the active file to the earlier ones, and makes `next` the active file.
    pub fn turn_to(&mut self, next: File)
        requires { deque_len self.old.earlier < deque_capacity self.old.earlier }
        ensures first { self.new.first_seq ≡ self.old.first_seq }
        ensures earlier { self.new.earlier.items ≡ self.old.earlier.items ++ self.old.active ∷ [] }
        ensures active { self.new.active ≡ next }
        ensures writer { self.new.writer ≡ self.old.writer }
        ensures recycled { self.new.recycled ≡ self.old.recycled }
    {
        self.earlier.push_back_reserved(self.active);
        self.active = next;
    }

    /// The handle of a file of the live range; none for another number.
    pub fn handle_of(&self, seq: FileSeq) -> Option<Handle>
        ensures some { IfSome result (λ handle. IsListed seq self.now handle.file) }
        ensures last { IfSome result (λ handle. seq ≡ self.now.active.seq → handle ≡ self.now.active.handle) }
        ensures none { result ≡ None → IsUnlisted seq self.now }
    {
        if seq == self.active.seq {
            return Some(self.active.handle);
        }
        let position = seq.checked_sub(self.first_seq)?;
        let file = self.earlier.get(position as usize)?;
        Some(file.handle)
    }
}

/// The error of a read for a number that no file of the live range has: `Corruption`, or `Memory`.
#[cold]
pub fn unlisted(alloc: Global, seq: FileSeq) -> Error
    ensures { (files : PipeFiles) → IsUnlisted seq files → IsNotTold seq files result }
{
    match format!(in alloc; "file {seq} is none of the log's") {
        Ok(text) => Error::Corruption(text),
        Err(_) => Error::Memory,
    }
}
