//! The files by their node numbers; none at a number whose file was deleted.
ghost use Rattle.std.specs.Prelude.{◌≡◌, ◌<◌, [], IfOk, OnOk, OnErr, vec_len, length, map, reverse};
ghost use Rattle.raft_log_fs.specs.Disk.{file_limit};
ghost use Rattle.raft_log_fs.specs.Image.{end_of};
ghost use Rattle.raft_log_fs_state.specs.Changes.{change_of, rest_of, asked_of};
ghost use Rattle.raft_log_fs_state.specs.Held.{SameHeld, ChangesHeld, with_made, all_synced};

use crate::change::{Change, Stamped};
use crate::content::Content;
use std::alloc::{AllocError, Global};

/// A file's bytes, kept once: undoing the changes gives what was synced and what each change wrote.
#[derive(Debug, Drop)]
pub struct Stored {
    /// As a read returns them.
    pub content: Content,
    /// The changes since the last sync, the oldest first.
    pub changes: Vec<Stamped>,
}

impl Stored {
    ghost use Rattle.raft_log_fs_state.specs.Held.{held, resting};

    // A file whose bytes are all synced.
    pub(crate) fn at_rest(alloc: Global, content: Content) -> Stored
        ensures { held result ≡ resting content }
    {
        Stored {
            content,
            changes: Vec::new(alloc),
        }
    }

    // Makes a change; `bytes` are a write's. If memory runs out, nothing changes.
    fn make(
        &mut self,
        alloc: Global,
        stamp: u64,
        change: Change,
        bytes: &[u8],
    ) -> Result<(), AllocError>
        requires { end_of (asked_of change bytes.now) < file_limit }
        ensures ok { OnOk result (held self.new
            ≡ with_made stamp (change_of change bytes.now) (rest_of change) (held self.old)) }
        ensures err { OnErr result (held self.new ≡ held self.old) }
    {
        self.changes.reserve(1)?;
        let former = change.former(alloc, bytes, &self.content)?;
        change.carry_out(bytes, &mut self.content)?;
        let length = bytes.len();
        let stamped = Stamped {
            stamp,
            change,
            length,
            former,
        };
        self.changes.push(stamped).unwrap();
        Ok(())
    }

    // Reserves memory for a change after which there are `size` bytes.
    fn reserve(&mut self, size: usize) -> Result<(), AllocError>
        ensures { held self.new ≡ held self.old }
    {
        self.changes.reserve(1)?;
        self.content.reserve(size)
    }

    // Syncs the content.
    fn flush(&mut self)
        ensures { held self.new ≡ all_synced (held self.old) }
    {
        self.changes.clear();
    }
}

// Reserves memory for a change of one file after which it has `size` bytes.
pub(crate) fn reserve(
    files: &mut Vec<Option<Stored>>,
    id: usize,
    size: usize,
) -> Result<(), AllocError>
    ensures len { vec_len files.new ≡ vec_len files.old }
    ensures same { SameHeld files.old.items files.new.items }
{
    if files.len() <= id {
        return Ok(());
    }
    match &mut files[id] {
        Some(stored) => stored.reserve(size),
        None => Ok(()),
    }
}

// Syncs the content of one file.
pub(crate) fn flush_file(files: &mut Vec<Option<Stored>>, id: usize)
    requires there { id < vec_len files.old }
    ensures len { vec_len files.new ≡ vec_len files.old }
    ensures done { ChangesHeld id all_synced files.old.items files.new.items }
{
    if let Some(stored) = &mut files[id] {
        stored.flush();
    }
}

// Makes a change of one file; `bytes` are a write's. If memory runs out, nothing changes.
pub(crate) fn change_file(
    files: &mut Vec<Option<Stored>>,
    alloc: Global,
    id: usize,
    stamp: u64,
    change: Change,
    bytes: &[u8],
) -> Result<(), AllocError>
    requires there { id < vec_len files.old }
    requires short { end_of (asked_of change bytes.now) < file_limit }
    ensures len { vec_len files.new ≡ vec_len files.old }
    ensures ok { OnOk result
        (ChangesHeld id (with_made stamp (change_of change bytes.now) (rest_of change)) files.old.items
        files.new.items) }
    ensures err { OnErr result (SameHeld files.old.items files.new.items) }
{
    if let Some(stored) = &mut files[id] {
        stored.make(alloc, stamp, change, bytes)
    } else {
        Ok(())
    }
}
