//! Writing one log file: allocates ahead of its end, and truncates it to what was written.

ghost use Rattle.std.specs.Prelude.{◌≡◌, ℕ, ◌+◌, ◌<◌, ◌^◌, ◌++◌, List, length, nat_lt, ◌||◌, IfOk, IfErr, OnOk, OnErr};
ghost use Rattle.raft_log_fs.specs.Causes.{Fails, IsLater};
ghost use Rattle.raft_log_fs.specs.Exits.{FailsToSync, Syncs};
ghost use Rattle.raft_log_fs.specs.Touching.{TouchesOnly};

use log::{Log, warn};
use raft_log_fs::{FileSystem, Handle};
use std::io::ErrorKind;

/// The most bytes that are allocated ahead of a write, beyond those that it needs.
const FILE_ALLOCATE_SIZE: usize = 2_097_152;

/// The writer of a log file, which appends to it. Its calls borrow the file system.
///
/// If a call fails, what was written before remains, and the writer may be used again. It tracks how long the file may
/// be, even after a failure: `truncate` and `close` truncate a file that may be longer than what was written.
#[derive(Drop, Debug)]
pub struct LogFileWriter {
    handle: Handle,
    // How many bytes are written, from the start of the file.
    written: usize,
    // The largest length that the file may have, including what was allocated or may have been.
    capacity: usize,
    ghost short: { written < 2 ^ 63 },
}

impl LogFileWriter {
    ghost use Rattle.raft_log_file_writer.specs.Writer.{Closes, CutsBehind, DurableStays, FailsToClose, FailsToCutBehind, FailsToTakeUp, FailsToWriteNext, CanBeTakenUp, IsWriterAt, IsClosed, IsSynced, IsTakenUp, AreItsBytes, IsWritten, KeepsWritten, MakesRoom, TakesUp, WritesNext, reach};

    /// Opens a writer at the end of a file. If the file is shorter than the header, or `force_reset` is set, it writes
    /// the header at the front. It then continues after the header, whatever the file holds.
    pub fn open<F: FileSystem, L: Log>(
        rt: &L,
        file_system: &mut F,
        handle: Handle,
        header: &[u8],
        force_reset: bool,
    ) -> Result<LogFileWriter, ErrorKind>
        ensures ok { IfOk result (λ writer. TakesUp handle header.now force_reset writer
            (F.disk file_system.old) (F.disk file_system.new)) }
        ensures err { IfErr result (λ error. FailsToTakeUp handle header.now force_reset error
            (F.disk file_system.old) (F.disk file_system.new)) }

        // What the file holds; and a failure has a cause.
        ensures written { IfOk result (λ writer. IsTakenUp handle header.now force_reset writer
            (F.disk file_system.old) (F.disk file_system.new)) }
        ensures cause { OnErr result (CanBeTakenUp handle (F.disk file_system.old)
            → Fails (F.disk file_system.old) (F.disk file_system.new)) }

        // Nothing else changes.
        ensures others { TouchesOnly handle.file (F.disk file_system.old) (F.disk file_system.new) }
        ensures later { IsLater (F.disk file_system.old) (F.disk file_system.new) }
    {
        let size = file_system.file_size(handle)?;
        if !needs_header(header, size, force_reset) {
            return Ok(LogFileWriter {
                handle,
                written: size,
                capacity: size,
            });
        }
        let mut writer = LogFileWriter {
            handle,
            written: 0,
            capacity: size,
        };
        writer.write(rt, file_system, header, 0)?;
        Ok(writer)
    }

    /// Appends bytes to those that were written. If the file may end before the new end, it is grown first: by what is
    /// missing, or, if that is more, by what is left to the target size, up to 2 MiB. A failure to grow is only logged.
    ///
    /// If the write fails, the offset is unchanged; some of the bytes may follow it.
    pub fn write<F: FileSystem, L: Log>(
        &mut self,
        rt: &L,
        file_system: &mut F,
        bytes: &[u8],
        target_size_hint: usize,
    ) -> Result<(), ErrorKind>
        ensures ok { OnOk result (WritesNext self.old self.new bytes.now target_size_hint
            (F.disk file_system.old) (F.disk file_system.new)) }
        ensures err { IfErr result (λ error. FailsToWriteNext self.old self.new bytes.now target_size_hint
            error (F.disk file_system.old) (F.disk file_system.new)) }

        // What the file holds, and what a stop leaves of it.
        ensures written { OnOk result ((front : List ℕ) → IsWritten self.old front (F.disk file_system.old)
            → IsWritten self.new (front ++ bytes.now) (F.disk file_system.new)) }
        ensures kept { OnErr result (KeepsWritten self.old self.new
            (F.disk file_system.old) (F.disk file_system.new)) }
        ensures durable { DurableStays self.old (F.disk file_system.old) (F.disk file_system.new) }

        // Nothing else changes.
        ensures others { TouchesOnly self.old.handle.file (F.disk file_system.old) (F.disk file_system.new) }
        ensures later { IsLater (F.disk file_system.old) (F.disk file_system.new) }
    {
        let end = self.written + bytes.len();
        self.make_room(rt, file_system, end, target_size_hint);
        file_system.write_at(self.handle, self.written, bytes)?;
        self.written = end;
        Ok(())
    }

    /// Truncates the file to what was written, if it may be longer. It doesn't sync. If it fails, the file may still be
    /// longer.
    pub fn truncate<F: FileSystem>(&mut self, file_system: &mut F) -> Result<(), ErrorKind>
        ensures ok { OnOk result (CutsBehind self.old self.new
            (F.disk file_system.old) (F.disk file_system.new)) }
        ensures err { IfErr result (λ error. FailsToCutBehind self.old self.new error
            (F.disk file_system.old) (F.disk file_system.new)) }

        // What the file holds, and what a stop leaves of it.
        ensures whole { OnOk result ((bytes : List ℕ) → IsWritten self.old bytes (F.disk file_system.old)
            → AreItsBytes self.new bytes (F.disk file_system.new)) }
        ensures kept { OnErr result (KeepsWritten self.old self.new
            (F.disk file_system.old) (F.disk file_system.new)) }
        ensures durable { DurableStays self.old (F.disk file_system.old) (F.disk file_system.new) }

        // Nothing else changes.
        ensures others { TouchesOnly self.old.handle.file (F.disk file_system.old) (F.disk file_system.new) }
        ensures later { IsLater (F.disk file_system.old) (F.disk file_system.new) }
    {
        if self.written < self.capacity {
            file_system.truncate(self.handle, self.written)?;
            self.capacity = self.written;
        }
        Ok(())
    }

    /// Makes what was written durable.
    pub fn sync<F: FileSystem>(&self, file_system: &mut F) -> Result<(), ErrorKind>
        ensures ok { OnOk result (Syncs self.now.handle (F.disk file_system.old) (F.disk file_system.new)) }
        ensures err { IfErr result (λ error. FailsToSync self.now.handle error
            (F.disk file_system.old) (F.disk file_system.new)) }

        // What the file holds, and what a stop leaves of it.
        ensures synced { OnOk result ((bytes : List ℕ) → IsWritten self.now bytes (F.disk file_system.old)
            → IsSynced self.now bytes (F.disk file_system.new)) }
        ensures kept { OnErr result (KeepsWritten self.now self.now
            (F.disk file_system.old) (F.disk file_system.new)) }
        ensures durable { DurableStays self.now (F.disk file_system.old) (F.disk file_system.new) }

        // Nothing else changes.
        ensures others { TouchesOnly self.now.handle.file (F.disk file_system.old) (F.disk file_system.new) }
        ensures later { IsLater (F.disk file_system.old) (F.disk file_system.new) }
    {
        file_system.sync(self.handle)
    }

    /// Truncates the file to what was written, if it may be longer, and syncs it. If the truncation fails, it doesn't
    /// sync.
    pub fn close<F: FileSystem>(&mut self, file_system: &mut F) -> Result<(), ErrorKind>
        ensures ok { OnOk result (Closes self.old self.new
            (F.disk file_system.old) (F.disk file_system.new)) }
        ensures err { IfErr result (λ error. FailsToClose self.old self.new error
            (F.disk file_system.old) (F.disk file_system.new)) }

        // What the file holds, and what a stop leaves of it.
        ensures closed { OnOk result ((bytes : List ℕ) → IsWritten self.old bytes (F.disk file_system.old)
            → IsClosed self.new bytes (F.disk file_system.new)) }
        ensures kept { OnErr result (KeepsWritten self.old self.new
            (F.disk file_system.old) (F.disk file_system.new)) }
        ensures durable { DurableStays self.old (F.disk file_system.old) (F.disk file_system.new) }

        // Nothing else changes.
        ensures others { TouchesOnly self.old.handle.file (F.disk file_system.old) (F.disk file_system.new) }
        ensures later { IsLater (F.disk file_system.old) (F.disk file_system.new) }
    {
        self.truncate(file_system)?;
        self.sync(file_system)
    }

    /// How many bytes are written, including the header: the offset of the next byte.
    pub fn offset(&self) -> usize
        ensures is { result ≡ self.now.written }
        ensures short { result < 2 ^ 63 }
    {
        self.written
    }

    /// Grows the file if it may end before the end of a write.
    fn make_room<F: FileSystem, L: Log>(
        &mut self,
        rt: &L,
        file_system: &mut F,
        end: usize,
        target_size_hint: usize,
    )
        ensures room { MakesRoom self.old.handle self.old.capacity end target_size_hint
            (F.disk file_system.old) (F.disk file_system.new) }
        ensures stays { IsWriterAt self.new self.old.handle self.old.written
            (reach self.old.capacity end target_size_hint) }
    {
        if end <= self.capacity {
            return;
        }
        let ahead = FILE_ALLOCATE_SIZE.min(target_size_hint.saturating_sub(self.capacity));
        let size = (end - self.capacity).max(ahead);
        if let Err(kind) = file_system.allocate(self.handle, self.capacity, size) {
            warn!(rt; "log file allocation failed: {kind}");
        }
        self.capacity += size;
    }
}

/// Whether a file of this size gets a header: it is reset, or too short to have one.
fn needs_header(header: &[u8], size: usize, force_reset: bool) -> bool
    ensures { result ≡ (force_reset || nat_lt size (length header.now)) }
{
    force_reset || size < header.len()
}
