//! The trait of a device.
ghost use Rattle.std.specs.Prelude.{◌≡◌, ◌+◌, IfOk, OnOk, OnErr};
ghost use Rattle.raft_log_fs.specs.Disk.{Wrote, ShortenedTo, GrewTo};
ghost use Rattle.raft_log_fs_traced.specs.Device.{Created, Deleted, Renamed, MadeDirectory, SyncedDirectory, Changed, Synced, Trace, noted, attempted, MayBeMade, WroteBack, HasBytes, held_by};

use std::io::ErrorKind;

/// How an attempt to make a file longer ended.
#[derive(Clone, Copy, Debug)]
pub enum Attempt {
    /// The file is longer.
    Made,
    /// There was no space for it: the file has the bytes that it had.
    Undone,
}

/// What keeps files and directories, as an operating system does. Each method except `close` is one call in the trace.
///
/// A successful call is in the trace. A failed call may or may not have been made: the caller has to be right in both
/// cases. Files are named by the numbers that they were created with.
pub trait Device {
    /// What was found when it was opened, and the calls made since.
    ghost trace: { Self → Trace };

    /// Creates an empty file under a name that is free, with this number.
    fn create(&mut self, path: &str, file: usize) -> Result<(), ErrorKind>
        ensures ok { OnOk result (trace self.new ≡ noted (Created path.now file) (trace self.old)) }
        ensures err { OnErr result (MayBeMade (Created path.now file) (trace self.old) (trace self.new)) };

    /// Deletes the file at a path.
    fn delete(&mut self, path: &str) -> Result<(), ErrorKind>
        ensures ok { OnOk result (trace self.new ≡ noted (Deleted path.now) (trace self.old)) }
        ensures err { OnErr result (MayBeMade (Deleted path.now) (trace self.old) (trace self.new)) };

    /// Renames a file; a file that had the new name is deleted.
    fn rename(&mut self, from: &str, to: &str) -> Result<(), ErrorKind>
        ensures ok { OnOk result (trace self.new ≡ noted (Renamed from.now to.now) (trace self.old)) }
        ensures err { OnErr result
            (MayBeMade (Renamed from.now to.now) (trace self.old) (trace self.new)) };

    /// Makes a directory.
    fn create_dir(&mut self, path: &str) -> Result<(), ErrorKind>
        ensures ok { OnOk result (trace self.new ≡ noted (MadeDirectory path.now) (trace self.old)) }
        ensures err { OnErr result (MayBeMade (MadeDirectory path.now) (trace self.old) (trace self.new)) };

    /// Makes the names in a directory durable. The empty path is the directory that paths start from.
    fn sync_directory(&mut self, path: &str) -> Result<(), ErrorKind>
        ensures ok { OnOk result (trace self.new ≡ noted (SyncedDirectory path.now) (trace self.old)) }
        ensures err { OnErr result
            (MayBeMade (SyncedDirectory path.now) (trace self.old) (trace self.new)) };

    /// Writes bytes into a file from an offset on; a gap after the file's end becomes zeros.
    fn write_at(&mut self, file: usize, offset: usize, bytes: &[u8]) -> Result<(), ErrorKind>
        ensures ok { OnOk result
            (trace self.new ≡ noted (Changed file (Wrote offset bytes.now)) (trace self.old)) }
        ensures err { OnErr result
            (MayBeMade (Changed file (Wrote offset bytes.now)) (trace self.old) (trace self.new)) };

    /// Writes bytes into a file from an offset on, past its end. A gap after its end becomes zeros. If there is no
    /// space, the file keeps the bytes that it has.
    fn extend(&mut self, file: usize, offset: usize, bytes: &[u8]) -> Result<Attempt, ErrorKind>
        ensures ok { IfOk result (λ attempt. trace self.new
            ≡ noted (attempted file (Wrote offset bytes.now) attempt) (trace self.old)) }
        ensures err { OnErr result
            (MayBeMade (Changed file (Wrote offset bytes.now)) (trace self.old) (trace self.new)) };

    /// Truncates a file to a size; never makes it longer.
    fn truncate(&mut self, file: usize, size: usize) -> Result<(), ErrorKind>
        ensures ok { OnOk result (trace self.new ≡ noted (Changed file (ShortenedTo size)) (trace self.old)) }
        ensures err { OnErr result
            (MayBeMade (Changed file (ShortenedTo size)) (trace self.old) (trace self.new)) };

    /// Grows a file with zeros to a size; never makes it shorter. If there is no room, the file keeps the bytes that it
    /// has.
    fn grow(&mut self, file: usize, size: usize) -> Result<Attempt, ErrorKind>
        ensures ok { IfOk result (λ attempt. trace self.new
            ≡ noted (attempted file (GrewTo size) attempt) (trace self.old)) }
        ensures err { OnErr result
            (MayBeMade (Changed file (GrewTo size)) (trace self.old) (trace self.new)) };

    /// Writes bytes that the file already has at this offset, and that don't change meanwhile. The next sync then
    /// writes them to the medium, even if an earlier sync of them failed.
    fn write_back(&mut self, file: usize, offset: usize, bytes: &[u8]) -> Result<(), ErrorKind>
        requires same { HasBytes file offset bytes.now (held_by (trace self.old)).seen }
        ensures ok { OnOk result (trace self.new ≡ noted (WroteBack file offset bytes.now) (trace self.old)) }
        ensures err { OnErr result
            (MayBeMade (WroteBack file offset bytes.now) (trace self.old) (trace self.new)) };

    /// Makes a file's bytes durable.
    fn sync(&mut self, file: usize) -> Result<(), ErrorKind>
        ensures ok { OnOk result (trace self.new ≡ noted (Synced file) (trace self.old)) }
        ensures err { OnErr result (MayBeMade (Synced file) (trace self.old) (trace self.new)) };

    /// Closes a file: drops what is kept for calls on it. Nothing changes on the device.
    fn close(&mut self, file: usize)
        ensures { trace self.new ≡ trace self.old };
}
