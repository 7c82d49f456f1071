//! The part of a file's bytes that a reader keeps.
ghost use Rattle.std.specs.Prelude.{◌≡◌, ◌+◌, ◌-◌, ◌≤◌, ◌<◌, ◌^◌, ◌++◌, [], List, ℕ, length, take, drop, min, vec_len, IsTrue, OnOk, IfErr};
ghost use Rattle.raft_log_fs.specs.Receipts.{Collects};
ghost use Rattle.raft_log_file_reader.specs.Window.{IsPart, Covers};
ghost use Rattle.raft_log_file_reader.specs.Source.{bytes_of, CannotRead, CannotReadPart};

use crate::source::Source;
use raft_log_fs::{FileSystem, Receipt};
use raft_log_record_base::{Error, Result};
use std::alloc::Global;
use std::io::ErrorKind;

/// If a read skips more than this many bytes, as after long entries, it reads less than a block.
const SKIPPED: usize = 1_024;

/// How many bytes such a read reads at once if fewer are needed.
const BEHIND_SKIPPED: usize = 256;

/// The part of a file's bytes that a reader keeps, in one buffer that is reused.
#[derive(Drop, Debug)]
pub(crate) struct Window {
    /// The bytes.
    bytes: Vec<u8>,
    /// The offset of the first of them in the file.
    start: usize,
    /// How many bytes are read at once if fewer are needed.
    block_size: usize,
    /// Covers every read of the file, also those whose bytes were dropped.
    receipt: Receipt,
}

impl Window {
    ghost use Rattle.raft_log_file_reader.specs.Holding.{HoldsPart};

    /// An empty window.
    pub fn new(alloc: Global, block_size: usize) -> Self
        ensures bytes { result.bytes.items ≡ [] }
        ensures start { result.start ≡ 0 }
        ensures block { result.block_size ≡ block_size }
        ensures receipt { IsTrue result.receipt.honest }
    {
        Window {
            bytes: Vec::new(alloc),
            start: 0,
            block_size,
            receipt: Receipt::none(),
        }
    }

    /// Empties the window, and moves it to an offset.
    pub fn begin(&mut self, offset: usize)
        ensures bytes { self.new.bytes.items ≡ [] }
        ensures start { self.new.start ≡ offset }
        ensures block { self.new.block_size ≡ self.old.block_size }
        ensures receipt { self.new.receipt ≡ self.old.receipt }
    {
        self.bytes.clear();
        self.start = offset;
    }

    /// Empties the window for another file, of which nothing was read yet.
    pub fn restart(&mut self)
        ensures bytes { self.new.bytes.items ≡ [] }
        ensures start { self.new.start ≡ 0 }
        ensures block { self.new.block_size ≡ self.old.block_size }
        ensures receipt { IsTrue self.new.receipt.honest }
    {
        self.begin(0);
        self.receipt = Receipt::none();
    }

    /// The offset in the file at which the kept bytes end.
    fn end(&self) -> usize
        requires { self.now.start + length self.now.bytes.items < 2 ^ 64 }
        ensures { result ≡ self.now.start + length self.now.bytes.items }
    {
        self.start + self.bytes.len()
    }

    /// Fills the window with `size` bytes of the file from an offset on, and with up to `prefetch` bytes after them,
    /// fewer if the file ends first. If it fails, the window holds a part of the file.
    ///
    /// It reads only if the window lacks some of these bytes. A read drops the bytes before the offset. If the offset
    /// isn't within the window, the window begins anew there. A read takes at least a block, up to the file's end. It
    /// takes less if it skips long entries.
    pub fn peek<F: FileSystem>(
        &mut self,
        file_system: &F,
        source: Source,
        offset: usize,
        size: usize,
        prefetch: usize,
    ) -> Result<()>
        requires part { HoldsPart source (F.disk file_system.now) self.old }
        requires inside { offset + size ≤ source.size }
        ensures part { HoldsPart source (F.disk file_system.now) self.new }
        ensures ok { OnOk result (Covers self.new.start self.new.bytes.items offset size) }
        ensures ahead { OnOk result (Covers self.new.start self.new.bytes.items offset
            (size + min prefetch (source.size - (offset + size)))) }
        ensures err { IfErr result (λ error. IsTrue self.new.receipt.honest
            → CannotRead source offset (F.disk file_system.now) error) }
        ensures block { self.new.block_size ≡ self.old.block_size }
        ensures receipts { Collects F.tells_truth self.old.receipt.honest self.new.receipt.honest }
    {
        let end = offset + size;
        let wanted = end + prefetch.min(source.size - end);
        if self.start <= offset && wanted <= self.end() {
            return Ok(());
        }
        let at_once = self.at_once(offset);
        self.move_to(offset);
        let missing = wanted.saturating_sub(self.end());
        let room = missing.max(at_once).min(source.size - self.end());
        self.read_on(file_system, source, room)
    }

    /// How many bytes are read at once from an offset on: a block, or fewer if many bytes between the window and the
    /// offset are skipped.
    fn at_once(&self, offset: usize) -> usize
        requires { self.now.start + length self.now.bytes.items < 2 ^ 64 }
        ensures { result ≤ self.now.block_size }
    {
        if offset > self.end().saturating_add(SKIPPED) {
            return self.block_size.min(BEHIND_SKIPPED);
        }
        self.block_size
    }

    /// Drops the bytes before an offset, or all bytes if the offset isn't within the window.
    fn move_to(&mut self, offset: usize)
        requires { self.old.start + length self.old.bytes.items < 2 ^ 64 }
        ensures start { self.new.start ≡ offset }
        ensures part { (content : List ℕ) → offset ≤ length content
            → IsPart self.old.start self.old.bytes.items content
            → IsPart self.new.start self.new.bytes.items content }
        ensures inside { (size : ℕ) → offset ≤ size → self.old.start + length self.old.bytes.items ≤ size
            → self.new.start + length self.new.bytes.items ≤ size }
        ensures block { self.new.block_size ≡ self.old.block_size }
        ensures receipt { self.new.receipt ≡ self.old.receipt }
    {
        if self.start <= offset && offset <= self.end() {
            self.drop_front(offset);
        } else {
            self.begin(offset);
        }
    }

    /// Drops the bytes before an offset.
    fn drop_front(&mut self, offset: usize)
        requires front { self.old.start ≤ offset }
        requires back { offset ≤ self.old.start + length self.old.bytes.items }
        ensures bytes { self.new.bytes.items ≡ drop (offset - self.old.start) self.old.bytes.items }
        ensures start { self.new.start ≡ offset }
        ensures block { self.new.block_size ≡ self.old.block_size }
        ensures receipt { self.new.receipt ≡ self.old.receipt }
    {
        let dropped = offset - self.start;
        let left = self.bytes.len() - dropped;
        self.bytes.copy_within(dropped.., 0);
        self.bytes.truncate(left);
        self.start = offset;
    }

    /// Reads `room` bytes after those in the window. If it fails, the window has the same bytes as before.
    pub fn read_on<F: FileSystem>(
        &mut self,
        file_system: &F,
        source: Source,
        room: usize,
    ) -> Result<()>
        requires part { HoldsPart source (F.disk file_system.now) self.old }
        requires inside { self.old.start + length self.old.bytes.items + room ≤ source.size }
        ensures part { HoldsPart source (F.disk file_system.now) self.new }
        ensures start { self.new.start ≡ self.old.start }
        ensures ok { OnOk result (length self.new.bytes.items ≡ length self.old.bytes.items + room) }
        ensures err { IfErr result (λ error. IsTrue self.new.receipt.honest → CannotRead source
            (self.old.start + length self.old.bytes.items) (F.disk file_system.now) error) }
        ensures unread { IfErr result (λ error. IsTrue self.new.receipt.honest → CannotReadPart source
            (self.old.start + length self.old.bytes.items) room (F.disk file_system.now) error) }
        ensures block { self.new.block_size ≡ self.old.block_size }
        ensures receipts { Collects F.tells_truth self.old.receipt.honest self.new.receipt.honest }
    {
        let held = self.bytes.len();
        self.bytes.resize(held + room, 0)?;
        let at = self.start + held;
        match fill(
            file_system,
            source,
            at,
            &mut self.bytes[held..],
            &mut self.receipt,
        ) {
            Ok(()) => Ok(()),
            Err(error) => {
                self.bytes.truncate(held);
                Err(error)
            }
        }
    }

    /// The `size` bytes from an offset on, which the window has.
    pub fn held(&self, offset: usize, size: usize) -> &[u8]
        requires { Covers self.now.start self.now.bytes.items offset size }
        ensures bytes { (content : List ℕ) → IsPart self.now.start self.now.bytes.items content
            → result.now ≡ take size (drop offset content) }
        ensures len { length result.now ≡ size }
    {
        let at = offset - self.start;
        &self.bytes[at..at + size]
    }
}

/// Fills the room with the file's bytes from an offset on. Fails with `UnexpectedEof` if a read returns fewer.
fn fill<F: FileSystem>(
    file_system: &F,
    source: Source,
    at: usize,
    room: &mut [u8],
    receipts: &mut Receipt,
) -> Result<()>
    requires size { source.size ≡ length (bytes_of source (F.disk file_system.now)) }
    requires inside { at + length room.old ≤ source.size }
    ensures ok { OnOk result (IsTrue receipts.new.honest
        → room.new ≡ take (length room.old) (drop at (bytes_of source (F.disk file_system.now)))) }
    ensures err { IfErr result (λ error. IsTrue receipts.new.honest
        → CannotRead source at (F.disk file_system.now) error) }
    ensures unread { IfErr result (λ error. IsTrue receipts.new.honest
        → CannotReadPart source at (length room.old) (F.disk file_system.now) error) }
    ensures receipts { Collects F.tells_truth receipts.old.honest receipts.new.honest }
{
    let wanted = room.len();
    match file_system.read_at(source.handle, at, room) {
        Ok(read) => {
            receipts.note(&read.receipt);
            if read.count < wanted {
                return Err(Error::Io(ErrorKind::UnexpectedEof));
            }
            Ok(())
        }
        Err(kind) => Err(Error::Io(kind)),
    }
}
