//! Reading one log file.

ghost use Rattle.std.specs.Prelude.{◌≡◌, ◌≤◌, ℕ, length, IsTrue, IfOk, IfErr, OnOk};
ghost use Rattle.raft_log_fs.specs.Reading.{AreReadable, FillsRoom, IsOpened, IsSize};
ghost use Rattle.raft_log_fs.specs.Receipts.{Collects};
ghost use Rattle.raft_log_fs.specs.Touching.{HasFile};
ghost use Rattle.raft_log_file_writer.specs.Reader.{AreBytesAt, BeginsWithHeader, GivesFormat, IsBlockRefusal, IsFormatRefusal, IsOpenRefusal, IsReadRefusal, IsSizeRefusal};

use raft_log_file_format::LogFileFormat;
use raft_log_fs::{FileSystem, Handle, Permission, Receipt};
use raft_log_record_base::{Error, FileBlockHandle, Result};
use std::alloc::Global;
use std::io::ErrorKind;

/// The length of the longest header in bytes.
const MAX_HEADER_LEN: usize = 69;

/// Opens a file for reading. Fails with `Io(NotFound)` if no file has the path, with `Io` if the file system has
/// stopped, or with `Memory`.
pub fn build_file_reader<F: FileSystem>(file_system: &F, path: &str) -> Result<LogFileReader>
    ensures ok { IfOk result (λ reader. IsOpened path.now Permission.ReadOnly reader.handle
        (F.disk file_system.now)) }
    ensures err { IfErr result (λ error. IsOpenRefusal path.now (F.disk file_system.now) error) }
{
    let handle = open_file(file_system, path, Permission::ReadOnly)?;
    Ok(LogFileReader::open(handle))
}

/// Opens a file. Fails with `Memory` for lack of memory, and otherwise with `Io` and the file system's kind.
pub(crate) fn open_file<F: FileSystem>(
    file_system: &F,
    path: &str,
    permission: Permission,
) -> Result<Handle>
    ensures ok { IfOk result (λ handle. IsOpened path.now permission handle (F.disk file_system.now)) }
    ensures err { IfErr result (λ error. IsOpenRefusal path.now (F.disk file_system.now) error) }
{
    match file_system.open(path, permission) {
        Ok(handle) => Ok(handle),
        Err(kind) if kind == ErrorKind::OutOfMemory => Err(Error::Memory),
        Err(kind) => Err(Error::Io(kind)),
    }
}

/// A log file that is open for reading at any offset. Its calls borrow the file system. Each call that reads bytes adds
/// its receipt to the caller's.
///
/// A failed read isn't retried. A read fails if the file system has stopped, the file was deleted, or a byte is
/// unreadable.
#[derive(Clone, Copy, Debug, PartialEq, Eq)]
pub struct LogFileReader {
    handle: Handle,
}

impl LogFileReader {
    /// A reader of an open file.
    pub fn open(handle: Handle) -> LogFileReader
        ensures { result.handle ≡ handle }
    {
        LogFileReader { handle }
    }

    /// Reads the format from the header. If the file begins with no header, fails on the first of these: other magic
    /// bytes, a truncated version number (`Codec`), an unknown version, a truncated alignment. It can also fail with
    /// `Io` or `Memory`.
    pub fn parse_format<F: FileSystem>(
        &self,
        alloc: Global,
        file_system: &F,
        receipts: &mut Receipt,
    ) -> Result<LogFileFormat>
        ensures ok { IfOk result (λ format. IsTrue receipts.new.honest
            → HasFile self.now.handle.file (BeginsWithHeader format) (F.disk file_system.now)) }
        ensures exact { IfOk result (λ format. IsTrue receipts.new.honest
            → HasFile self.now.handle.file (GivesFormat format) (F.disk file_system.now)) }
        ensures err { IfErr result (λ error. IsFormatRefusal receipts.new.honest self.now.handle
            (F.disk file_system.now) error) }
        ensures receipts { Collects F.tells_truth receipts.old.honest receipts.new.honest }
    {
        let mut bytes = [0u8; MAX_HEADER_LEN];
        let count = self.read_to(file_system, 0, &mut bytes, receipts)?;
        let mut source: &[u8] = &bytes[..count];
        LogFileFormat::decode(alloc, &mut source)
    }

    /// The bytes of a block; fewer if the file ends before the block does. Fails with `Io` or `Memory`.
    pub fn read<F: FileSystem>(
        &self,
        alloc: Global,
        file_system: &F,
        block: FileBlockHandle,
        receipts: &mut Receipt,
    ) -> Result<Vec<u8>>
        ensures ok { IfOk result (λ bytes. IsTrue receipts.new.honest → HasFile self.now.handle.file
            (AreBytesAt block.offset block.len bytes.items) (F.disk file_system.now)) }
        ensures err { IfErr result (λ error. IsBlockRefusal self.now.handle block.offset block.len
            (F.disk file_system.now) error) }
        ensures receipts { Collects F.tells_truth receipts.old.honest receipts.new.honest }
    {
        let mut bytes = Vec::new(alloc);
        self.read_over(file_system, block, &mut bytes, receipts)?;
        Ok(bytes)
    }

    /// Replaces the contents of `bytes` with the bytes of a block; fewer if the file ends before the block does. Fails
    /// with `Io` or `Memory`; then `bytes` may hold anything.
    pub fn read_over<F: FileSystem>(
        &self,
        file_system: &F,
        block: FileBlockHandle,
        bytes: &mut Vec<u8>,
        receipts: &mut Receipt,
    ) -> Result<()>
        ensures ok { OnOk result (IsTrue receipts.new.honest → HasFile self.now.handle.file
            (AreBytesAt block.offset block.len bytes.new.items) (F.disk file_system.now)) }
        ensures err { IfErr result (λ error. IsBlockRefusal self.now.handle block.offset block.len
            (F.disk file_system.now) error) }
        ensures receipts { Collects F.tells_truth receipts.old.honest receipts.new.honest }
    {
        bytes.resize(block.len, 0)?;
        let count = self.read_to(file_system, block.offset, bytes, receipts)?;
        bytes.truncate(count);
        Ok(())
    }

    /// Reads bytes from an offset on until the room is full or the file ends. Returns how many. Fails only with `Io`.
    pub fn read_to<F: FileSystem>(
        &self,
        file_system: &F,
        offset: u64,
        room: &mut [u8],
        receipts: &mut Receipt,
    ) -> Result<usize>
        ensures within { IfOk result (λ count. count ≤ length room.old) }
        ensures ok { IfOk result (λ count. IsTrue receipts.new.honest → FillsRoom self.now.handle.file offset
            (F.disk file_system.now) room.old room.new count) }
        ensures readable { IfOk result (λ count. AreReadable self.now.handle.file offset count
            (F.disk file_system.now)) }
        ensures err { IfErr result (λ error. IsReadRefusal self.now.handle offset (length room.old)
            (F.disk file_system.now) error) }
        ensures receipts { Collects F.tells_truth receipts.old.honest receipts.new.honest }
    {
        let read = file_system.read_at(self.handle, offset as usize, room)?;
        receipts.note(&read.receipt);
        Ok(read.count)
    }

    /// The size of the file in bytes. Fails only with `Io`.
    pub fn file_size<F: FileSystem>(&self, file_system: &F) -> Result<usize>
        ensures ok { IfOk result (λ size. IsSize self.now.handle.file (F.disk file_system.now) size) }
        ensures err { IfErr result (λ error. IsSizeRefusal self.now.handle (F.disk file_system.now) error) }
    {
        Ok(file_system.file_size(self.handle)?)
    }
}
