//! A reader of the batches of a log file.
ghost use Rattle.std.specs.Prelude.{◌≡◌, ◌≤◌, length, None, Some, Ok, ◌<◌, IsOk, IsTrue, OnOk, OnSome, IfOk, IfErr, OnErr};
ghost use Rattle.raft_log_fs.specs.Receipts.{Collects};
ghost use Rattle.raft_log_record_frames.specs.Record.{block_of};
ghost use Rattle.raft_log_record_base.specs.Files.{no_block};

use crate::batch::{find_record, read_batch};
use crate::foreign::{ForeignRecord, find_foreign};
use crate::header::read_format;
use crate::open_file::OpenFile;
use crate::source::Source;
use crate::window::Window;
use raft_log_file_format::LogFileFormat;
use raft_log_fs::{FileSystem, Handle};
use raft_log_record_base::{FileBlockHandle, FileId, LogQueue, Result};
use raft_log_record_batches::LogItemBatch;
use raft_log_record_frames::decode_entries_block;
use raft_log_record_items::CompressionType;
use std::alloc::Global;

/// A reader of the batches of a log file, one file after another. It reads blocks into one buffer that is kept; the
/// batches don't depend on the block size.
///
/// While a file is open, calls must get the file system as it was when the file was opened.
#[derive(Drop, Debug)]
pub struct LogItemBatchFileReader {
    window: Window,
    file: Option<OpenFile>,
    valid_offset: usize,
    last_block: FileBlockHandle,
}

/// The location of a block without bytes.
fn no_block() -> FileBlockHandle
    ensures { result ≡ no_block }
{
    FileBlockHandle {
        id: FileId::new(LogQueue::Append, 0),
        offset: 0,
        len: 0,
    }
}

impl LogItemBatchFileReader {
    ghost use Rattle.raft_log_fs.specs.Disk.{Disk};
    ghost use Rattle.raft_log_file_reader.specs.Reader.{IsReading, HasNoneOpen, IsUnmoved, Opens, AnswersBatch, IsInsideFile, file_of, end_of, last_block, honest_of};
    ghost use Rattle.raft_log_file_reader.specs.Source.{bytes_of, CannotRead};
    ghost use Rattle.raft_log_file_reader.specs.Batches.{HasBlock};
    ghost use Rattle.raft_log_file_reader.specs.Foreign.{FindsForeign, IsOffsetInside};
    ghost use Rattle.raft_log_file_reader.specs.Opening.{FailsToOpen};
    ghost use Rattle.raft_log_file_reader.specs.Refused.{FailsBehind, FailsToCheckBlock, bytes_at};

    /// A reader without a file. It reads `read_block_size` bytes at once, or as many as are needed. It reads fewer at
    /// the file's end, and after it skipped long entries.
    pub fn new(alloc: Global, read_block_size: usize) -> Self
        ensures closed { HasNoneOpen result }
        ensures reading { (d : Disk) → IsReading d result }
        ensures none { last_block result ≡ no_block }
        ensures honest { IsTrue (honest_of result) }
    {
        LogItemBatchFileReader {
            window: Window::new(alloc, read_block_size),
            file: None,
            valid_offset: 0,
            last_block: no_block(),
        }
    }

    /// Closes the file, if one is open. The last block stays.
    pub fn reset(&mut self)
        ensures closed { HasNoneOpen self.new }
        ensures reading { (d : Disk) → IsReading d self.new }
        ensures last { last_block self.new ≡ last_block self.old }
        ensures honest { IsTrue (honest_of self.new) }
    {
        self.window.restart();
        self.file = None;
        self.valid_offset = 0;
    }

    /// Opens the file of a handle, and returns the format that its header states. Reads at most its first 69 bytes, and
    /// keeps none of them.
    ///
    /// Fails with `Io` if the size or these bytes can't be read, with `Memory`, or with the header's fault. Then no
    /// file is open.
    pub fn open<F: FileSystem>(
        &mut self,
        alloc: Global,
        file_system: &F,
        id: FileId,
        handle: Handle,
    ) -> Result<LogFileFormat>
        ensures ok { IfOk result (λ format. Opens id handle (F.disk file_system.now) format self.new) }
        ensures reading { IsReading (F.disk file_system.now) self.new }
        ensures err { IfErr result (λ error. IsTrue (honest_of self.new)
            → FailsToOpen handle (F.disk file_system.now) error) }
        ensures closed { OnErr result (HasNoneOpen self.new) }
        ensures last { last_block self.new ≡ last_block self.old }
        ensures receipts { F.tells_truth → IsTrue (honest_of self.new) }
    {
        self.reset();
        let size = file_system.file_size(handle)?;
        let source = Source { handle, size };
        match read_format(alloc, file_system, source, &mut self.window) {
            Ok((format, end)) => {
                self.window.begin(0);
                self.file = Some(OpenFile { id, source, format });
                self.valid_offset = end;
                Ok(format)
            }
            Err(error) => Err(error),
        }
    }

    /// The next batch, with the locations of its entries. `None` if the file has no more than padding, or if no file is
    /// open. The entries' bytes aren't checked.
    ///
    /// Fails with `Io` if a read fails, with `Memory`, or with `Codec` or `Corruption` for the next record's fault.
    /// Then the reader is unmoved: it has the same file, offset and last block.
    pub fn next<F: FileSystem>(
        &mut self,
        alloc: Global,
        file_system: &F,
    ) -> Result<Option<LogItemBatch>>
        requires { IsReading (F.disk file_system.now) self.old }
        ensures reading { IsReading (F.disk file_system.now) self.new }
        ensures file { file_of self.new ≡ file_of self.old }
        ensures ok { (file : OpenFile) → file_of self.old ≡ Some file
            → IfOk result (λ found. IsTrue (honest_of self.new)
            → AnswersBatch (F.disk file_system.now) file self.old self.new found) }
        ensures err { (file : OpenFile) → file_of self.old ≡ Some file
            → IfErr result (λ error. IsTrue (honest_of self.new)
            → FailsBehind file (F.disk file_system.now) (end_of self.old) error) }
        ensures stays { OnErr result (IsUnmoved self.old self.new) }
        ensures further { IfOk result (λ found. OnSome found (end_of self.old < end_of self.new)) }
        ensures closed { file_of self.old ≡ None → (result ≡ Ok None) × (self.new ≡ self.old) }
        ensures block { (file : OpenFile) → file_of self.old ≡ Some file
            → IfOk result (λ found. OnSome found (IsTrue (honest_of self.new)
            → HasBlock file (bytes_of file.source (F.disk file_system.now)) (end_of self.old) (last_block self.new))) }
        ensures inside { IfOk result (λ found. OnSome found (IsInsideFile (last_block self.new) self.new)) }
        ensures receipts { Collects F.tells_truth (honest_of self.old) (honest_of self.new) }
    {
        let Some(file) = self.file else {
            return Ok(None);
        };
        let at = find_record(
            alloc,
            file_system,
            &file,
            &mut self.window,
            self.valid_offset,
        )?;
        if at == file.source.size {
            return Ok(None);
        }
        let (len, block, batch) = read_batch(alloc, file_system, &file, &mut self.window, at)?;
        self.valid_offset = at + len;
        self.last_block = block;
        Ok(Some(batch))
    }

    /// Checks the entry block at a location inside the open file, which a batch stated. If it succeeds, the batch's
    /// record is whole. Reads the whole block into memory. If no file is open, checks nothing.
    ///
    /// Fails with `Corruption` if the block has bytes and is too short for a checksum, or if its checksum isn't that of
    /// its entries. Also fails with `Io` if a read fails, or with `Memory`. The reader is unmoved.
    pub fn check_entry_block<F: FileSystem>(
        &mut self,
        alloc: Global,
        file_system: &F,
        block: FileBlockHandle,
    ) -> Result<()>
        requires reading { IsReading (F.disk file_system.now) self.old }
        requires inside { IsInsideFile block self.old }
        ensures reading { IsReading (F.disk file_system.now) self.new }
        ensures same { IsUnmoved self.old self.new }
        ensures closed { file_of self.old ≡ None → IsOk result × (self.new ≡ self.old) }
        ensures ok { (file : OpenFile) → file_of self.old ≡ Some file
            → OnOk result (IsTrue (honest_of self.new)
            → IsOk (block_of (bytes_at block file (F.disk file_system.now)))) }
        ensures err { (file : OpenFile) → file_of self.old ≡ Some file
            → IfErr result (λ error. IsTrue (honest_of self.new)
            → FailsToCheckBlock block file (F.disk file_system.now) error) }
        ensures receipts { Collects F.tells_truth (honest_of self.old) (honest_of self.new) }
    {
        let Some(file) = self.file else {
            return Ok(());
        };
        let offset = block.offset as usize;
        self.window
            .peek(file_system, file.source, offset, block.len, 0)?;
        let bytes = self.window.held(offset, block.len);
        let _entries = decode_entries_block(alloc, bytes, CompressionType::None)?;
        Ok(())
    }

    /// The next record of the open file after an offset inside it, if that record is foreign: whole by its length and
    /// its checksum, but with a compression that isn't read. `None` if it isn't foreign, or if no file is open.
    ///
    /// Fails with `Io` if a read fails, or with `Memory`. The reader is unmoved.
    pub fn foreign_record<F: FileSystem>(
        &mut self,
        alloc: Global,
        file_system: &F,
        offset: usize,
    ) -> Result<Option<ForeignRecord>>
        requires reading { IsReading (F.disk file_system.now) self.old }
        requires inside { IsOffsetInside offset self.old }
        ensures reading { IsReading (F.disk file_system.now) self.new }
        ensures same { IsUnmoved self.old self.new }
        ensures closed { file_of self.old ≡ None → (result ≡ Ok None) × (self.new ≡ self.old) }
        ensures ok { (file : OpenFile) → file_of self.old ≡ Some file
            → IfOk result (λ found. IsTrue (honest_of self.new)
            → FindsForeign file (bytes_of file.source (F.disk file_system.now)) offset found) }
        ensures err { (file : OpenFile) → file_of self.old ≡ Some file
            → IfErr result (λ error. IsTrue (honest_of self.new)
            → CannotRead file.source offset (F.disk file_system.now) error) }
        ensures receipts { Collects F.tells_truth (honest_of self.old) (honest_of self.new) }
    {
        let Some(file) = self.file else {
            return Ok(None);
        };
        find_foreign(alloc, file_system, &file, &mut self.window, offset)
    }

    /// The location of the entry block of the last batch, of any file; a block without bytes if there was no batch.
    pub fn last_block(&self) -> FileBlockHandle
        ensures { result ≡ last_block self.now }
    {
        self.last_block
    }

    /// Where the last valid record that was read ends; if none was read, where the header ends; 0 if no file is open.
    pub fn valid_offset(&self) -> usize
        ensures { result ≡ end_of self.now }
    {
        self.valid_offset
    }
}
