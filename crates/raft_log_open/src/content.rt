//! The bytes of a log file without the padding between its records.

ghost use Rattle.std.specs.Prelude.{◌≡◌, ◌↔◌, ◌+◌, ◌≤◌, ◌&&◌, length, Some, IsTrue, OnOk, IfOk, IfErr, MatchBool, MatchOption};
ghost use Rattle.raft_log_fs.specs.Receipts.{Collects};
ghost use Rattle.raft_log_record_base.specs.declared.errors.Error.TheVariants.{Memory};
ghost use Rattle.raft_log_file_reader.specs.Reader.{IsReading, file_of, end_of, honest_of};
ghost use Rattle.raft_log_file_reader.specs.Source.{bytes_in, bytes_of, CannotRead};
ghost use Rattle.raft_log_file_reader.specs.declared.open_file.OpenFile.{OpenFile};
ghost use Rattle.raft_log_recovery_read.specs.Behind.{HasFileOpen};
ghost use Rattle.raft_log_recovery_read.specs.Faults.{IsDamage};
ghost use Rattle.raft_log_recovery_read.specs.Foreign.{FailsToReadRecords};
ghost use Rattle.raft_log_recovery_read.specs.Reading.{FailsToRead};
ghost use Rattle.raft_log_open.specs.Content.{IsPadded, IsWithoutPadding};
ghost use Rattle.raft_log_open.specs.PaddingReading.{FindsNext, HasOpen, Joins, NeedsBytes, NeedsNothing, content_of};

use crate::passing::Passing;
use raft_log_file_format::LogFileFormat;
use raft_log_file_reader::LogItemBatchFileReader;
use raft_log_fs::{FileSystem, Handle, Judged, Receipt};
use raft_log_record_base::{Error, FileBlockHandle, Result};
use raft_log_record_frames::LOG_BATCH_HEADER_LEN;
use raft_log_recovery_read::{ListedFile, read_file};
use std::alloc::Global;
use std::io::ErrorKind;
use std::snapshot::Snapshot;

/// How many bytes of a file are read at a time.
const READ_BLOCK_SIZE: usize = 1 << 16;

/// What follows the part of a file that was read.
#[derive(Drop)]
pub enum Next {
    /// A record, which begins at this offset.
    Record(usize),
    /// Nothing more.
    End,
    /// A record that is broken.
    Broken,
}

/// The contents of a log file without padding: a header without an alignment, then its records without gaps. If a
/// record is broken, all bytes from there on follow unchanged, so damage reads as before.
///
/// Returns `None` if the file's bytes can stay:
/// - it has no alignment, or no header, or
/// - it is the last file of its queue and has no whole record after its header: an open takes such a header for a torn
///   one.
///
/// Holds the file's bytes in memory twice. Changes nothing on disk. Fails with `Io` if they can't be read, with
/// `Corruption` if a foreign record follows the last good one, or with `Memory`. Adds every read to `receipts`.
pub fn unpadded<F: FileSystem>(
    alloc: Global,
    file_system: &F,
    file: ListedFile,
    receipts: &mut Receipt,
) -> Result<Option<Vec<u8>>>
    ensures ok { IfOk result (λ found. IsTrue receipts.new.honest
        → MatchOption found (NeedsNothing (F.disk file_system.now) file)
        (λ bytes. NeedsBytes (F.disk file_system.now) file bytes.items)) }
    ensures err { IfErr result (λ error. IsTrue receipts.new.honest
        → FailsToReadRecords file.is_last file.id file.handle (F.disk file_system.now) error) }
    ensures receipts { Collects F.tells_truth receipts.old.honest receipts.new.honest }
{
    let mut reader = LogItemBatchFileReader::new(alloc, READ_BLOCK_SIZE);
    if !is_padded(alloc, file_system, &mut reader, file, receipts)? {
        return Ok(None);
    }
    let made = without_padding(alloc, file_system, &mut reader, file, receipts);
    note_reads(&reader, receipts);
    match made {
        Ok(bytes) => Ok(Some(bytes)),
        Err(error) => Err(error),
    }
}

/// The reads of the file that a reader opened last.
#[derive(Drop)]
struct ReadsOfFile {
    reader: Snapshot<LogItemBatchFileReader>,
}

impl Judged for ReadsOfFile {
    ghost is_true = { λ reads. honest_of reads.reader.value };
}

/// Adds the reads of the file that the reader opened last to a receipt.
fn note_reads(reader: &LogItemBatchFileReader, receipts: &mut Receipt)
    ensures { receipts.new.honest ≡ (receipts.old.honest && honest_of reader.now) }
{
    receipts.note(&Receipt::judged(&ReadsOfFile {
        reader: Snapshot::of(reader),
    }));
}

/// Whether a file reads as one with an alignment.
fn is_padded<F: FileSystem>(
    alloc: Global,
    file_system: &F,
    reader: &mut LogItemBatchFileReader,
    file: ListedFile,
    receipts: &mut Receipt,
) -> Result<bool>
    ensures ok { IfOk result (λ padded. IsTrue receipts.new.honest → MatchBool padded
        (IsPadded file.is_last file.id (content_of file (F.disk file_system.now)))
        (NeedsNothing (F.disk file_system.now) file)) }
    ensures err { IfErr result (λ error. IsTrue receipts.new.honest
        → FailsToReadRecords file.is_last file.id file.handle (F.disk file_system.now) error) }
    ensures receipts { Collects F.tells_truth receipts.old.honest receipts.new.honest }
{
    let mut passing = Passing;
    let read = read_file(alloc, file_system, reader, file, &mut passing);
    note_reads(reader, receipts);
    match read {
        Ok(found) => Ok(found.format.alignment != 0),
        Err(error) => Err(error),
    }
}

/// The contents of a file that has padding, without it. The reader opens the file anew, and reads its records. The read
/// of the whole file is added to `receipts`.
fn without_padding<F: FileSystem>(
    alloc: Global,
    file_system: &F,
    reader: &mut LogItemBatchFileReader,
    file: ListedFile,
    receipts: &mut Receipt,
) -> Result<Vec<u8>>
    ensures ok { IfOk result (λ bytes. IsTrue (honest_of reader.new) → IsTrue receipts.new.honest
        → IsWithoutPadding file.id (content_of file (F.disk file_system.now)) bytes.items) }
    ensures err { IfErr result (λ error. IsTrue (honest_of reader.new) → IsTrue receipts.new.honest
        → IsPadded file.is_last file.id (content_of file (F.disk file_system.now))
        → FailsToRead file.handle (F.disk file_system.now) error) }
    ensures reads { F.tells_truth → IsTrue (honest_of reader.new) }
    ensures receipts { Collects F.tells_truth receipts.old.honest receipts.new.honest }
{
    let format = reader.open(alloc, file_system, file.id, file.handle)?;
    let bytes = read_whole(alloc, file_system, file.handle, receipts)?;
    let mut new = Vec::new(alloc);
    LogFileFormat::new(format.version, 0).encode(alloc, &mut new)?;
    join_records(alloc, file_system, reader, bytes.as_slice(), &mut new)?;
    Ok(new)
}

/// All bytes of a file. Fails with `UnexpectedEof` if the read returns fewer.
fn read_whole<F: FileSystem>(
    alloc: Global,
    file_system: &F,
    handle: Handle,
    receipts: &mut Receipt,
) -> Result<Vec<u8>>
    ensures ok { IfOk result (λ bytes. IsTrue receipts.new.honest
        → bytes.items ≡ bytes_in ((F.disk file_system.now).files handle.file)) }
    ensures size { IfOk result (λ bytes.
        length bytes.items ≡ length (bytes_in ((F.disk file_system.now).files handle.file))) }
    ensures err { IfErr result (λ error. IsTrue receipts.new.honest
        → FailsToRead handle (F.disk file_system.now) error) }
    ensures receipts { Collects F.tells_truth receipts.old.honest receipts.new.honest }
{
    let size = file_system.file_size(handle)?;
    let mut bytes = vec![in alloc; 0u8; size]?;
    let read = file_system.read_at(handle, 0, bytes.as_mut_slice())?;
    receipts.note(&read.receipt);
    if read.count < size {
        return Err(Error::Io(ErrorKind::UnexpectedEof));
    }
    Ok(bytes)
}

/// Appends to `new` the records after what was read of the open file, without gaps. If one is broken, appends all bytes
/// from there on. `bytes` has the whole file. If it fails, some of them may have been appended.
fn join_records<F: FileSystem>(
    alloc: Global,
    file_system: &F,
    reader: &mut LogItemBatchFileReader,
    bytes: &[u8],
    new: &mut Vec<u8>,
) -> Result<()>
    requires reading { IsReading (F.disk file_system.now) reader.old }
    requires open { HasOpen reader.old bytes.now }
    ensures ok { (file : OpenFile) → file_of reader.old ≡ Some file
        → OnOk result (IsTrue (honest_of reader.new)
        → bytes.now ≡ bytes_of file.source (F.disk file_system.now)
        → Joins file bytes.now (end_of reader.old) new.old.items new.new.items) }
    ensures err { (file : OpenFile) → file_of reader.old ≡ Some file
        → IfErr result (λ error. IsTrue (honest_of reader.new)
        → CannotRead file.source 0 (F.disk file_system.now) error) }
    ensures receipts { Collects F.tells_truth (honest_of reader.old) (honest_of reader.new) }
{
    loop {
        match read_next(alloc, file_system, reader)? {
            Next::Record(start) => {
                let end = reader.valid_offset();
                new.extend_from_slice(&bytes[start..end])?;
            }
            Next::End => return Ok(()),
            Next::Broken => {
                let end = reader.valid_offset();
                new.extend_from_slice(&bytes[end..])?;
                return Ok(());
            }
        }
    }
}

/// Reads the next record of the open file, if there is one. It doesn't look at the entry block.
fn read_next<F: FileSystem>(
    alloc: Global,
    file_system: &F,
    reader: &mut LogItemBatchFileReader,
) -> Result<Next>
    requires reading { IsReading (F.disk file_system.now) reader.old }
    requires open { HasFileOpen reader.old }
    ensures reading { IsReading (F.disk file_system.now) reader.new }
    ensures file { file_of reader.new ≡ file_of reader.old }
    ensures ok { (file : OpenFile) → file_of reader.old ≡ Some file
        → IfOk result (FindsNext file (bytes_of file.source (F.disk file_system.now)) reader.old reader.new) }
    ensures err { (file : OpenFile) → file_of reader.old ≡ Some file
        → IfErr result (λ error. IsTrue (honest_of reader.new)
        → CannotRead file.source 0 (F.disk file_system.now) error) }
    ensures receipts { Collects F.tells_truth (honest_of reader.old) (honest_of reader.new) }
{
    match reader.next(alloc, file_system) {
        Ok(Some(_batch)) => {
            let start = start_of(alloc, reader.last_block(), reader.valid_offset())?;
            Ok(Next::Record(start))
        }
        Ok(None) => Ok(Next::End),
        Err(error) => {
            pass_damage(error)?;
            Ok(Next::Broken)
        }
    }
}

/// Where the record begins that has this entry block and ends at `end`. Fails with `Corruption` if it would begin
/// before the file or after `end`, or with `Memory`.
fn start_of(alloc: Global, block: FileBlockHandle, end: usize) -> Result<usize>
    ensures ok { IfOk result (λ start. (start + 16 ≡ block.offset) × (start ≤ end)) }
    ensures err { IfErr result (λ error. 16 ≤ block.offset → block.offset ≤ end + 16 → error ≡ Memory) }
{
    let offset = block.offset as usize;
    if offset < LOG_BATCH_HEADER_LEN || end < offset - LOG_BATCH_HEADER_LEN {
        return Err(Error::Corruption(format!(in alloc;
            "Entry block outside of its record: {offset}"
        )?));
    }
    Ok(offset - LOG_BATCH_HEADER_LEN)
}

/// Whether an error is damage in the bytes that were read.
fn is_damage(error: &Error) -> bool
    ensures { IsTrue result ↔ IsDamage error.now }
{
    matches!(error, Error::Corruption(_) | Error::Codec(_))
}

/// Fails with the error unless it is damage in the bytes that were read.
fn pass_damage(error: Error) -> Result<()>
    ensures ok { OnOk result (IsDamage error) }
    ensures err { IfErr result (λ other. (other ≡ error) × (IsDamage error → ⊥)) }
{
    if is_damage(&error) {
        return Ok(());
    }
    Err(error)
}
