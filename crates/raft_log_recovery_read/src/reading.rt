//! Reading a log file that was found.

ghost use Rattle.std.specs.Prelude.{◌≡◌, ◌↔◌, None, Some, IfOk, IfErr, IsTrue, OnOk};
ghost use Rattle.raft_log_fs.specs.Receipts.{Collects};
ghost use Rattle.raft_log_record_base.specs.Fault.Fault.{corrupt};
ghost use Rattle.raft_log_record_base.specs.declared.errors.Error.TheVariants.{Memory};
ghost use Rattle.raft_log_file_reader.specs.Reader.{IsReading, file_of, end_of, honest_of};
ghost use Rattle.raft_log_file_reader.specs.Source.{bytes_in, CannotRead};
ghost use Rattle.raft_log_file_reader.specs.declared.open_file.OpenFile.{OpenFile};
ghost use Rattle.raft_log_recovery_read.specs.Behind.{HasFileOpen, KeepsFile, WasReadBehind};
ghost use Rattle.raft_log_recovery_read.specs.Faults.{TellsFault};
ghost use Rattle.raft_log_recovery_read.specs.Reading.{FileReading, HasTornHeader, ReadsFileAs, torn_header};
ghost use Rattle.raft_log_recovery_read.specs.Foreign.{FailsToReadRecords, StopsAtNoForeign};
ghost use Rattle.raft_log_recovery_read.specs.Handed.{WasHanded};
ghost use Rattle.raft_log_file_format.specs.Header.{first_format};

use crate::behind::{Behind, read_earlier, read_last};
use crate::damage::damage;
use crate::foreign::refuse_foreign;
use crate::found_file::{FoundFile, ListedFile};
use raft_log_file_format::LogFileFormat;
use raft_log_file_reader::LogItemBatchFileReader;
use raft_log_fs::FileSystem;
use raft_log_record_base::{Error, FileId, Result};
use raft_log_replay::ReplayMachine;
use std::alloc::Global;

/// Reads a log file, and hands a machine its records up to its end, or to the first damaged one. Changes no file.
///
/// In the last file of a queue, it checks each record's entry block, and then hands the record on. In the others, it
/// hands each on after the next one is read, and checks only the last one's entry block. Their records were durable
/// before the next file began.
///
/// A last file whose header has an alignment, and no record after it, reads as one without a header. A power failure
/// may have torn the header's write.
///
/// Fails with `Io` if a read fails, which is never reported as damage, or with `Memory`. Fails with `Corruption` if a
/// foreign record follows the last good one: whole, but with a compression that isn't read. If it fails, the machine
/// may have been handed records. An error of the machine is returned in `declined`.
pub fn read_file<F: FileSystem, M: ReplayMachine>(
    alloc: Global,
    file_system: &F,
    reader: &mut LogItemBatchFileReader,
    file: ListedFile,
    machine: &mut M,
) -> Result<FoundFile>
    ensures ok { IfOk result (λ found. IsTrue (honest_of reader.new) → (reading : FileReading)
        × ReadsFileAs file.is_last file.id file.handle (F.disk file_system.now) reading
        × WasHanded (M.reads file.id.queue) (M.declines file.id.queue) file.id machine.old machine.new reading
        found) }
    ensures native { OnOk result (IsTrue (honest_of reader.new) → StopsAtNoForeign file.is_last file.id
        (bytes_in ((F.disk file_system.now).files file.handle.file))) }
    ensures err { IfErr result (λ error. IsTrue (honest_of reader.new)
        → FailsToReadRecords file.is_last file.id file.handle (F.disk file_system.now) error) }
    ensures receipts { F.tells_truth → IsTrue (honest_of reader.new) }
{
    match reader.open(alloc, file_system, file.id, file.handle) {
        Ok(format) => {
            let behind = read_behind(alloc, file_system, reader, file, machine)?;
            refuse_foreign(alloc, file_system, reader, file.id, behind.end)?;
            if has_torn_header(file.is_last, format, behind.is_bare) {
                let fault = torn_header(alloc)?;
                return Ok(without_header(fault, behind.declined));
            }
            Ok(FoundFile {
                format,
                end: Some(behind.end),
                fault: behind.fault,
                declined: behind.declined,
            })
        }
        Err(error) => {
            let fault = damage(error)?;
            Ok(without_header(fault, None))
        }
    }
}

/// Whether what reads as a header is a torn one: in the last file of a queue, with an alignment, and without a record
/// after it.
fn has_torn_header(is_last: bool, format: LogFileFormat, is_bare: bool) -> bool
    ensures { IsTrue result ↔ HasTornHeader is_last format is_bare }
{
    is_last && format.alignment != 0 && is_bare
}

/// The error for such a header. Fails only with `Memory`.
fn torn_header(alloc: Global) -> Result<Error>
    ensures ok { IfOk result (λ error. TellsFault error (corrupt torn_header)) }
    ensures err { IfErr result (λ error. error ≡ Memory) }
{
    let told = format!(in alloc; "log file header has an alignment, and no record after it")?;
    Ok(Error::Corruption(told))
}

/// What is found of a file without a header.
fn without_header(fault: Error, declined: Option<Error>) -> FoundFile
    ensures format { result.format ≡ first_format }
    ensures end { result.end ≡ None }
    ensures fault { result.fault ≡ Some fault }
    ensures declined { result.declined ≡ declined }
{
    FoundFile {
        format: LogFileFormat::default(),
        end: None,
        fault: Some(fault),
        declined,
    }
}

/// Passes the records after the header of the open file to the machine.
fn read_behind<F: FileSystem, M: ReplayMachine>(
    alloc: Global,
    file_system: &F,
    reader: &mut LogItemBatchFileReader,
    file: ListedFile,
    machine: &mut M,
) -> Result<Behind>
    requires reading { IsReading (F.disk file_system.now) reader.old }
    requires open { HasFileOpen reader.old }
    ensures ok { (opened : OpenFile) → file_of reader.old ≡ Some opened
        → IfOk result (λ behind. IsTrue (honest_of reader.new)
        → WasReadBehind file.is_last (M.reads file.id.queue) (M.declines file.id.queue) file.id
        machine.old machine.new (F.disk file_system.now) opened (end_of reader.old) behind) }
    ensures err { (opened : OpenFile) → file_of reader.old ≡ Some opened
        → IfErr result (λ error. IsTrue (honest_of reader.new)
        → CannotRead opened.source 0 (F.disk file_system.now) error) }
    ensures kept { IfOk result (λ behind.
        KeepsFile (F.disk file_system.now) reader.old reader.new behind.end) }
    ensures receipts { Collects F.tells_truth (honest_of reader.old) (honest_of reader.new) }
{
    if file.is_last {
        read_last(alloc, file_system, reader, file.id, machine)
    } else {
        read_earlier(alloc, file_system, reader, file.id, machine)
    }
}
