//! Reading one more record of a log file.

ghost use Rattle.std.specs.Prelude.{◌≡◌, ℕ, Some, IfOk, IfErr, IsTrue};
ghost use Rattle.raft_log_fs.specs.Receipts.{Collects};
ghost use Rattle.raft_log_file_reader.specs.Reader.{IsReading, IsInsideFile, file_of, honest_of};
ghost use Rattle.raft_log_file_reader.specs.Source.{bytes_of, CannotRead};
ghost use Rattle.raft_log_file_reader.specs.Batches.{HasBlock};
ghost use Rattle.raft_log_file_reader.specs.declared.open_file.OpenFile.{OpenFile};
ghost use Rattle.raft_log_recovery_read.specs.Steps.{StandsAs, ChecksBlock, TakesNextBatch, TakesWholeRecord};

use crate::damage::damage;
use raft_log_file_reader::LogItemBatchFileReader;
use raft_log_fs::FileSystem;
use raft_log_record_base::{Error, FileBlockHandle, Result};
use raft_log_record_items::LogItem;
use std::alloc::Global;

/// What follows what was read of a file.
#[derive(Drop)]
pub(crate) enum Next {
    /// A record, with these items.
    Batch(Vec<LogItem>),
    /// Nothing more.
    End,
    /// What is wrong with the next record.
    Fault(Error),
}

/// Reads the next record. Its entry block isn't checked. Fails only with `Io` or `Memory`.
pub(crate) fn next_batch<F: FileSystem>(
    alloc: Global,
    file_system: &F,
    reader: &mut LogItemBatchFileReader,
) -> Result<Next>
    requires { IsReading (F.disk file_system.now) reader.old }
    ensures reading { IsReading (F.disk file_system.now) reader.new }
    ensures file { file_of reader.new ≡ file_of reader.old }
    ensures ok { (file : OpenFile) → file_of reader.old ≡ Some file
        → IfOk result (TakesNextBatch (F.disk file_system.now) file reader.old reader.new) }
    ensures err { (file : OpenFile) → file_of reader.old ≡ Some file
        → IfErr result (λ error. IsTrue (honest_of reader.new)
        → CannotRead file.source 0 (F.disk file_system.now) error) }
    ensures receipts { Collects F.tells_truth (honest_of reader.old) (honest_of reader.new) }
{
    match reader.next(alloc, file_system) {
        Ok(Some(batch)) => Ok(Next::Batch(batch.into_items())),
        Ok(None) => Ok(Next::End),
        Err(error) => Ok(Next::Fault(damage(error)?)),
    }
}

/// Checks the entry block of a record that was read, and returns what is wrong with it. Fails only with `Io` or
/// `Memory`.
pub(crate) fn check_block<F: FileSystem>(
    alloc: Global,
    file_system: &F,
    reader: &mut LogItemBatchFileReader,
    block: FileBlockHandle,
) -> Result<Option<Error>>
    requires reading { IsReading (F.disk file_system.now) reader.old }
    requires inside { IsInsideFile block reader.old }
    ensures same { StandsAs (F.disk file_system.now) reader.old reader.new }
    ensures ok { (file : OpenFile) (offset : ℕ) → file_of reader.old ≡ Some file
        → IfOk result (λ fault. IsTrue (honest_of reader.new)
        → HasBlock file (bytes_of file.source (F.disk file_system.now)) offset block
        → ChecksBlock file (bytes_of file.source (F.disk file_system.now)) offset fault) }
    ensures err { (file : OpenFile) → file_of reader.old ≡ Some file
        → IfErr result (λ error. IsTrue (honest_of reader.new)
        → CannotRead file.source 0 (F.disk file_system.now) error) }
    ensures receipts { Collects F.tells_truth (honest_of reader.old) (honest_of reader.new) }
{
    match reader.check_entry_block(alloc, file_system, block) {
        Ok(()) => Ok(None),
        Err(error) => Ok(Some(damage(error)?)),
    }
}

/// Reads the next record, and checks its entry block. Fails only with `Io` or `Memory`.
pub(crate) fn next_record<F: FileSystem>(
    alloc: Global,
    file_system: &F,
    reader: &mut LogItemBatchFileReader,
) -> Result<Next>
    requires { IsReading (F.disk file_system.now) reader.old }
    ensures reading { IsReading (F.disk file_system.now) reader.new }
    ensures file { file_of reader.new ≡ file_of reader.old }
    ensures ok { (file : OpenFile) → file_of reader.old ≡ Some file
        → IfOk result (TakesWholeRecord (F.disk file_system.now) file reader.old reader.new) }
    ensures err { (file : OpenFile) → file_of reader.old ≡ Some file
        → IfErr result (λ error. IsTrue (honest_of reader.new)
        → CannotRead file.source 0 (F.disk file_system.now) error) }
    ensures receipts { Collects F.tells_truth (honest_of reader.old) (honest_of reader.new) }
{
    let items = match next_batch(alloc, file_system, reader)? {
        Next::Batch(items) => items,
        Next::End => return Ok(Next::End),
        Next::Fault(error) => return Ok(Next::Fault(error)),
    };
    let block = reader.last_block();
    match check_block(alloc, file_system, reader, block)? {
        None => Ok(Next::Batch(items)),
        Some(error) => Ok(Next::Fault(error)),
    }
}
