//! Reads what follows the header of a log file. In a queue's last file, each record is passed on once its entry block
//! is checked. In the others, each is passed on after the next one is read, so that at most two records are held.

ghost use Rattle.std.specs.Prelude.{◌≡◌, ℕ, false, true, List, Option, Some, IfOk, IfErr, IsTrue};
ghost use Rattle.raft_log_fs.specs.Receipts.{Collects};
ghost use Rattle.raft_log_record_base.specs.Fault.{Fault};
ghost use Rattle.raft_log_record_items.specs.declared.item.LogItem.{LogItem};
ghost use Rattle.raft_log_file_reader.specs.Reader.{IsReading, file_of, end_of, honest_of};
ghost use Rattle.raft_log_file_reader.specs.Foreign.{IsOffsetInside};
ghost use Rattle.raft_log_file_reader.specs.Source.{bytes_of, CannotRead};
ghost use Rattle.raft_log_file_reader.specs.declared.open_file.OpenFile.{OpenFile};
ghost use Rattle.raft_log_recovery_read.specs.Batches.{HasTaken, said};
ghost use Rattle.raft_log_recovery_read.specs.Behind.{HasFileOpen, KeepsFile, LiesInside, StandsAtLast, WasReadBehind};
ghost use Rattle.raft_log_recovery_read.specs.Faults.{TellsIfAny};
ghost use Rattle.raft_log_recovery_read.specs.Records.{StopsGood};

use crate::steps::{Next, check_block, next_batch, next_record};
use crate::taking::{take, take_noted};
use raft_log_file_reader::LogItemBatchFileReader;
use raft_log_fs::FileSystem;
use raft_log_record_base::{Error, FileBlockHandle, FileId, Result};
use raft_log_record_items::LogItem;
use raft_log_replay::ReplayMachine;
use std::alloc::Global;

/// What follows the header of a log file: where the last good record ends, and what is wrong after it. The good
/// records were handed to a machine.
#[derive(Drop)]
pub(crate) struct Behind {
    /// The end of the last good record, or of the header.
    pub(crate) end: usize,
    /// What is wrong there, if anything is.
    pub(crate) fault: Option<Error>,
    /// Whether no good record was found; set only for the last file of a queue.
    pub(crate) is_bare: bool,
    /// The error with which the machine declined a record, if it declined one.
    pub(crate) declined: Option<Error>,
}

/// The last record that was read.
#[derive(Drop)]
pub(crate) struct LastRecord {
    /// The end of the record before that one, or of the header.
    pub(crate) start: usize,
    /// The location of that record's entry block.
    pub(crate) block: FileBlockHandle,
    /// Its items.
    pub(crate) items: Vec<LogItem>,
}

/// Passes the records of a queue's last file to the machine, up to the first one that isn't whole. If the machine
/// declines one, the file is still read to its end, and the first error is returned in `declined`.
pub(crate) fn read_last<F: FileSystem, M: ReplayMachine>(
    alloc: Global,
    file_system: &F,
    reader: &mut LogItemBatchFileReader,
    id: FileId,
    machine: &mut M,
) -> Result<Behind>
    requires reading { IsReading (F.disk file_system.now) reader.old }
    requires open { HasFileOpen reader.old }
    ensures ok { (file : OpenFile) → file_of reader.old ≡ Some file
        → IfOk result (λ behind. IsTrue (honest_of reader.new)
        → WasReadBehind true (M.reads id.queue) (M.declines id.queue) id machine.old machine.new
        (F.disk file_system.now) file (end_of reader.old) behind) }
    ensures err { (file : OpenFile) → file_of reader.old ≡ Some file
        → IfErr result (λ error. IsTrue (honest_of reader.new)
        → CannotRead file.source 0 (F.disk file_system.now) error) }
    ensures kept { IfOk result (λ behind.
        KeepsFile (F.disk file_system.now) reader.old reader.new behind.end) }
    ensures receipts { Collects F.tells_truth (honest_of reader.old) (honest_of reader.new) }
{
    let mut is_bare = true;
    let mut declined = None;
    loop {
        let end = reader.valid_offset();
        match next_record(alloc, file_system, reader)? {
            Next::Batch(items) => {
                declined = take(machine, id, items, declined);
                is_bare = false;
            }
            Next::End => {
                let fault = None;
                return Ok(Behind {
                    end,
                    fault,
                    is_bare,
                    declined,
                });
            }
            Next::Fault(error) => {
                let fault = Some(error);
                return Ok(Behind {
                    end,
                    fault,
                    is_bare,
                    declined,
                });
            }
        }
    }
}

/// Passes the records of a file before a queue's last one to the machine. Checks no entry block but the last
/// record's. If the machine declines a record, continues as [`read_last`] does.
pub(crate) fn read_earlier<F: FileSystem, M: ReplayMachine>(
    alloc: Global,
    file_system: &F,
    reader: &mut LogItemBatchFileReader,
    id: FileId,
    machine: &mut M,
) -> Result<Behind>
    requires reading { IsReading (F.disk file_system.now) reader.old }
    requires open { HasFileOpen reader.old }
    ensures ok { (file : OpenFile) → file_of reader.old ≡ Some file
        → IfOk result (λ behind. IsTrue (honest_of reader.new)
        → WasReadBehind false (M.reads id.queue) (M.declines id.queue) id machine.old machine.new
        (F.disk file_system.now) file (end_of reader.old) behind) }
    ensures err { (file : OpenFile) → file_of reader.old ≡ Some file
        → IfErr result (λ error. IsTrue (honest_of reader.new)
        → CannotRead file.source 0 (F.disk file_system.now) error) }
    ensures kept { IfOk result (λ behind.
        KeepsFile (F.disk file_system.now) reader.old reader.new behind.end) }
    ensures receipts { Collects F.tells_truth (honest_of reader.old) (honest_of reader.new) }
{
    let mut declined = None;
    let mut last = None;
    loop {
        let end = reader.valid_offset();
        match next_batch(alloc, file_system, reader)? {
            Next::Batch(items) => {
                declined = take_noted(machine, id, last, declined);
                let block = reader.last_block();
                last = Some(LastRecord {
                    start: end,
                    block,
                    items,
                });
            }
            Next::End => {
                let read = Behind {
                    end,
                    fault: None,
                    is_bare: false,
                    declined,
                };
                return check_last(alloc, file_system, reader, id, machine, read, last);
            }
            Next::Fault(error) => {
                let read = Behind {
                    end,
                    fault: Some(error),
                    is_bare: false,
                    declined,
                };
                return check_last(alloc, file_system, reader, id, machine, read, last);
            }
        }
    }
}

/// Returns what was read, if the entry block of its last record is whole, and passes that record on; else what was
/// read before it.
fn check_last<F: FileSystem, M: ReplayMachine>(
    alloc: Global,
    file_system: &F,
    reader: &mut LogItemBatchFileReader,
    id: FileId,
    machine: &mut M,
    read: Behind,
    last: Option<LastRecord>,
) -> Result<Behind>
    requires reading { IsReading (F.disk file_system.now) reader.old }
    requires inside { LiesInside last reader.old × IsOffsetInside read.end reader.old }
    ensures ok { (file : OpenFile) (offset : ℕ) (fault : Option Fault) (before : List (List LogItem)) (start : M)
        → file_of reader.old ≡ Some file
        → StandsAtLast file (bytes_of file.source (F.disk file_system.now)) offset before last read.end
        → StopsGood file (bytes_of file.source (F.disk file_system.now)) read.end fault
        → TellsIfAny read.fault fault
        → HasTaken (M.reads id.queue) (M.declines id.queue) (said id before) start machine.old read.declined
        → IfOk result (λ behind. IsTrue (honest_of reader.new)
        → WasReadBehind false (M.reads id.queue) (M.declines id.queue) id start machine.new
        (F.disk file_system.now) file offset behind) }
    ensures err { (file : OpenFile) → file_of reader.old ≡ Some file
        → IfErr result (λ error. IsTrue (honest_of reader.new)
        → CannotRead file.source 0 (F.disk file_system.now) error) }
    ensures kept { IfOk result (λ behind.
        KeepsFile (F.disk file_system.now) reader.old reader.new behind.end) }
    ensures receipts { Collects F.tells_truth (honest_of reader.old) (honest_of reader.new) }
{
    let Some(record) = last else {
        return Ok(read);
    };
    match check_block(alloc, file_system, reader, record.block)? {
        None => {
            let declined = take(machine, id, record.items, read.declined);
            Ok(Behind {
                end: read.end,
                fault: read.fault,
                is_bare: read.is_bare,
                declined,
            })
        }
        Some(error) => Ok(Behind {
            end: record.start,
            fault: Some(error),
            is_bare: read.is_bare,
            declined: read.declined,
        }),
    }
}
