//! Reading a file fails if a foreign record follows the last good one.

ghost use Rattle.std.specs.Prelude.{◌≡◌, ◌⊎◌, ℕ, Some, IfErr, IfOk, IsTrue, OnOk};
ghost use Rattle.std.specs.String.{string_bytes};
ghost use Rattle.raft_log_fs.specs.Receipts.{Collects};
ghost use Rattle.raft_log_file_reader.specs.Foreign.{HasForeignRecord, IsOffsetInside};
ghost use Rattle.raft_log_file_reader.specs.Reader.{IsReading, file_of, honest_of};
ghost use Rattle.raft_log_file_reader.specs.Source.{bytes_of, CannotRead};
ghost use Rattle.raft_log_file_reader.specs.declared.open_file.OpenFile.{OpenFile};
ghost use Rattle.raft_log_recovery_read.specs.Foreign.{queue_name, told_foreign};
ghost use Rattle.raft_log_recovery_read.specs.ForeignSteps.{RefusesForeign};

use raft_log_file_reader::{ForeignRecord, LogItemBatchFileReader};
use raft_log_fs::FileSystem;
use raft_log_record_base::{Error, FileId, LogQueue, Result};
use std::alloc::{AllocError, Global};

/// Fails with `Corruption` if the record of the open file after this offset is foreign. The error names the file, where
/// the record begins, and its compression type. Fails with `Io` or `Memory` if that can't be read.
pub(crate) fn refuse_foreign<F: FileSystem>(
    alloc: Global,
    file_system: &F,
    reader: &mut LogItemBatchFileReader,
    id: FileId,
    offset: usize,
) -> Result<()>
    requires reading { IsReading (F.disk file_system.now) reader.old }
    requires inside { IsOffsetInside offset reader.old }
    ensures ok { (file : OpenFile) → file_of reader.old ≡ Some file
        → OnOk result (IsTrue (honest_of reader.new) → (at compression : ℕ)
        → HasForeignRecord file (bytes_of file.source (F.disk file_system.now)) offset at compression → ⊥) }
    ensures err { (file : OpenFile) → file_of reader.old ≡ Some file
        → IfErr result (λ error. IsTrue (honest_of reader.new)
        → CannotRead file.source offset (F.disk file_system.now) error
        ⊎ RefusesForeign id file (bytes_of file.source (F.disk file_system.now)) offset error) }
    ensures receipts { Collects F.tells_truth (honest_of reader.old) (honest_of reader.new) }
{
    match reader.foreign_record(alloc, file_system, offset)? {
        None => Ok(()),
        Some(record) => {
            let text = told_foreign(alloc, id, record)?;
            Err(Error::Corruption(text))
        }
    }
}

/// The text of the error for a foreign record of a file.
fn told_foreign(alloc: Global, id: FileId, foreign: ForeignRecord) -> Result<String, AllocError>
    ensures { IfOk result (λ text.
        string_bytes text ≡ told_foreign id foreign.offset foreign.compression) }
{
    let queue = queue_name(id.queue);
    let seq = id.seq;
    let ForeignRecord {
        offset,
        compression,
    } = foreign;
    format!(in alloc;
        "{queue} file {seq}: the record at offset {offset} has the unsupported compression type {compression}"
    )
}

/// The name of a queue in an error's text.
pub(crate) fn queue_name(queue: LogQueue) -> &'static str
    ensures { result.now ≡ queue_name queue }
{
    match queue {
        LogQueue::Append => "append",
        LogQueue::Rewrite => "rewrite",
    }
}
