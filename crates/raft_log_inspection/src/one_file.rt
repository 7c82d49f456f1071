//! One file of a queue is read.

ghost use Rattle.std.specs.Prelude.{◌≡◌, ◌<◌, ◌&&◌, None, IfOk, IsTrue, OnOk, length, map};
ghost use Rattle.std.specs.String.{string_bytes};
ghost use Rattle.raft_log_fs.specs.Receipts.{Collects};
ghost use Rattle.raft_log_file_reader.specs.Reader.{honest_of};
ghost use Rattle.raft_log_file_reader.specs.Source.{bytes_in};
ghost use Rattle.raft_log_inspection.specs.Intact.{IsUndamaged};
ghost use Rattle.raft_log_inspection.specs.Steps.{HandsFile};

use crate::damage::Damage;
use crate::fault::InspectFault;
use crate::listing::{kind_of, path_of};
use crate::zeros::has_zeros_from;
use raft_log_file_reader::LogItemBatchFileReader;
use raft_log_fs::{FileSystem, Judged, Permission, Receipt};
use raft_log_record_base::{FileId, FileSeq, LogQueue};
use raft_log_recovery_read::{FoundFile as ReadFile, ListedFile, read_file};
use raft_log_recovery_scan::scanning::found::FoundFile;
use raft_log_replay::ReplayMachine;
use std::alloc::Global;
use std::snapshot::Snapshot;

/// The reads of the file that a reader opened last.
#[derive(Drop)]
struct ReadsOfFile {
    reader: Snapshot<LogItemBatchFileReader>,
}

impl Judged for ReadsOfFile {
    ghost is_true = { λ reads. honest_of reads.reader.value };
}

/// Adds the reads of the file that the reader opened last to a receipt.
fn note_reads(reader: &LogItemBatchFileReader, receipts: &mut Receipt)
    ensures { receipts.new.honest ≡ (receipts.old.honest && honest_of reader.now) }
{
    receipts.note(&Receipt::judged(&ReadsOfFile {
        reader: Snapshot::of(reader),
    }));
}

/// Reads a file of a queue, whose last file has the number `newest`. Hands a machine its records, and returns the
/// file's damage, if it has any. Adds its reads to `receipts`. Fails as `inspect_queue` does.
pub(crate) fn read_one<F: FileSystem, M: ReplayMachine>(
    alloc: Global,
    files: &F,
    reader: &mut LogItemBatchFileReader,
    queue: LogQueue,
    paths: &[String],
    file: FoundFile,
    newest: FileSeq,
    machine: &mut M,
    receipts: &mut Receipt,
) -> Result<Option<Damage>, InspectFault>
    requires { file.path_id < length paths.now }
    ensures ok { IfOk result (λ damage. IsTrue receipts.new.honest
        → HandsFile (M.reads queue) queue (map string_bytes paths.now)
        (F.disk files.now) newest file machine.old machine.new damage) }
    ensures receipts { Collects F.tells_truth receipts.old.honest receipts.new.honest }
{
    let path = path_of(alloc, kind_of(queue), paths, file)?;
    let handle = match files.open(path.as_str(), Permission::ReadOnly) {
        Ok(handle) => handle,
        Err(kind) => return Err(InspectFault::refused(alloc, path.as_str(), kind)),
    };
    // In a file that is read as a last one, each record's entry block is checked.
    let listed = ListedFile {
        id: FileId {
            queue,
            seq: file.seq,
        },
        handle,
        is_last: true,
    };
    let read = read_file(alloc, files, reader, listed, machine);
    note_reads(reader, receipts);
    match read {
        Ok(read) => damage_of(
            alloc,
            files,
            path,
            listed,
            file.seq == newest,
            read,
            receipts,
        ),
        Err(error) => Err(InspectFault::Path { path, error }),
    }
}

/// The damage of a file that was read, if it has any. The file is its queue's last one or not.
fn damage_of<F: FileSystem>(
    alloc: Global,
    files: &F,
    path: String,
    listed: ListedFile,
    is_last: bool,
    read: ReadFile,
    receipts: &mut Receipt,
) -> Result<Option<Damage>, InspectFault>
    ensures declined { OnOk result (read.declined ≡ None) }
    ensures undamaged { IfOk result (λ damage. IsTrue receipts.new.honest → damage ≡ None → IsUndamaged is_last
        (bytes_in ((F.disk files.now).files listed.handle.file)) read.end read.fault) }
    ensures receipts { Collects F.tells_truth receipts.old.honest receipts.new.honest }
{
    let ReadFile {
        format: _format,
        end,
        fault,
        declined,
    } = read;
    if let Some(error) = declined {
        return Err(InspectFault::Path { path, error });
    }
    let Some(cause) = fault else {
        return Ok(None);
    };
    let offset = end.unwrap_or(0);
    if is_last {
        match has_zeros_from(alloc, files, listed.handle, offset, receipts) {
            Ok(true) => return Ok(None),
            Ok(false) => {}
            Err(error) => return Err(InspectFault::Path { path, error }),
        }
    }
    Ok(Some(Damage {
        id: listed.id,
        path,
        offset,
        cause,
    }))
}
