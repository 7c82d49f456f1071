//! The calls of a pipe on the last file of its queue, with what holds after each.

ghost use Rattle.std.specs.Prelude.{IfOk, IfErr, OnOk, OnErr};
ghost use Rattle.raft_log_fs.specs.Causes.{IsLater};
ghost use Rattle.raft_log_fs.specs.Exits.{FailsToSync, Syncs};
ghost use Rattle.raft_log_fs.specs.Touching.{TouchesOnly};
ghost use Rattle.raft_log_file_writer.specs.Writer.{Closes, FailsToClose, WritesNext};
ghost use Rattle.raft_log_active_file.specs.Exits.{AppendMakes, AppendsRecord, BeginMakes, Begins, BeginsBy, FailsToAppend, FailsToBegin, FailsToFinish, FailsToSyncAll, Finishes, SyncsAll};

use super::format::PipeFormat;
use log::Log;
use raft_log_file_writer::LogFileWriter;
use raft_log_fs::{FileSystem, Handle};
use std::io::ErrorKind;

/// Why a record wasn't written.
#[derive(Clone, Copy, Debug, PartialEq, Eq)]
pub enum WriteFault {
    /// The write failed, with this kind. The file was truncated to what was written before, and synced.
    CutBack(ErrorKind),
    /// The write failed, and so did the truncation or its sync, with this kind. The record may be there.
    Failed(ErrorKind),
}

/// Appends a record. If the write fails, truncates the file to what was written before and syncs it; then all earlier
/// records are durable. If that fails too, the file still has its durable records, and perhaps this one.
pub fn append_record<G: PipeFormat, F: FileSystem, L: Log>(
    layout: &G,
    rt: &L,
    file_system: &mut F,
    writer: &mut LogFileWriter,
    bytes: &[u8],
    target_size: usize,
) -> Result<(), WriteFault>
    ensures ok { OnOk result (AppendsRecord (G.format layout.now) (G.own layout.now) bytes.now writer.old writer.new
        (F.disk file_system.old) (F.disk file_system.new)) }
    ensures err { IfErr result (λ fault. FailsToAppend (G.format layout.now) (G.own layout.now) bytes.now
        fault writer.old writer.new
        (F.disk file_system.old) (F.disk file_system.new)) }

    // Which calls were made, in their order, and whose error is returned.
    ensures calls { OnOk result (WritesNext writer.old writer.new bytes.now target_size
        (F.disk file_system.old) (F.disk file_system.new)) }
    ensures refusal { IfErr result (λ fault. AppendMakes fault writer.old writer.new bytes.now target_size
        (F.disk file_system.old) (F.disk file_system.new)) }
    ensures others { TouchesOnly writer.old.handle.file (F.disk file_system.old) (F.disk file_system.new) }
    ensures later { IsLater (F.disk file_system.old) (F.disk file_system.new) }
{
    let Err(kind) = writer.write(rt, file_system, bytes, target_size) else {
        return Ok(());
    };
    match writer.close(file_system) {
        Ok(()) => Err(WriteFault::CutBack(kind)),
        Err(again) => Err(WriteFault::Failed(again)),
    }
}

/// Makes all records durable. If it fails, the file still has the records that were durable before.
pub fn sync_records<G: PipeFormat, F: FileSystem>(
    layout: &G,
    file_system: &mut F,
    writer: &LogFileWriter,
) -> Result<(), ErrorKind>
    ensures ok { OnOk result
        (SyncsAll (G.format layout.now) (G.own layout.now) writer.now
        (F.disk file_system.old) (F.disk file_system.new)) }
    ensures err { OnErr result (FailsToSyncAll (G.format layout.now) (G.own layout.now) writer.now
        (F.disk file_system.old) (F.disk file_system.new)) }
    ensures calls { OnOk result
        (Syncs writer.now.handle (F.disk file_system.old) (F.disk file_system.new)) }
    ensures refusal { IfErr result (λ error. FailsToSync writer.now.handle error
        (F.disk file_system.old) (F.disk file_system.new)) }
    ensures others { TouchesOnly writer.now.handle.file (F.disk file_system.old) (F.disk file_system.new) }
    ensures later { IsLater (F.disk file_system.old) (F.disk file_system.new) }
{
    writer.sync(file_system)
}

/// Finishes the file: truncates it after its records, and syncs it. If it fails, the file still has the records that
/// were durable before.
pub fn finish_file<G: PipeFormat, F: FileSystem>(
    layout: &G,
    file_system: &mut F,
    writer: &mut LogFileWriter,
) -> Result<(), ErrorKind>
    ensures ok { OnOk result (Finishes (G.format layout.now) (G.own layout.now) writer.old writer.new
        (F.disk file_system.old) (F.disk file_system.new)) }
    ensures err { OnErr result (FailsToFinish (G.format layout.now) (G.own layout.now) writer.old
        (F.disk file_system.old) (F.disk file_system.new)) }
    ensures calls { OnOk result
        (Closes writer.old writer.new (F.disk file_system.old) (F.disk file_system.new)) }
    ensures refusal { IfErr result (λ error. FailsToClose writer.old writer.new error
        (F.disk file_system.old) (F.disk file_system.new)) }
    ensures others { TouchesOnly writer.old.handle.file (F.disk file_system.old) (F.disk file_system.new) }
    ensures later { IsLater (F.disk file_system.old) (F.disk file_system.new) }
{
    writer.close(file_system)
}

/// Begins the file of a handle, which got the next number: writes its header at its front, whatever it holds, and syncs
/// that. If it fails, a part of the header may be on disk, but no record.
pub fn begin_file<G: PipeFormat, F: FileSystem, L: Log>(
    layout: &G,
    rt: &L,
    file_system: &mut F,
    handle: Handle,
    header: &[u8],
) -> Result<LogFileWriter, ErrorKind>
    ensures ok { IfOk result (λ writer. Begins (G.format layout.now) (G.own layout.now) handle header.now
        writer
        (F.disk file_system.old) (F.disk file_system.new)) }
    ensures err { OnErr result (FailsToBegin (G.format layout.now) (G.own layout.now) handle header.now
        (F.disk file_system.old) (F.disk file_system.new)) }
    ensures calls { IfOk result (λ writer. BeginsBy handle header.now writer
        (F.disk file_system.old) (F.disk file_system.new)) }
    ensures refusal { IfErr result (λ error. BeginMakes handle header.now error
        (F.disk file_system.old) (F.disk file_system.new)) }
    ensures others { TouchesOnly handle.file (F.disk file_system.old) (F.disk file_system.new) }
    ensures later { IsLater (F.disk file_system.old) (F.disk file_system.new) }
{
    let writer = LogFileWriter::open(rt, file_system, handle, header, true)?;
    writer.sync(file_system)?;
    Ok(writer)
}
