//! Appending to a pipe: rotates if the active file has reached the target size, and truncates after a failed write.

ghost use Rattle.std.specs.Prelude.{◌≡◌, ◌<◌, ◌≤◌, ◌^◌, [], false, IfErr, IfOk, OnErr, OnOk};
ghost use Rattle.raft_log_fs.specs.Causes.{IsLater};
ghost use Rattle.raft_log_active_file.specs.declared.last_file.WriteFault.TheVariants.{CutBack};
ghost use Rattle.std.specs.declared.io.ErrorKind.TheVariants.{StorageFull};
ghost use Rattle.raft_log_record_base.specs.declared.errors.Error.TheVariants as errors;
ghost use Rattle.raft_log_file_format.specs.Header.{header_bytes};
ghost use Rattle.raft_log_file_pipe.specs.Appending.{AppendFails, AppendsAt, GoesElsewhere, GoesInto, GoesOnBy, SaysTryAgain, StaysFull, Tells, TurnsElsewhere, TurnsFirst};
ghost use Rattle.raft_log_file_pipe.specs.Exits.{RotationLeaves};
ghost use Rattle.raft_log_file_pipe.specs.Placing.{IsFull, IsNextPlace};
ghost use Rattle.raft_log_file_pipe.specs.Doing.{AppendsBy, FailsToAppendBy, FailsToTurnBy, TellsBy, TurnsElsewhereBy, TurnsFirstBy};

use crate::new_files::{NewFiles, is_full};
use crate::pipe_files::PipeFiles;
use crate::reactive_bytes::ReactiveBytes;
use crate::rotating::rotate;
use crate::writing::add;
use log::{Log, error};
use raft_log_active_file::{PipeFormat, WriteFault};
use raft_log_fs::FileSystem;
use raft_log_record_base::{Error, FileBlockHandle, FileId, LogFileContext, LogQueue, Result};
use std::alloc::Global;
use std::io::ErrorKind;

/// Rotates if the active file has reached the target size.
fn rotate_if_full<G: PipeFormat, F: FileSystem, L: Log>(
    alloc: Global,
    layout: &G,
    rt: &L,
    file_system: &mut F,
    files: &mut PipeFiles,
    new_files: &NewFiles,
) -> Result<()>
    ensures ok { OnOk result (TurnsFirst (G.format layout.now) (G.own layout.now) (G.file_paths layout.now)
        new_files.now files.old files.new (F.disk file_system.old) (F.disk file_system.new)) }
    ensures placed { new_files.now.target_size ≤ files.old.writer.written → OnOk result (IsNextPlace
        (F.tells_space file_system.old) (F.disk file_system.old) new_files.now.target_size
        (G.file_paths layout.now).directories files.old files.new.active.path_id) }
    ensures long { OnErr result (new_files.now.target_size ≤ files.old.writer.written) }
    ensures err { IfErr result (λ error. RotationLeaves (G.format layout.now) (G.own layout.now)
        (G.file_paths layout.now) (header_bytes new_files.now.format) files.old files.new error
        (F.disk file_system.old) (F.disk file_system.new)) }
    ensures calls { OnOk result (TurnsFirstBy (G.file_paths layout.now) new_files.now files.old files.new
        (F.disk file_system.old) (F.disk file_system.new)) }
    ensures refusal { IfErr result (λ error. FailsToTurnBy (G.file_paths layout.now) new_files.now.format
        files.old files.new error (F.disk file_system.old) (F.disk file_system.new)) }
    ensures near { GoesOnBy 1 files.old files.new }
    ensures first { files.new.first_seq ≡ files.old.first_seq }
    ensures later { IsLater (F.disk file_system.old) (F.disk file_system.new) }
{
    if files.writer.offset() >= new_files.target_size {
        return rotate(alloc, layout, rt, file_system, files, new_files);
    }
    Ok(())
}

/// The active file is out of space for a record: rotates, and returns the error to report: `TryAgain` if the rotation
/// succeeded, otherwise the error that stopped it.
fn rotate_for_space<G: PipeFormat, F: FileSystem, L: Log>(
    alloc: Global,
    layout: &G,
    rt: &L,
    file_system: &mut F,
    files: &mut PipeFiles,
    new_files: &NewFiles,
) -> Error
    ensures left { TurnsElsewhere (G.format layout.now) (G.own layout.now) (G.file_paths layout.now)
        new_files.now files.old files.new result (F.disk file_system.old) (F.disk file_system.new) }
    ensures elsewhere { SaysTryAgain result → GoesInto F.disk F.tells_space (G.format layout.now)
        (G.own layout.now) (G.file_paths layout.now) new_files.now files.old files.new
        file_system.old file_system.new }
    ensures calls { TurnsElsewhereBy (G.file_paths layout.now) new_files.now.format files.old files.new
        result (F.disk file_system.old) (F.disk file_system.new) }
    ensures near { GoesOnBy 1 files.old files.new }
    ensures first { files.new.first_seq ≡ files.old.first_seq }
    ensures later { IsLater (F.disk file_system.old) (F.disk file_system.new) }
{
    match rotate(alloc, layout, rt, file_system, files, new_files) {
        Ok(()) => {
            let text = format!(in alloc; "no space for a record");
            Error::TryAgain(text.unwrap_or(String::new(alloc)))
        }
        Err(error) => error,
    }
}

/// Whether there is a file kept for recycling, or a directory that may have space left.
fn has_place<G: PipeFormat, F: FileSystem>(layout: &G, file_system: &F, files: &PipeFiles) -> bool
    ensures none { result ≡ false → files.now.recycled.items ≡ [] }
    ensures full { result ≡ false
        → IsFull (F.tells_space file_system.now) (F.disk file_system.now) (G.file_paths layout.now) }
{
    if files.recycled.is_empty() {
        return !is_full(layout, file_system);
    }
    true
}

/// Returns the error to report for a failed write. If the write failed for lack of space and was truncated away, the
/// pipe rotates: into a file that is kept for recycling, which needs no space, or else into a new one. If no file is
/// kept and no directory has any space left, it doesn't rotate.
fn report_write_fault<G: PipeFormat, F: FileSystem, L: Log>(
    alloc: Global,
    layout: &G,
    rt: &L,
    file_system: &mut F,
    files: &mut PipeFiles,
    new_files: &NewFiles,
    fault: WriteFault,
) -> Error
    ensures left { Tells (G.format layout.now) (G.own layout.now) (G.file_paths layout.now) new_files.now
        fault files.old files.new result (F.disk file_system.old) (F.disk file_system.new) }
    ensures elsewhere { SaysTryAgain result → (fault ≡ CutBack StorageFull)
        × GoesInto F.disk F.tells_space (G.format layout.now) (G.own layout.now) (G.file_paths layout.now)
        new_files.now files.old files.new file_system.old file_system.new }
    ensures full { result ≡ errors.Io StorageFull → (fault ≡ CutBack StorageFull)
        × IsFull (F.tells_space file_system.new) (F.disk file_system.new) (G.file_paths layout.now)
        × (files.new.recycled.items ≡ []) × (files.new ≡ files.old) × (file_system.new ≡ file_system.old) }
    ensures calls { TellsBy (G.file_paths layout.now) new_files.now.format fault files.old files.new result
        (F.disk file_system.old) (F.disk file_system.new) }
    ensures near { GoesOnBy 1 files.old files.new }
    ensures first { files.new.first_seq ≡ files.old.first_seq }
    ensures later { IsLater (F.disk file_system.old) (F.disk file_system.new) }
{
    match fault {
        WriteFault::CutBack(kind) => {
            if kind == ErrorKind::StorageFull && has_place(layout, file_system, files) {
                return rotate_for_space(alloc, layout, rt, file_system, files, new_files);
            }
            Error::Io(kind)
        }
        WriteFault::Failed(kind) => {
            error!(rt; "a failed write wasn't truncated: {kind}");
            Error::Failed
        }
    }
}

/// Appends a record, and returns its location. The pipe rotates first if the active file has reached the target size.
///
/// - `Io`: the write failed; its bytes were truncated away, and everything before them is durable. The kind is
///   `StorageFull` only if no file is kept for recycling, and the file system reports no free space in any directory.
/// - `TryAgain`: the same for lack of space, and the pipe rotated after it.
/// - `Memory`, `NumberRange`: the pipe couldn't rotate. The record isn't in the log, and no other one is lost.
/// - `Failed`: the pipe can't be used any more. The record may be on the disk.
///
/// The pipe may also have rotated before a write that failed.
pub fn append<G: PipeFormat, F: FileSystem, L: Log, B: ReactiveBytes>(
    alloc: Global,
    layout: &G,
    rt: &L,
    file_system: &mut F,
    files: &mut PipeFiles,
    new_files: &NewFiles,
    queue: LogQueue,
    bytes: &mut B,
) -> Result<FileBlockHandle>
    ensures ok { IfOk result (λ block. AppendsAt (G.format layout.now) (G.own layout.now)
        (G.file_paths layout.now) new_files.now queue (B.signed bytes.old) files.old files.new block
        (F.disk file_system.old) (F.disk file_system.new)) }
    ensures place { IfOk result (λ block. block.offset < 2 ^ 63) }
    ensures placed { new_files.now.target_size ≤ files.old.writer.written → OnOk result (IsNextPlace
        (F.tells_space file_system.old) (F.disk file_system.old) new_files.now.target_size
        (G.file_paths layout.now).directories files.old files.new.active.path_id) }
    ensures err { IfErr result (λ error. AppendFails (G.format layout.now) (G.own layout.now)
        (G.file_paths layout.now) new_files.now queue (B.signed bytes.old) files.old files.new error
        (F.disk file_system.old) (F.disk file_system.new)) }
    ensures elsewhere { IfErr result (λ error. SaysTryAgain error → GoesElsewhere F.disk F.tells_space
        (G.format layout.now) (G.own layout.now) (G.file_paths layout.now) new_files.now queue
        (B.signed bytes.old) files.old files.new file_system.old file_system.new) }
    ensures full { IfErr result (λ error. error ≡ errors.Io StorageFull → StaysFull F.disk F.tells_space
        (G.format layout.now) (G.own layout.now) (G.file_paths layout.now) new_files.now queue
        (B.signed bytes.old) files.old files.new file_system.old file_system.new) }
    ensures calls { IfOk result (λ block. AppendsBy (G.file_paths layout.now) new_files.now queue
        (B.signed bytes.old) files.old files.new block
        (F.disk file_system.old) (F.disk file_system.new)) }
    ensures refusal { IfErr result (λ error. FailsToAppendBy (G.file_paths layout.now) new_files.now queue
        (B.signed bytes.old) files.old files.new error
        (F.disk file_system.old) (F.disk file_system.new)) }
    ensures near { OnErr result (GoesOnBy 2 files.old files.new) }
    ensures signed { B.signed bytes.new ≡ B.signed bytes.old }
    ensures said { B.said bytes.new ≡ B.said bytes.old }
    ensures first { files.new.first_seq ≡ files.old.first_seq }
    ensures later { IsLater (F.disk file_system.old) (F.disk file_system.new) }
{
    rotate_if_full(alloc, layout, rt, file_system, files, new_files)?;
    let id = FileId::new(queue, files.active.seq);
    bytes.sign(&LogFileContext::new(id, files.active.format.version));
    let record = bytes.as_bytes();
    let size = new_files.target_size;
    match add(layout, rt, file_system, files, record, size) {
        Ok(at) => Ok(FileBlockHandle {
            id,
            offset: at as u64,
            len: record.len(),
        }),
        Err(fault) => Err(report_write_fault(
            alloc,
            layout,
            rt,
            file_system,
            files,
            new_files,
            fault,
        )),
    }
}
