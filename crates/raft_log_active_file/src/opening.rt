//! How a queue begins, in a file 1 that is created for it, and how its last file is reopened after a stop.

ghost use Rattle.std.specs.Prelude.{IfOk, IfErr, OnOk, OnErr, unwrap_or};
ghost use Rattle.raft_log_fs.specs.Causes.{IsLater};
ghost use Rattle.raft_log_fs.specs.Touching.{TouchesOnly};
ghost use Rattle.raft_log_active_file.specs.Opening.{AllFilesStay, BeginQueueMakes, BeginsQueue, BeginsQueueBy, FailsToBeginQueue};
ghost use Rattle.raft_log_active_file.specs.TakingUp.{FailsToReopen, FailsToTrim, ReopenMakes, Reopens, ReopensBy, TrimMakes, Trims, TrimsLeftover};

use super::format::PipeFormat;
use super::last_file::begin_file;
use log::Log;
use raft_log_file_writer::LogFileWriter;
use raft_log_fs::{FileSystem, Handle};
use std::io::ErrorKind;

/// Begins a queue that has no file: creates its file 1 at this path, writes the header, and syncs it. Returns a handle
/// that may write the file, and the writer, which is after the header.
///
/// If it fails, the queue may still begin, or its file exists without a record.
pub fn begin_queue<G: PipeFormat, F: FileSystem, L: Log>(
    layout: &G,
    rt: &L,
    file_system: &mut F,
    path: &str,
    header: &[u8],
) -> Result<(Handle, LogFileWriter), ErrorKind>
    ensures ok { IfOk result (λ begun. BeginsQueue (G.format layout.now) (G.own layout.now)
        header.now path.now begun.0 begun.1 (F.disk file_system.old) (F.disk file_system.new)) }
    ensures err { OnErr result (FailsToBeginQueue (G.format layout.now) (G.own layout.now)
        header.now path.now (F.disk file_system.old) (F.disk file_system.new)) }

    // Which calls were made, and whose error is returned; and no file that existed changes.
    ensures calls { IfOk result (λ begun. BeginsQueueBy path.now header.now begun.0 begun.1
        (F.disk file_system.old) (F.disk file_system.new)) }
    ensures refusal { IfErr result (λ error. BeginQueueMakes path.now header.now error
        (F.disk file_system.old) (F.disk file_system.new)) }
    ensures files { AllFilesStay (F.disk file_system.old) (F.disk file_system.new) }
    ensures later { IsLater (F.disk file_system.old) (F.disk file_system.new) }
{
    let handle = file_system.create(path)?;
    let writer = begin_file(layout, rt, file_system, handle, header)?;
    Ok((handle, writer))
}

/// Truncates the last file of a queue, as a stop left it, to `end`, where the records end that were read of it. Then
/// syncs it. Without a header (`None`), truncates it to nothing. Truncates and syncs even if this changes nothing.
///
/// If it fails, all records that were read are still there.
pub fn truncate_torn_tail<G: PipeFormat, F: FileSystem>(
    layout: &G,
    file_system: &mut F,
    handle: Handle,
    end: Option<usize>,
) -> Result<(), ErrorKind>
    ensures ok { OnOk result (TrimsLeftover (G.format layout.now) (G.own layout.now) handle end
        (F.disk file_system.old) (F.disk file_system.new)) }
    ensures err { OnErr result (FailsToTrim (G.format layout.now) (G.own layout.now) handle end
        (F.disk file_system.old) (F.disk file_system.new)) }

    // Which calls were made, and whose error is returned.
    ensures calls { OnOk result (Trims handle (unwrap_or end 0)
        (F.disk file_system.old) (F.disk file_system.new)) }
    ensures refusal { IfErr result (λ error. TrimMakes handle (unwrap_or end 0) error
        (F.disk file_system.old) (F.disk file_system.new)) }
    ensures others { TouchesOnly handle.file (F.disk file_system.old) (F.disk file_system.new) }
    ensures later { IsLater (F.disk file_system.old) (F.disk file_system.new) }
{
    file_system.truncate(handle, end.unwrap_or(0))?;
    file_system.sync(handle)
}

/// Reopens the last file of a queue, as a stop left it. Truncates it to `end`, where the records end that were read of
/// it, and continues there. If the file has no header (`None`), it is emptied and gets this one. All that is durable
/// before the writer is returned.
///
/// If it fails, all records that were read are still there.
pub fn reopen_file<G: PipeFormat, F: FileSystem, L: Log>(
    layout: &G,
    rt: &L,
    file_system: &mut F,
    handle: Handle,
    end: Option<usize>,
    header: &[u8],
) -> Result<LogFileWriter, ErrorKind>
    ensures ok { IfOk result (λ writer. Reopens (G.format layout.now) (G.own layout.now) handle end
        header.now writer (F.disk file_system.old) (F.disk file_system.new)) }
    ensures err { OnErr result (FailsToReopen (G.format layout.now) (G.own layout.now) handle end
        header.now (F.disk file_system.old) (F.disk file_system.new)) }
    ensures calls { IfOk result (λ writer. ReopensBy handle end header.now writer
        (F.disk file_system.old) (F.disk file_system.new)) }
    ensures refusal { IfErr result (λ error. ReopenMakes handle end header.now error
        (F.disk file_system.old) (F.disk file_system.new)) }
    ensures others { TouchesOnly handle.file (F.disk file_system.old) (F.disk file_system.new) }
    ensures later { IsLater (F.disk file_system.old) (F.disk file_system.new) }
{
    truncate_torn_tail(layout, file_system, handle, end)?;
    match end {
        Some(_) => LogFileWriter::open(rt, file_system, handle, &[], false),
        None => begin_file(layout, rt, file_system, handle, header),
    }
}
