//! Records that are written to the active file of a pipe.

ghost use Rattle.std.specs.Prelude.{◌≡◌, ◌<◌, ◌^◌, IfErr, OnErr, OnOk, IfOk};
ghost use Rattle.raft_log_fs.specs.Causes.{IsLater};
ghost use Rattle.raft_log_fs.specs.Exits.{FailsToSync, Syncs};
ghost use Rattle.raft_log_file_writer.specs.Writer.{WritesNext};
ghost use Rattle.raft_log_active_file.specs.Exits.{AppendMakes};
ghost use Rattle.raft_log_file_pipe.specs.Exits.{Adds, FailsToAdd, FailsToSyncPipe, SameLists, SyncsPipe};

use crate::pipe_files::PipeFiles;
use log::Log;
use raft_log_active_file::{PipeFormat, WriteFault, append_record, sync_records};
use raft_log_fs::FileSystem;
use std::io::ErrorKind;

/// Appends a record to the active file, and returns its offset in bytes. If the write fails, the file is truncated to
/// what was written before, and synced. The fault says whether that succeeded.
pub fn add<G: PipeFormat, F: FileSystem, L: Log>(
    layout: &G,
    rt: &L,
    file_system: &mut F,
    files: &mut PipeFiles,
    bytes: &[u8],
    size: usize,
) -> Result<usize, WriteFault>
    ensures ok { IfOk result (λ at. Adds (G.format layout.now) (G.own layout.now) (G.file_paths layout.now)
        bytes.now at files.old files.new (F.disk file_system.old) (F.disk file_system.new)) }
    ensures err { IfErr result (λ fault. FailsToAdd (G.format layout.now) (G.own layout.now)
        (G.file_paths layout.now) bytes.now fault files.old files.new
        (F.disk file_system.old) (F.disk file_system.new)) }
    ensures at { IfOk result (λ at. at ≡ files.old.writer.written) }
    ensures short { IfOk result (λ at. at < 2 ^ 63) }
    ensures lists { SameLists files.old files.new }

    // Which calls were made, and whose error is returned.
    ensures calls { OnOk result (WritesNext files.old.writer files.new.writer bytes.now size
        (F.disk file_system.old) (F.disk file_system.new)) }
    ensures refusal { IfErr result (λ fault. AppendMakes fault files.old.writer files.new.writer bytes.now
        size (F.disk file_system.old) (F.disk file_system.new)) }
    ensures later { IsLater (F.disk file_system.old) (F.disk file_system.new) }
{
    let at = files.writer.offset();
    append_record(layout, rt, file_system, &mut files.writer, bytes, size)?;
    Ok(at)
}

/// Makes all records durable. Returns the error of a sync that fails.
pub fn sync<G: PipeFormat, F: FileSystem>(
    layout: &G,
    file_system: &mut F,
    files: &PipeFiles,
) -> Result<(), ErrorKind>
    ensures ok { OnOk result (SyncsPipe (G.format layout.now) (G.own layout.now) (G.file_paths layout.now)
        files.now (F.disk file_system.old) (F.disk file_system.new)) }
    ensures err { OnErr result (FailsToSyncPipe (G.format layout.now) (G.own layout.now)
        (G.file_paths layout.now) files.now (F.disk file_system.old) (F.disk file_system.new)) }
    ensures calls { OnOk result
        (Syncs files.now.writer.handle (F.disk file_system.old) (F.disk file_system.new)) }
    ensures refusal { IfErr result (λ error. FailsToSync files.now.writer.handle error
        (F.disk file_system.old) (F.disk file_system.new)) }
    ensures later { IsLater (F.disk file_system.old) (F.disk file_system.new) }
{
    sync_records(layout, file_system, &files.writer)
}
