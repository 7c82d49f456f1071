//! Callers of a pipe.

ghost use Rattle.std.specs.Prelude.{◌≡◌, ◌-◌, IfOk, OnOk};
ghost use Rattle.raft_log_fs.specs.Causes.{IsLater};
ghost use Rattle.raft_examples.specs.Pipes.{KeepsLastAlone, Saves};

use log::Log;
use raft_log_active_file::PipeFormat;
use raft_log_file_pipe::{ReactiveBytes, SinglePipe};
use raft_log_fs::FileSystem;
use raft_log_record_base::{FileBlockHandle, Result};
use std::alloc::Global;

/// Writes a record and makes it durable: if this succeeds, no crash loses it. Returns its place.
pub fn save_record<G: PipeFormat, F: FileSystem, L: Log, B: ReactiveBytes>(
    alloc: Global,
    rt: &L,
    file_system: &mut F,
    pipe: &mut SinglePipe<G>,
    bytes: &mut B,
) -> Result<FileBlockHandle>
    ensures ok { IfOk result (λ place. Saves (G.format pipe.old.layout) (G.own pipe.old.layout)
        (G.file_paths pipe.old.layout) pipe.old.settings (B.signed bytes.old) pipe.old.files pipe.new.files
        place
        (F.disk file_system.old) (F.disk file_system.new)) }
    ensures later { IsLater (F.disk file_system.old) (F.disk file_system.new) }
{
    let place = pipe.append(alloc, rt, file_system, bytes)?;
    pipe.sync(rt, file_system)?;
    Ok(place)
}

/// Rotates, and removes all earlier files from the pipe's live range. Returns how many.
pub fn keep_last_file<G: PipeFormat, F: FileSystem, L: Log>(
    alloc: Global,
    rt: &L,
    file_system: &mut F,
    pipe: &mut SinglePipe<G>,
) -> Result<usize>
    ensures ok { OnOk result (KeepsLastAlone (G.format pipe.old.layout) (G.own pipe.old.layout)
        (G.file_paths pipe.old.layout) pipe.old.settings pipe.old.files pipe.new.files
        (F.disk file_system.old) (F.disk file_system.new)) }
    ensures later { IsLater (F.disk file_system.old) (F.disk file_system.new) }
{
    pipe.rotate(alloc, rt, file_system)?;
    let span = pipe.file_span();
    let gone = pipe.purge_to(alloc, rt, file_system, span.1)?;
    Ok(gone)
}
