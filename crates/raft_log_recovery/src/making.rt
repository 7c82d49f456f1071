//! Reserved files are made.

ghost use Rattle.std.specs.Prelude.{◌≡◌, ◌<◌, ◌++◌, ◌||◌, IfErr, IfOk, List, length};
ghost use Rattle.raft_log_active_file.specs.declared.format.File.{File};
ghost use Rattle.raft_log_recovery.specs.Making.{FailsToMake, FailsToMakeEach, Makes, MakesEach};

use crate::filling::fill_or_not;
use log::Log;
use raft_log_active_file::{File, PipeFormat};
use raft_log_file_format::LogFileFormat;
use raft_log_file_pipe::new_files::choose_directory;
use raft_log_fs::{FileSystem, Handle, Permission};
use raft_log_record_base::{Error, FileSeq, Result};
use std::alloc::Global;

/// Makes a file under the reserved name of a number, in the first directory with room for it, else in the main one.
/// Fills it with zeros, as far as writes succeed. Returns it, and whether there was no space.
///
/// Fails with `Io` if its creation fails; before that with `Memory`, or with `NumberRange` if there is no such name.
fn make_file<G: PipeFormat, F: FileSystem, L: Log>(
    alloc: Global,
    layout: &G,
    rt: &L,
    file_system: &mut F,
    seq: FileSeq,
    bytes: &[u8],
    size: usize,
) -> Result<(File, bool)>
    requires { 0 < length bytes.now }
    ensures ok { IfOk result (λ made. Makes F.disk F.tells_space (G.file_paths layout.now) bytes.now size seq
        made.0 made.1 file_system.old file_system.new) }
    ensures err { IfErr result (λ error. FailsToMake F.disk F.tells_space (G.file_paths layout.now) size seq
        error file_system.old file_system.new) }
{
    let mut file = File {
        seq,
        handle: Handle {
            file: 0,
            permission: Permission::ReadOnly,
        },
        format: LogFileFormat::default(),
        path_id: choose_directory(layout, file_system, size)?,
        reserved: true,
    };
    let path = layout.file_path(alloc, &file)?;
    file.handle = file_system.create(path.as_str())?;
    let full = fill_or_not(rt, file_system, file.handle, bytes, size);
    Ok((file, full))
}

/// Makes `count` files with the numbers from `first` on, and appends them to `files`. Returns whether there was no
/// space for one of them. If one fails, those before it are there.
pub(crate) fn make_files<G: PipeFormat, F: FileSystem, L: Log>(
    alloc: Global,
    layout: &G,
    rt: &L,
    file_system: &mut F,
    files: &mut Vec<File>,
    first: FileSeq,
    count: usize,
    bytes: &[u8],
    size: usize,
) -> Result<bool>
    requires { 0 < length bytes.now }
    ensures ok { IfOk result (λ full. (made : List File) × (files.new.items ≡ files.old.items ++ made)
        × (length made ≡ count) × MakesEach F.disk F.tells_space (G.file_paths layout.now) bytes.now size
        first made full file_system.old file_system.new) }
    ensures err { IfErr result (λ error. FailsToMakeEach F.disk F.tells_space (G.file_paths layout.now)
        bytes.now size first count error file_system.old file_system.new) }
{
    let mut full = false;
    for at in 0..count {
        let seq = first.saturating_add(at as u64);
        let (file, no_space) = make_file(alloc, layout, rt, file_system, seq, bytes, size)?;
        full = either(full, no_space);
        files.push(file)?;
    }
    Ok(full)
}

fn either(one: bool, other: bool) -> bool
    ensures { result ≡ (one || other) }
{
    one || other
}
