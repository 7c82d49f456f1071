//! Rotations of a pipe: into the oldest file kept for recycling, or into a new one.

ghost use Rattle.std.specs.Prelude.{◌≡◌, ◌<◌, ◌∷◌, [], drop, length, suc, IfOk, IfErr, OnErr, OnOk};
ghost use Rattle.std.specs.VecDeque.{deque_len, deque_capacity};
ghost use Rattle.raft_log_fs.specs.Causes.{IsLater};
ghost use Rattle.raft_log_fs.specs.Reading.{IsOpened};
ghost use Rattle.raft_log_fs.specs.declared.handle.Permission.TheVariants as permissions;
ghost use Rattle.raft_log_file_format.specs.Header.{header_bytes};
ghost use Rattle.raft_log_active_file.specs.Layout.{plain_place};
ghost use Rattle.raft_log_file_pipe.specs.Placing.{IsChosen, IsNextPlace, TellsAfterCut, directory_at, freed_by_cut};
ghost use Rattle.raft_log_file_pipe.specs.Exits.{IsTurned, Rotates, RotationLeaves, SameLists, StaysClosed};
ghost use Rattle.raft_log_file_pipe.specs.Doing.{FailsToTurnBy, TurnsPipeBy};

use crate::new_files::{FreedSpace, NewFiles, choose_directory_with};
use crate::pipe_files::PipeFiles;
use log::{Log, error};
use raft_log_active_file::{File, PathId, PipeFormat, plain_place, rotate_over, rotate_to_new};
use raft_log_fs::{FileSystem, Handle, Permission};
use raft_log_record_base::{Error, FileSeq, Result};
use std::alloc::Global;
use std::io::ErrorKind;

/// Opens a file that is kept for recycling, to write it under its next number. It changes nothing.
fn open_kept<F: FileSystem>(file_system: &F, path: &str) -> Result<Handle>
    ensures ok { IfOk result (λ handle.
        IsOpened path.now permissions.ReadWrite handle (F.disk file_system.now)) }
    ensures err { IfErr result (StaysClosed path.now (F.disk file_system.now)) }
{
    match file_system.open(path, Permission::ReadWrite) {
        Ok(handle) => Ok(handle),
        Err(ErrorKind::OutOfMemory) => Err(Error::Memory),
        Err(_) => Err(Error::Failed),
    }
}

/// The place of a new name in the directory of a file: the name has no sign, whether or not the file's name has one.
fn place_beside<G: PipeFormat>(layout: &G, file: &File) -> PathId
    ensures { result
        ≡ plain_place (length (G.file_paths layout.now).directories) file.now.path_id }
{
    plain_place(layout.paths().len(), file.path_id)
}

/// Rotates into the oldest file kept for recycling, under the next number, in its directory.
fn rotate_into_recycled<G: PipeFormat, F: FileSystem, L: Log>(
    alloc: Global,
    layout: &G,
    rt: &L,
    file_system: &mut F,
    files: &mut PipeFiles,
    new_files: &NewFiles,
    kept: File,
    seq: FileSeq,
) -> Result<()>
    requires room { deque_len files.old.earlier < deque_capacity files.old.earlier }
    requires oldest { files.old.recycled.items ≡ kept ∷ drop 1 files.old.recycled.items }
    requires number { seq ≡ suc files.old.active.seq }
    ensures ok { OnOk result (Rotates (G.format layout.now) (G.own layout.now) (G.file_paths layout.now)
        (header_bytes new_files.now.format) files.old files.new
        (F.disk file_system.old) (F.disk file_system.new)) }
    ensures turned { OnOk result (IsTurned new_files.now.format files.old files.new) }
    ensures placed { OnOk result (files.new.active.path_id
        ≡ plain_place (length (G.file_paths layout.now).directories) kept.path_id) }
    ensures err { IfErr result (λ error. RotationLeaves (G.format layout.now) (G.own layout.now)
        (G.file_paths layout.now) (header_bytes new_files.now.format) files.old files.new error
        (F.disk file_system.old) (F.disk file_system.new)) }
    ensures calls { OnOk result (TurnsPipeBy (G.file_paths layout.now) new_files.now.format files.old
        files.new (F.disk file_system.old) (F.disk file_system.new)) }
    ensures refusal { IfErr result (λ error. FailsToTurnBy (G.file_paths layout.now) new_files.now.format
        files.old files.new error (F.disk file_system.old) (F.disk file_system.new)) }
    ensures stays { OnErr result (SameLists files.old files.new) }
    ensures first { files.new.first_seq ≡ files.old.first_seq }
    ensures later { IsLater (F.disk file_system.old) (F.disk file_system.new) }
{
    let header = new_files.header();
    let next = File {
        seq,
        handle: kept.handle,
        format: new_files.format,
        path_id: place_beside(layout, &kept),
        reserved: false,
    };
    let to = layout.file_path(alloc, &next)?;
    let from = layout.file_path(alloc, &kept)?;
    let handle = open_kept(file_system, &from)?;
    if let Err(kind) = rotate_over(
        layout,
        rt,
        file_system,
        &mut files.writer,
        handle,
        &from,
        &to,
        header,
    ) {
        error!(rt; "log file {seq} wasn't begun over {from}: {kind}");
        return Err(Error::Failed);
    }
    files.recycled.pop_front();
    files.turn_to(File { handle, ..next });
    Ok(())
}

/// How many bytes the active file has after the writer's offset; 0 if its size can't be read.
fn bytes_after_offset<F: FileSystem>(file_system: &F, files: &PipeFiles) -> usize
    ensures { result ≡ freed_by_cut files.now (F.disk file_system.now) }
{
    match file_system.file_size(files.active.handle) {
        Ok(size) => size.saturating_sub(files.writer.offset()),
        Err(_) => 0,
    }
}

/// What a rotation frees when it truncates the active file at the writer's offset.
fn freed_by_cut<'a, G: PipeFormat, F: FileSystem>(
    layout: &'a G,
    file_system: &F,
    files: &PipeFiles,
) -> FreedSpace<'a>
    ensures directory { result.directory.now
        ≡ directory_at (G.file_paths layout.now).directories files.now.active.path_id }
    ensures bytes { result.bytes ≡ freed_by_cut files.now (F.disk file_system.now) }
{
    let directory = match layout.paths().get(place_beside(layout, &files.active)) {
        Some(path) => path.as_str(),
        None => "",
    };
    FreedSpace {
        directory,
        bytes: bytes_after_offset(file_system, files),
    }
}

/// Rotates into a new file with the next number.
fn rotate_into_new<G: PipeFormat, F: FileSystem, L: Log>(
    alloc: Global,
    layout: &G,
    rt: &L,
    file_system: &mut F,
    files: &mut PipeFiles,
    new_files: &NewFiles,
    seq: FileSeq,
) -> Result<()>
    requires room { deque_len files.old.earlier < deque_capacity files.old.earlier }
    requires none { files.old.recycled.items ≡ [] }
    requires number { seq ≡ suc files.old.active.seq }
    ensures ok { OnOk result (Rotates (G.format layout.now) (G.own layout.now) (G.file_paths layout.now)
        (header_bytes new_files.now.format) files.old files.new
        (F.disk file_system.old) (F.disk file_system.new)) }
    ensures turned { OnOk result (IsTurned new_files.now.format files.old files.new) }
    ensures placed { OnOk result (IsChosen (TellsAfterCut (F.tells_space file_system.old)
        (F.disk file_system.old) (G.file_paths layout.now).directories files.old) (F.disk file_system.old)
        new_files.now.target_size (G.file_paths layout.now).directories files.new.active.path_id) }
    ensures err { IfErr result (λ error. RotationLeaves (G.format layout.now) (G.own layout.now)
        (G.file_paths layout.now) (header_bytes new_files.now.format) files.old files.new error
        (F.disk file_system.old) (F.disk file_system.new)) }
    ensures calls { OnOk result (TurnsPipeBy (G.file_paths layout.now) new_files.now.format files.old
        files.new (F.disk file_system.old) (F.disk file_system.new)) }
    ensures refusal { IfErr result (λ error. FailsToTurnBy (G.file_paths layout.now) new_files.now.format
        files.old files.new error (F.disk file_system.old) (F.disk file_system.new)) }
    ensures stays { OnErr result (SameLists files.old files.new) }
    ensures first { files.new.first_seq ≡ files.old.first_seq }
    ensures later { IsLater (F.disk file_system.old) (F.disk file_system.new) }
{
    let header = new_files.header();
    let freed = freed_by_cut(layout, file_system, files);
    let path_id = choose_directory_with(layout, file_system, new_files.target_size, &freed)?;
    let place = File {
        seq,
        handle: files.active.handle,
        format: new_files.format,
        path_id,
        reserved: false,
    };
    let path = layout.file_path(alloc, &place)?;
    match rotate_to_new(layout, rt, file_system, &mut files.writer, &path, header) {
        Ok(handle) => {
            files.turn_to(File { handle, ..place });
            Ok(())
        }
        Err(kind) => {
            error!(rt; "log file {seq} wasn't begun: {kind}");
            Err(Error::Failed)
        }
    }
}

/// Rotates: finishes the active file, and continues in the oldest file kept for recycling, or else in a new one.
///
/// - `Memory`, or `NumberRange` if the next number has more than sixteen digits: nothing was done.
/// - `Failed`: a file call failed, and the pipe can't be used any more.
pub fn rotate<G: PipeFormat, F: FileSystem, L: Log>(
    alloc: Global,
    layout: &G,
    rt: &L,
    file_system: &mut F,
    files: &mut PipeFiles,
    new_files: &NewFiles,
) -> Result<()>
    ensures ok { OnOk result (Rotates (G.format layout.now) (G.own layout.now) (G.file_paths layout.now)
        (header_bytes new_files.now.format) files.old files.new
        (F.disk file_system.old) (F.disk file_system.new)) }
    ensures turned { OnOk result (IsTurned new_files.now.format files.old files.new) }
    ensures placed { OnOk result (IsNextPlace (F.tells_space file_system.old) (F.disk file_system.old)
        new_files.now.target_size (G.file_paths layout.now).directories files.old
        files.new.active.path_id) }
    ensures err { IfErr result (λ error. RotationLeaves (G.format layout.now) (G.own layout.now)
        (G.file_paths layout.now) (header_bytes new_files.now.format) files.old files.new error
        (F.disk file_system.old) (F.disk file_system.new)) }
    ensures calls { OnOk result (TurnsPipeBy (G.file_paths layout.now) new_files.now.format files.old
        files.new (F.disk file_system.old) (F.disk file_system.new)) }
    ensures refusal { IfErr result (λ error. FailsToTurnBy (G.file_paths layout.now) new_files.now.format
        files.old files.new error (F.disk file_system.old) (F.disk file_system.new)) }
    ensures stays { OnErr result (SameLists files.old files.new) }
    ensures first { files.new.first_seq ≡ files.old.first_seq }
    ensures later { IsLater (F.disk file_system.old) (F.disk file_system.new) }
{
    let Some(seq) = files.active.seq.checked_add(1) else {
        return Err(Error::NumberRange);
    };
    files.earlier.reserve(1)?;
    match files.recycled.front().copied() {
        Some(kept) => rotate_into_recycled(
            alloc,
            layout,
            rt,
            file_system,
            files,
            new_files,
            kept,
            seq,
        ),
        None => rotate_into_new(alloc, layout, rt, file_system, files, new_files, seq),
    }
}
