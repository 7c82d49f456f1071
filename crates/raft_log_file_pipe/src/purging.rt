//! Files that leave the live range of a pipe.

ghost use Rattle.std.specs.Prelude.{◌≡◌, ℕ, ◌≤◌, ◌-◌, List, ◌∷◌, ◌++◌, nat_lt, ◌&&◌, length, map, take, IfErr, IfOk, OnErr, OnOk};
ghost use Rattle.std.specs.String.{string_bytes};
ghost use Rattle.raft_log_record_base.specs.declared.errors.Error.TheVariants.{Memory};
ghost use Rattle.raft_log_fs.specs.Causes.{IsLater};
ghost use Rattle.raft_log_active_file.specs.Layout.{path_of};
ghost use Rattle.raft_log_file_format.specs.Name.{IsNameRefusal};
ghost use Rattle.raft_log_file_pipe.specs.Files.{Listed};
ghost use Rattle.raft_log_file_pipe.specs.Purging.{CountFails, DropsTo, FailsToDropAll, IsOtherOrMemory, IsInSpan, IsRaised, PartFails, PurgeLeaves, Purges, going, paths_going, staying};
ghost use Rattle.raft_log_file_pipe.specs.Calls.{DropsBy, DropsUntil};
ghost use Rattle.raft_log_file_pipe.specs.Doing.{FailsToPurgeBy};
ghost use Rattle.raft_log_record_base.specs.Files.{is_signed};

use crate::pipe_files::PipeFiles;
use log::{Log, error};
use raft_log_active_file::{File, PipeFormat, drop_file};
use raft_log_fs::FileSystem;
use raft_log_record_base::{Error, FileSeq, Result};
use std::alloc::Global;
use std::collections::VecDeque;
use std::io::ErrorKind;

/// Deletes the files at these paths, in their order, up to the first call that fails.
fn drop_files<G: PipeFormat, F: FileSystem>(
    layout: &G,
    file_system: &mut F,
    gone: &[String],
) -> Result<(), ErrorKind>
    ensures ok { OnOk result (DropsTo (G.format layout.now) (G.own layout.now) (G.file_paths layout.now)
        (map string_bytes gone.now) (length gone.now) (F.disk file_system.old) (F.disk file_system.new)) }
    ensures err { OnErr result (FailsToDropAll (G.format layout.now) (G.own layout.now)
        (G.file_paths layout.now) (map string_bytes gone.now)
        (F.disk file_system.old) (F.disk file_system.new)) }
    ensures calls { OnOk result (DropsBy (map string_bytes gone.now)
        (F.disk file_system.old) (F.disk file_system.new)) }
    ensures refusal { OnErr result (DropsUntil (map string_bytes gone.now)
        (F.disk file_system.old) (F.disk file_system.new)) }
    ensures later { IsLater (F.disk file_system.old) (F.disk file_system.new) }
{
    for path in gone {
        drop_file(layout, file_system, path)?;
    }
    Ok(())
}

/// Files that leave the live range: those that are kept for recycling, and the paths of the others.
#[derive(Drop)]
struct Parted {
    kept: VecDeque<File>,
    gone: Vec<String>,
}

/// Whether a file may be kept for recycling, if there is room for `room` files.
fn can_stay(file: &File, room: usize) -> bool
    ensures { result ≡ (is_signed file.now.format.version && nat_lt 0 room) }
{
    file.format.version.has_log_signing() && room > 0
}

impl Parted {
    /// Takes one more file, and keeps it if it may be recycled and there is room. Returns the room that is left.
    fn take<G: PipeFormat>(
        &mut self,
        alloc: Global,
        layout: &G,
        file: File,
        room: usize,
    ) -> Result<usize>
        ensures kept { IfOk result (λ left. (rest : List Listed)
            → self.old.kept.items ++ staying room (file ∷ rest) ≡ self.new.kept.items ++ staying left rest) }
        ensures gone { IfOk result (λ left. (rest : List Listed)
            → map string_bytes self.old.gone.items
            ++ map (path_of (G.file_paths layout.now)) (going room (file ∷ rest))
            ≡ map string_bytes self.new.gone.items
            ++ map (path_of (G.file_paths layout.now)) (going left rest)) }
        ensures err { IfErr result (IsNameRefusal file.seq) }
    {
        if can_stay(&file, room) {
            self.kept.push_back(file)?;
            return Ok(room - 1);
        }
        let path = layout.file_path(alloc, &file)?;
        self.gone.push(path)?;
        Ok(room)
    }
}

/// Splits the first `count` files of the live range: the oldest that may be recycled are kept, as far as there is room.
fn part_files<G: PipeFormat>(
    alloc: Global,
    layout: &G,
    files: &VecDeque<File>,
    count: usize,
    room: usize,
) -> Result<Parted>
    requires { count ≤ length files.now.items }
    ensures kept { IfOk result (λ parted. parted.kept.items ≡ staying room (take count files.now.items)) }
    ensures gone { IfOk result (λ parted. map string_bytes parted.gone.items
        ≡ map (path_of (G.file_paths layout.now)) (going room (take count files.now.items))) }
    ensures err { IfErr result (PartFails files.now.items) }
{
    let mut parted = Parted {
        kept: VecDeque::new(alloc),
        gone: Vec::new(alloc),
    };
    let mut left = room;
    for i in 0..count {
        left = parted.take(alloc, layout, files[i], left)?;
    }
    Ok(parted)
}

/// How many files are below a number of the live range. Fails with `Other` if the number isn't in the live range.
fn count_below(alloc: Global, files: &PipeFiles, seq: FileSeq) -> Result<usize>
    ensures ok { IfOk result (λ count. IsInSpan seq files.now × (count ≡ seq - files.now.first_seq)) }
    ensures err { IfErr result (CountFails seq files.now) }
{
    match seq.checked_sub(files.first_seq) {
        Some(count) if count as usize <= files.earlier.len() => Ok(count as usize),
        _ => Err(not_in_span(alloc, files, seq)),
    }
}

/// The error for a number that isn't in the live range: `Other`, or `Memory` if memory ran out for it.
fn not_in_span(alloc: Global, files: &PipeFiles, seq: FileSeq) -> Error
    ensures { IsOtherOrMemory result }
{
    let (first, last) = (files.first_seq, files.active.seq);
    match format!(in alloc; "file {seq} is not in the span from {first} to {last}") {
        Ok(text) => Error::other(alloc, anyhow::Error::msg(text)),
        Err(_) => Error::Memory,
    }
}

/// Removes the files below a number from the live range, before any file call. From the oldest on, those with signed
/// records are kept for recycling, until live and recycled files together reach the capacity. The others are deleted.
/// Returns how many left the live range.
///
/// - `Other`: the number isn't in the live range, and nothing was done.
/// - `Memory`, or `NumberRange` if no name has the number of one of the files: nothing was done.
/// - `Failed`: a file wasn't deleted, and the pipe can't be used any more.
pub fn purge<G: PipeFormat, F: FileSystem, L: Log>(
    alloc: Global,
    layout: &G,
    rt: &L,
    file_system: &mut F,
    files: &mut PipeFiles,
    capacity: usize,
    seq: FileSeq,
) -> Result<usize>
    ensures ok { OnOk result (Purges (G.format layout.now) (G.own layout.now) (G.file_paths layout.now)
        capacity seq files.old files.new (F.disk file_system.old) (F.disk file_system.new)) }
    ensures raised { OnOk result (IsRaised capacity seq files.old files.new) }
    ensures count { IfOk result (λ count. IsInSpan seq files.old × (count ≡ seq - files.old.first_seq)) }
    ensures err { IfErr result (λ error. PurgeLeaves (G.format layout.now) (G.own layout.now)
        (G.file_paths layout.now) capacity seq files.old files.new error
        (F.disk file_system.old) (F.disk file_system.new)) }
    ensures calls { OnOk result (DropsBy (paths_going (G.file_paths layout.now) capacity seq files.old)
        (F.disk file_system.old) (F.disk file_system.new)) }
    ensures refusal { IfErr result (λ error. FailsToPurgeBy (G.file_paths layout.now) capacity seq files.old
        error (F.disk file_system.old) (F.disk file_system.new)) }
    ensures later { IsLater (F.disk file_system.old) (F.disk file_system.new) }
{
    let count = count_below(alloc, files, seq)?;
    let remaining = (files.active.seq.saturating_sub(seq) as usize).saturating_add(1);
    let room = capacity
        .saturating_sub(remaining)
        .saturating_sub(files.recycled.len());
    let mut parted = part_files(alloc, layout, &files.earlier, count, room)?;
    files.recycled.append(&mut parted.kept)?;
    files.earlier.drain(..count);
    files.first_seq = seq;
    if let Err(kind) = drop_files(layout, file_system, &parted.gone) {
        error!(rt; "a file below {seq} wasn't deleted: {kind}");
        return Err(Error::Failed);
    }
    Ok(count)
}
