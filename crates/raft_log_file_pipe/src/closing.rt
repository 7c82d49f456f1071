//! Closing a pipe: its active file is finished, and files kept for recycling get reserved names, for the next open.

ghost use Rattle.std.specs.Prelude.{◌≡◌, [], ◌∷◌, if◌then◌else◌, max, reverse, false, OnOk};
ghost use Rattle.raft_log_fs.specs.Causes.{IsLater};
ghost use Rattle.raft_log_file_pipe.specs.Closing.{FinishesAs, FinishesOrNot, IsSettledBy, LeavesClosed, Reserves, ReservesAll, StaysLeft, greatest_reserved};
ghost use Rattle.raft_log_file_pipe.specs.Exits.{SameLists};

use crate::pipe_files::PipeFiles;
use log::{Log, error};
use raft_log_active_file::{DEFAULT_PATH_ID, File, PipeFormat, finish_file};
use raft_log_fs::FileSystem;
use raft_log_record_base::{Error, FileSeq, Result};
use std::alloc::Global;
use std::collections::VecDeque;
use std::io::ErrorKind;

/// Finishes the active file: truncates it after its records, and syncs it. If either fails, logs and returns its `Io`.
pub fn finish<G: PipeFormat, F: FileSystem, L: Log>(
    layout: &G,
    rt: &L,
    file_system: &mut F,
    files: &mut PipeFiles,
) -> Result<()>
    ensures calls { FinishesOrNot files.old.writer (F.disk file_system.old) (F.disk file_system.new) }
    ensures value { FinishesAs files.old.writer result (F.disk file_system.old) (F.disk file_system.new) }
    ensures held { LeavesClosed (G.format layout.now) (G.own layout.now) (G.file_paths layout.now) files.old
        (F.disk file_system.old) (F.disk file_system.new) }
    ensures settled { OnOk result (IsSettledBy (G.format layout.now) (G.own layout.now)
        (G.file_paths layout.now) files.old (F.disk file_system.old) (F.disk file_system.new)) }
    ensures recycled { files.new.recycled ≡ files.old.recycled }
    ensures lists { SameLists files.old files.new }
    ensures later { IsLater (F.disk file_system.old) (F.disk file_system.new) }
{
    if let Err(kind) = finish_file(layout, file_system, &mut files.writer) {
        error!(rt; "log file {} wasn't finished: {kind}", files.active.seq);
        return Err(Error::Io(kind));
    }
    Ok(())
}

/// The greater of a number and that of a file with a reserved name.
fn greater_reserved(greatest: FileSeq, file: &File) -> FileSeq
    ensures { result ≡ (if file.now.reserved then max file.now.seq greatest else greatest) }
{
    if file.reserved {
        file.seq.max(greatest)
    } else {
        greatest
    }
}

/// The greatest number in a reserved name; 0 if none of the files has one.
fn greatest_reserved(files: &VecDeque<File>) -> FileSeq
    ensures { result ≡ greatest_reserved files.now.items }
{
    let mut greatest = 0;
    for file in files {
        greatest = greater_reserved(greatest, file);
    }
    greatest
}

/// Gives a file that is kept for recycling the reserved name after the last one, in the main directory. Returns the
/// number of the last reserved name then. A rename that fails is logged.
fn reserve<G: PipeFormat, F: FileSystem, L: Log>(
    alloc: Global,
    layout: &G,
    rt: &L,
    file_system: &mut F,
    file: &File,
    last: FileSeq,
) -> FileSeq
    ensures calls { Reserves (G.file_paths layout.now) file.now last result
        (F.disk file_system.old) (F.disk file_system.new) }
    ensures held { file.now.reserved ≡ false → StaysLeft (G.format layout.now) (G.own layout.now)
        (file.now ∷ []) (F.disk file_system.old) (F.disk file_system.new) }
    ensures later { IsLater (F.disk file_system.old) (F.disk file_system.new) }
{
    let seq = last.saturating_add(1);
    let reserved = File {
        seq,
        handle: file.handle,
        format: file.format,
        path_id: DEFAULT_PATH_ID,
        reserved: true,
    };
    let Ok(from) = layout.file_path(alloc, file) else {
        return last;
    };
    let Ok(to) = layout.file_path(alloc, &reserved) else {
        return last;
    };
    match file_system.reuse(&from, &to) {
        Ok(()) => seq,
        Err(kind) => {
            log_unnamed(rt, &from, &to, kind);
            last
        }
    }
}

/// Logs that a file didn't get a reserved name.
fn log_unnamed<L: Log>(rt: &L, from: &str, to: &str, kind: ErrorKind) {
    error!(rt; "{from} didn't get the name {to}: {kind}");
}

/// Gives files that are kept for recycling reserved names in the main directory, from the newest down until one has
/// such a name. The numbers begin after the greatest reserved one. If a file gets no name, the next gets its number.
pub fn reserve_files<G: PipeFormat, F: FileSystem, L: Log>(
    alloc: Global,
    layout: &G,
    rt: &L,
    file_system: &mut F,
    recycled: VecDeque<File>,
)
    ensures calls { ReservesAll (G.file_paths layout.now) (reverse recycled.items)
        (greatest_reserved recycled.items) (F.disk file_system.old) (F.disk file_system.new) }
    ensures held { StaysLeft (G.format layout.now) (G.own layout.now) recycled.items
        (F.disk file_system.old) (F.disk file_system.new) }
    ensures later { IsLater (F.disk file_system.old) (F.disk file_system.new) }
{
    let mut last = greatest_reserved(&recycled);
    let mut files = recycled;
    while let Some(file) = files.pop_back() {
        if file.reserved {
            break;
        }
        last = reserve(alloc, layout, rt, file_system, &file, last);
    }
}
