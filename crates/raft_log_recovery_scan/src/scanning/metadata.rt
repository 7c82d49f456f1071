//! Deletes the metadata that a file system may keep for deleted files.

ghost use Rattle.std.specs.Prelude.{◌≡◌, ◌<◌, ◌≤◌, ◌^◌, ◌*◌, ◌/◌, IfErr};
ghost use Rattle.raft_log_record_base.specs.declared.errors.Error.TheVariants.{Memory};
ghost use Rattle.raft_log_recovery_scan.specs.Metadata.{ChangesNoFile};

use super::found::FoundFile;
use super::opening::path_of;
use crate::file_kind::FileKind;
use log::{Log, error};
use raft_log_fs::FileSystem;
use raft_log_record_base::{FileSeq, Result};
use std::alloc::Global;

/// How many numbers below the first file are sampled.
const SAMPLES: u64 = 100;

/// Deletes the metadata that the file system keeps for files of a queue below its first one. Changes no file.
///
/// Samples a hundred numbers, evenly from 0 on, for the first that has metadata. From the highest number down, deletes
/// all metadata above the sample before that one. If a deletion fails, that is logged, and the other directories aren't
/// tried for that number. Fails only with `Memory`; then some may be left.
pub fn clear_metadata<F: FileSystem, L: Log>(
    alloc: Global,
    rt: &L,
    file_system: &mut F,
    kind: FileKind,
    paths: &[String],
    first: FileSeq,
) -> Result<()>
    requires { first < 10 ^ 16 }
    ensures files { ChangesNoFile (F.disk file_system.old) (F.disk file_system.new) }
    ensures err { IfErr result (λ error. error ≡ Memory) }
{
    match first_kept(alloc, file_system, kind, paths, first)? {
        Some(lowest) => clear_from(alloc, rt, file_system, kind, paths, lowest, first),
        None => Ok(()),
    }
}

/// The number after the last sample before the first one that has metadata; `None` if none has.
fn first_kept<F: FileSystem>(
    alloc: Global,
    file_system: &F,
    kind: FileKind,
    paths: &[String],
    first: FileSeq,
) -> Result<Option<FileSeq>>
    requires { first < 10 ^ 16 }
    ensures err { IfErr result (λ error. error ≡ Memory) }
{
    for at in 0..SAMPLES {
        if has_metadata(alloc, file_system, kind, paths, sample(at, first))? {
            return Ok(Some(sample(at.saturating_sub(1), first) + 1));
        }
    }
    Ok(None)
}

/// The number of a sample.
fn sample(at: u64, first: FileSeq) -> FileSeq
    requires place { at < 100 }
    requires range { first < 10 ^ 16 }
    ensures value { result ≡ at * first / 100 }
    ensures within { result ≤ first }
{
    at * first / SAMPLES
}

/// Whether a file has metadata in one of the directories.
fn has_metadata<F: FileSystem>(
    alloc: Global,
    file_system: &F,
    kind: FileKind,
    paths: &[String],
    seq: FileSeq,
) -> Result<bool>
    requires { seq < 10 ^ 16 }
    ensures err { IfErr result (λ error. error ≡ Memory) }
{
    for path_id in 0..paths.len() {
        let path = path_of(
            alloc,
            kind,
            paths,
            FoundFile {
                seq,
                path_id,
                signed: false,
            },
        )?;
        if file_system.exists_metadata(path.as_str()) {
            return Ok(true);
        }
    }
    Ok(false)
}

/// Deletes the metadata of the files from `lowest` on, below `first`.
fn clear_from<F: FileSystem, L: Log>(
    alloc: Global,
    rt: &L,
    file_system: &mut F,
    kind: FileKind,
    paths: &[String],
    lowest: FileSeq,
    first: FileSeq,
) -> Result<()>
    requires { first < 10 ^ 16 }
    ensures files { ChangesNoFile (F.disk file_system.old) (F.disk file_system.new) }
    ensures err { IfErr result (λ error. error ≡ Memory) }
{
    let mut seq = first;
    while seq > lowest {
        seq -= 1;
        clear_file(alloc, rt, file_system, kind, paths, seq)?;
    }
    Ok(())
}

/// Deletes the metadata of a file, directory by directory.
fn clear_file<F: FileSystem, L: Log>(
    alloc: Global,
    rt: &L,
    file_system: &mut F,
    kind: FileKind,
    paths: &[String],
    seq: FileSeq,
) -> Result<()>
    requires { seq < 10 ^ 16 }
    ensures files { ChangesNoFile (F.disk file_system.old) (F.disk file_system.new) }
    ensures err { IfErr result (λ error. error ≡ Memory) }
{
    for path_id in 0..paths.len() {
        let path = path_of(
            alloc,
            kind,
            paths,
            FoundFile {
                seq,
                path_id,
                signed: false,
            },
        )?;
        if file_system.exists_metadata(path.as_str()) {
            if let Err(kind) = file_system.delete_metadata(path.as_str()) {
                error!(rt; "metadata of {path} wasn't deleted: {kind}");
                return Ok(());
            }
        }
    }
    Ok(())
}
