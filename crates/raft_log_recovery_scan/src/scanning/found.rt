//! The files of a kind are found among the names in the log's directories.

ghost use Rattle.std.specs.Prelude.{◌≡◌, IfOk, IfErr, map};
ghost use Rattle.std.specs.String.{string_bytes};
ghost use Rattle.raft_log_recovery_scan.specs.Found.{AreAmong, AreAmongAll, FailsAmong, FailsAmongAll};

use crate::file_kind::FileKind;
use raft_log_active_file::PathId;
use raft_log_record_base::{FileSeq, Result};
use std::alloc::Global;

/// A file that was found: it has the name of its number, with a plus sign before it or without one.
#[derive(Clone, Copy, Debug, PartialEq, Eq)]
pub struct FoundFile {
    /// The file's number.
    pub seq: FileSeq,
    /// The directory of the file.
    pub path_id: PathId,
    /// Whether its name has a plus sign.
    pub signed: bool,
}

/// The files of a kind among those with these names, directory by directory, in the order of the names. Fails with
/// `Corruption` if a name begins with a number and has more between it and the suffix, or with `Memory`.
pub fn find_files(alloc: Global, kind: FileKind, listings: &[Vec<String>]) -> Result<Vec<FoundFile>>
    ensures ok { IfOk result (λ files.
        AreAmongAll kind 0 (map (λ names. map string_bytes names.items) listings.now) files.items) }
    ensures err { IfErr result
        (FailsAmongAll kind (map (λ names. map string_bytes names.items) listings.now)) }
{
    let mut files = Vec::new(alloc);
    for (path_id, names) in listings.iter().enumerate() {
        let mut more = find_in_directory(alloc, kind, path_id, names.as_slice())?;
        files.append(&mut more)?;
    }
    Ok(files)
}

/// The files of a kind among those with these names in a directory.
fn find_in_directory(
    alloc: Global,
    kind: FileKind,
    path_id: PathId,
    names: &[String],
) -> Result<Vec<FoundFile>>
    ensures ok { IfOk result (λ files. AreAmong kind path_id (map string_bytes names.now) files.items) }
    ensures err { IfErr result (FailsAmong kind (map string_bytes names.now)) }
{
    let mut files = Vec::new(alloc);
    for name in names {
        let found = kind.read_name(alloc, name.as_str())?;
        if let Some(said) = found {
            files.push(FoundFile {
                seq: said.seq,
                path_id,
                signed: said.signed,
            })?;
        }
    }
    Ok(files)
}
