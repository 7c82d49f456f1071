//! How the files of a queue are written, and at which paths they are.

ghost use Rattle.std.specs.Prelude.{◌≡◌, ℕ, ◌+◌, ◌<◌, ◌^◌, List, OnOk, IfOk, IfErr, map};
ghost use Rattle.std.specs.String.{string_bytes};
ghost use Rattle.raft_log_file_format.specs.Name.{IsNameRefusal};
ghost use Rattle.raft_log_file_writer.specs.LogFormat.{Format};
ghost use Rattle.raft_log_active_file.specs.Layout.{FilePaths, IsLayout, has_sign, path_of, place_of, plain_place};

use raft_log_file_format::LogFileFormat;
use raft_log_fs::Handle;
use raft_log_record_base::{FileSeq, Result};
use std::alloc::Global;

/// The place of a file's directory. A directory has two places: its position in the list of a log's directories, and
/// this position plus the number of directories. The second one is for files whose names have a plus sign before the
/// number.
pub type PathId = usize;

/// The directories of a log's files, the main one first.
pub type Paths = Vec<String>;

/// The main directory's place.
pub const DEFAULT_PATH_ID: PathId = 0;

/// The number of a queue's first file.
pub const DEFAULT_FIRST_FILE_SEQ: FileSeq = 1;

/// Whether names at this place have a plus sign before the number; `directories` is the number of directories.
pub fn has_sign(directories: usize, path_id: PathId) -> bool
    ensures { result ≡ has_sign directories path_id }
{
    directories <= path_id
}

/// The place for names in a directory, with a plus sign before the number or without one; `directories` is the number
/// of directories.
pub fn place_of(directories: usize, path_id: PathId, signed: bool) -> PathId
    requires { directories + path_id < 2 ^ 64 }
    ensures { result ≡ place_of directories path_id signed }
{
    if signed {
        return directories + path_id;
    }
    path_id
}

/// The first place of the directory that has this place: the one for names without a sign, which all new files have.
/// `directories` is the number of directories.
pub fn plain_place(directories: usize, path_id: PathId) -> PathId
    ensures { result ≡ plain_place directories path_id }
{
    if has_sign(directories, path_id) {
        return path_id - directories;
    }
    path_id
}

/// A file of a queue.
#[derive(Clone, Copy, Debug)]
pub struct File {
    /// The file's number; for a reserved file, the number in its name.
    pub seq: FileSeq,
    /// The open file.
    pub handle: Handle,
    /// How the file is written.
    pub format: LogFileFormat,
    /// The place of the file's directory: the second one if the name has a sign.
    pub path_id: PathId,
    /// Whether the file has a reserved name.
    pub reserved: bool,
}

/// States how the files of a queue are written, and at which paths they are.
pub trait PipeFormat {
    /// The value of a record.
    type Record;

    ghost format: { Self → Format Self.Record };

    ghost own: { Self → List ℕ → Type 0 };

    ghost file_paths: { Self → FilePaths };

    /// The path of a file. Fails with `NumberRange` if its number has more than sixteen digits, or with `Memory`.
    fn file_path(&self, alloc: Global, file: &File) -> Result<String>
        ensures ok { IfOk result (λ path. string_bytes path ≡ path_of (file_paths self.now) file.now) }
        ensures named { OnOk result (file.now.seq < 10 ^ 16) }
        ensures err { IfErr result (λ error. IsNameRefusal file.now.seq error) };

    /// The directories, the main one first.
    fn paths(&self) -> &[String]
        ensures { map string_bytes result.now ≡ (file_paths self.now).directories };

    ghost lawful: { (layout : Self) → IsLayout (format layout) (own layout) (file_paths layout) };
}
