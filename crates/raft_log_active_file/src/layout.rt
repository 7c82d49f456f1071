//! Where the files of a queue are.

ghost use Rattle.std.specs.Prelude.{◌≡◌, ◌<◌, ◌^◌, ℕ, length, map, IfOk, IfErr, OnOk};
ghost use Rattle.std.specs.String.{string_bytes};
ghost use Rattle.raft_log_file_format.specs.Name.{IsNameRefusal};
ghost use Rattle.raft_log_active_file.specs.Paths.{directory_at, numbered_path};

use super::record::LogRecord;
use crate::{DEFAULT_PATH_ID, File, PathId, Paths, PipeFormat, has_sign, plain_place};
use raft_log_file_format::{FileNameExt, build_signed_file_path};
use raft_log_record_base::{FileId, FileSeq, LogQueue, Result};
use std::alloc::Global;

/// The suffix after the name of a file that is kept for recycling.
const RESERVED_SUFFIX: &str = ".reserved";

/// Where the files of a log's queue are, and how they are written: in the log's directories, by their numbers, with
/// signed records if the file's format has signatures.
#[derive(Drop)]
pub struct LogLayout {
    queue: LogQueue,
    paths: Paths,
    ghost some: { 0 < length paths.items },
}

impl LogLayout {
    /// The layout of a queue in these directories, at least one, the main one first.
    pub fn new(queue: LogQueue, paths: Paths) -> LogLayout
        requires { 0 < length paths.items }
        ensures queue { result.queue ≡ queue }
        ensures paths { result.paths ≡ paths }
    {
        LogLayout { queue, paths }
    }

    /// The queue of this layout.
    pub fn queue(&self) -> LogQueue
        ensures { result ≡ self.now.queue }
    {
        self.queue
    }

    /// The directory with this place, or the main one if there is none.
    pub fn directory(&self, path_id: PathId) -> &str
        ensures { result.now ≡ directory_at (map string_bytes self.now.paths.items) path_id }
    {
        match self.paths.get(plain_place(self.paths.len(), path_id)) {
            Some(path) => path.as_str(),
            None => self.paths[DEFAULT_PATH_ID].as_str(),
        }
    }

    /// The path of the queue's file with this number, by the place of its directory. Fails as `file_path` does.
    fn numbered_path(&self, alloc: Global, path_id: PathId, seq: FileSeq) -> Result<String>
        ensures ok { IfOk result (λ path. string_bytes path
            ≡ numbered_path self.now.queue (map string_bytes self.now.paths.items) path_id seq) }
        ensures named { OnOk result (seq < 10 ^ 16) }
        ensures err { IfErr result (λ error. IsNameRefusal seq error) }
    {
        let id = FileId::new(self.queue, seq);
        let directory = self.directory(path_id);
        if has_sign(self.paths.len(), path_id) {
            return build_signed_file_path(alloc, id, directory);
        }
        id.build_file_path(alloc, directory)
    }
}

impl PipeFormat for LogLayout {
    ghost use Rattle.std.proofs.Common.{subst, sym};
    ghost use Rattle.std.proofs.lemmas.List.{length-map};
    ghost use Rattle.raft_log_active_file.specs.QueueFiles.{log_format, log_paths};
    ghost use Rattle.raft_log_active_file.specs.QueueFilesLaws.{is_layout};
    ghost use Rattle.raft_log_active_file.specs.Paths.{IsOwnPath};
    ghost use Rattle.raft_log_active_file.specs.Layout.{path_of};

    type Record = LogRecord;

    ghost format = { λ layout. log_format layout.queue (map string_bytes layout.paths.items) };

    ghost own = { λ layout. IsOwnPath layout.queue (map string_bytes layout.paths.items) };

    ghost file_paths = { λ layout. log_paths layout.queue (map string_bytes layout.paths.items) };

    fn file_path(&self, alloc: Global, file: &File) -> Result<String> {
        let mut path = self.numbered_path(alloc, file.path_id, file.seq)?;
        if file.reserved {
            path.push_str(RESERVED_SUFFIX)?;
        }
        Ok(path)
    }

    fn paths(&self) -> &[String] {
        &self.paths
    }

    ghost lawful = { λ layout. is_layout layout.queue (map string_bytes layout.paths.items)
        (subst (λ (n : ℕ). 0 < n) (sym (length-map layout.paths.items string_bytes)) layout.some) };
}
