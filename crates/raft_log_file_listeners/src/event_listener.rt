//! The trait of listeners that an engine notifies.

ghost use Rattle.std.specs.Prelude.{◌≡◌, ℕ, Option, None};
ghost use Rattle.raft_log_record_base.specs.declared.pipe_log.LogQueue.{LogQueue};
ghost use Rattle.raft_log_dual_pipes.specs.Telling.{Told};
ghost use Rattle.raft_log_dual_pipes.specs.Telling.Told.{FileBegun, FilesPurged, RecordApplied, RecordWritten};

use raft_log_record_base::{FileBlockHandle, FileId, FileSeq, LogQueue};

/// Is notified of what happens to a log's files. A listener may pin files against a purge, and changes nothing else:
/// it has neither the pipes nor the tables.
///
/// It declares how events change it, and what it pins. By default events may change it in any way, and it pins
/// nothing.
pub trait EventListener: Send + Drop {
    /// What the listener pins of a queue: nothing, or the files from a number on. By default nothing.
    ghost holds_back: { Self → LogQueue → Option ℕ → Type 0 } = { λ listener queue held. held ≡ None };

    /// How each event changes the listener: by default in any way.
    ghost hears: { Told → Self → Self → Type 0 } = { λ one old new. Unit {0} };

    /// A file was begun, or found at an open.
    fn post_new_log_file(&mut self, file_id: FileId)
        ensures { hears (FileBegun file_id) self.old self.new };

    /// A record was written at this place.
    fn on_append_log_file(&mut self, handle: FileBlockHandle)
        ensures { hears (RecordWritten handle) self.old self.new };

    /// A record of this file was applied to the tables.
    fn post_apply_memtables(&mut self, file_id: FileId)
        ensures { hears (RecordApplied file_id) self.old self.new };

    /// The number from which on the listener pins files of a queue, if it pins any. Of the engine's
    /// purges only `purge_expired_files` asks, and only for Append.
    fn first_file_not_ready_for_purge(&self, queue: LogQueue) -> Option<FileSeq>
        ensures { holds_back self.now queue result };

    /// The files of a queue up to this one were purged.
    fn post_purge(&mut self, file_id: FileId)
        ensures { hears (FilesPurged file_id) self.old self.new };
}

/// A listener that does nothing and pins nothing.
#[derive(Drop)]
pub struct Nobody;

impl EventListener for Nobody {
    fn post_new_log_file(&mut self, _file_id: FileId) {}

    fn on_append_log_file(&mut self, _handle: FileBlockHandle) {}

    fn post_apply_memtables(&mut self, _file_id: FileId) {}

    fn first_file_not_ready_for_purge(&self, _queue: LogQueue) -> Option<FileSeq> {
        None
    }

    fn post_purge(&mut self, _file_id: FileId) {}
}
