//! The engine's own hook: which files of Append have records that aren't in the tables yet.

ghost use Rattle.std.specs.Prelude.{◌≡◌, ◌+◌, ◌<◌, ◌^◌, length, IfErr, IfSome, OnErr, OnOk};
ghost use Rattle.raft_log_file_listeners.specs.Active.{ActiveFiles, DropsFiles, IsDropRefusal, IsListingRefusal, ListsFile, counted, first_held, first_waiting, no_files, one_less, one_more, place_of};

use crate::event_listener::EventListener;
use crate::listeners::lesser;
use raft_log_record_base::{Error, FileBlockHandle, FileId, FileSeq, LogQueue, Result};
use std::alloc::Global;
use std::collections::VecDeque;
use std::marker::Model;

/// Lists the files of Append, and counts for each the records that were written and aren't in the tables yet.
/// `purge_expired_files` doesn't delete a file with such records, though no table names it. Files of Rewrite aren't
/// listed, since only a purge writes to them.
#[derive(Drop)]
pub struct PurgeHook {
    first: FileSeq,
    waiting: VecDeque<u64>,
    missing: Option<FileSeq>,
}

impl Model for PurgeHook {
    ghost Value = { ActiveFiles };

    ghost view = { λ hook. record {
      first = hook.first;
      waiting = hook.waiting.items;
      missing = hook.missing;
    } };

    ghost invariant = { λ hook. hook.first + length hook.waiting.items < 2 ^ 64 };
}

impl PurgeHook {
    /// No file is listed.
    pub fn new(alloc: Global) -> PurgeHook
        ensures { result ≡ no_files }
    {
        PurgeHook {
            first: 0,
            waiting: VecDeque::new(alloc),
            missing: None,
        }
    }

    /// A file was begun, or found at an open: one of Append is listed after the others.
    ///
    /// Fails with `Hole` if its number isn't the one after the last listed file, with `NumberRange` if it is 2^64 - 1,
    /// or with `Memory`. If it fails, nothing changes.
    pub fn post_new_log_file(&mut self, file_id: FileId) -> Result<()>
        ensures ok { OnOk result (ListsFile file_id.queue file_id.seq self.old self.new) }
        ensures errors { IfErr result (IsListingRefusal file_id.queue file_id.seq self.old) }
        ensures err { OnErr result (self.new ≡ self.old) }
    {
        if file_id.queue == LogQueue::Rewrite {
            return Ok(());
        }
        if file_id.seq == FileSeq::MAX {
            return Err(Error::NumberRange);
        }
        let first = match self.waiting.is_empty() {
            true => file_id.seq,
            false => self.first,
        };
        if first + self.waiting.len() as u64 != file_id.seq {
            return Err(Error::Hole);
        }
        self.waiting.push_back(0)?;
        self.first = first;
        Ok(())
    }

    /// The place of a file in the list.
    fn place_of(&self, file_id: FileId) -> Option<usize>
        ensures value { result ≡ place_of file_id.queue file_id.seq self.now }
        ensures within { IfSome result (λ place. place < length self.now.waiting) }
    {
        match file_id.queue {
            LogQueue::Append => {
                if file_id.seq < self.first {
                    return None;
                }
                let place = (file_id.seq - self.first) as usize;
                if place < self.waiting.len() {
                    return Some(place);
                }
                None
            }
            LogQueue::Rewrite => None,
        }
    }

    /// A record was written at this place: it waits, if its file is listed.
    pub fn on_append_log_file(&mut self, handle: FileBlockHandle)
        ensures { self.new ≡ counted one_more handle.id.queue handle.id.seq self.old }
    {
        if let Some(place) = self.place_of(handle.id) {
            self.waiting[place] = self.waiting[place].saturating_add(1);
        }
    }

    /// A record of this file was applied to the tables: one record fewer waits, if the file is listed.
    pub fn post_apply_memtables(&mut self, file_id: FileId)
        ensures { self.new ≡ counted one_less file_id.queue file_id.seq self.old }
    {
        if let Some(place) = self.place_of(file_id) {
            self.waiting[place] = self.waiting[place].saturating_sub(1);
        }
    }

    /// The number of the first file with a waiting record.
    fn first_waiting(&self) -> Option<FileSeq>
        ensures { result ≡ first_waiting self.now.first self.now.waiting }
    {
        for place in 0..self.waiting.len() {
            if self.waiting[place] > 0 {
                return Some(self.first + place as u64);
            }
        }
        None
    }

    /// The number from which on the hook pins files of a queue, if it pins any. It pins none of Rewrite.
    pub fn first_file_not_ready_for_purge(&self, queue: LogQueue) -> Option<FileSeq>
        ensures { result ≡ first_held queue self.now }
    {
        match queue {
            LogQueue::Append => lesser(self.first_waiting(), self.missing),
            LogQueue::Rewrite => None,
        }
    }

    /// The files of a queue up to this one were purged: those of Append aren't listed any more.
    ///
    /// Fails with `Hole` if the number is past the end of the list; then nothing changes.
    pub fn post_purge(&mut self, file_id: FileId) -> Result<()>
        ensures ok { OnOk result (DropsFiles file_id.queue file_id.seq self.old self.new) }
        ensures errors { IfErr result (IsDropRefusal file_id.queue file_id.seq self.old) }
        ensures err { OnErr result (self.new ≡ self.old) }
    {
        if file_id.queue == LogQueue::Rewrite {
            return Ok(());
        }
        if file_id.seq >= self.first + self.waiting.len() as u64 {
            return Err(Error::Hole);
        }
        if file_id.seq < self.first {
            return Ok(());
        }
        let count = (file_id.seq - self.first) as usize + 1;
        self.waiting.drain(..count);
        self.first = file_id.seq + 1;
        Ok(())
    }
}

impl EventListener for PurgeHook {
    ghost use Rattle.raft_log_file_listeners.specs.Active.{DropsListed, ListsOrMisses};
    ghost use Rattle.raft_log_file_listeners.specs.Hearing.{HookHears};

    ghost holds_back = { λ hook queue held. held ≡ first_held queue hook };

    ghost hears = { HookHears };

    /// A file that can't be listed pins its number and all after it.
    fn post_new_log_file(&mut self, file_id: FileId)
        ensures { ListsOrMisses file_id.queue file_id.seq self.old self.new }
    {
        if PurgeHook::post_new_log_file(self, file_id).is_err() {
            self.missing = lesser(self.missing, Some(file_id.seq));
        }
    }

    fn on_append_log_file(&mut self, handle: FileBlockHandle)
        ensures { self.new ≡ counted one_more handle.id.queue handle.id.seq self.old }
    {
        PurgeHook::on_append_log_file(self, handle);
    }

    fn post_apply_memtables(&mut self, file_id: FileId)
        ensures { self.new ≡ counted one_less file_id.queue file_id.seq self.old }
    {
        PurgeHook::post_apply_memtables(self, file_id);
    }

    fn first_file_not_ready_for_purge(&self, queue: LogQueue) -> Option<FileSeq>
        ensures { result ≡ first_held queue self.now }
    {
        PurgeHook::first_file_not_ready_for_purge(self, queue)
    }

    /// If the number is past the end of the list, nothing changes.
    fn post_purge(&mut self, file_id: FileId)
        ensures { DropsListed file_id.queue file_id.seq self.old self.new }
    {
        let _answer = PurgeHook::post_purge(self, file_id);
    }
}
