//! The state of a worker that reads one segment of a queue.
ghost use Rattle.std.specs.Prelude.{◌≡◌, ◌+◌, ◌-◌, ◌^◌, min, List, [], Some, OnOk, IfErr};
ghost use Rattle.raft_log_record_base.specs.declared.errors.Error.TheVariants.{Memory};
ghost use Rattle.raft_log_record_base.specs.declared.pipe_log.LogQueue.{LogQueue};
ghost use Rattle.raft_log_record_base.specs.declared.pipe_log.LogQueue.TheVariants.{Append, Rewrite};
ghost use Rattle.raft_log_model_laws.specs.Item.Mark.{End};
ghost use Rattle.raft_log_record_frames.specs.Meaning.{part_of};
ghost use Rattle.raft_log_memtables.specs.Tables.{IsAtRest};
ghost use Rattle.raft_log_replay_context.specs.Records.{record_read, ReadRecord};
ghost use Rattle.raft_log_replay_context.specs.Pieces.{part_read, IsBrokenMark};

use crate::part::GroupPart;
use crate::pieces::GroupPieces;
use crate::settle::{settle_all, settle_whole};
use crate::written::written_count;
use raft_log_memtables::MemTables;
use raft_log_record_base::{Error, FileId, FileSeq, LogQueue, Result};
use raft_log_record_frames::{AtomicGroupStatus, Marking};
use raft_log_record_items::LogItem;
use std::alloc::Global;

/// The state of a worker that reads one segment of a queue. It has the tables of all groups, and the pieces of atomic
/// groups that the segment's two ends cut. If a call fails, drop the context: no clause then says which records it has
/// read.
#[derive(Drop)]
pub struct MemTableRecoverContext {
    alloc: Global,
    tables: MemTables,
    pieces: GroupPieces,
    /// The number of entries and values that were read.
    written: u64,
    ghost rests: { IsAtRest tables },
}

impl MemTableRecoverContext {
    ghost use Rattle.raft_log_replay_context.specs.Batches.{RewriteIsUnread, MergeDeclined, ReplayDeclined};
    ghost use Rattle.raft_log_replay_context.specs.Written.{written_in};
    ghost use Rattle.raft_log_replay_context.specs.Context.{
      tables_of,
      written_to,
      AppendRefused,
      ComesOver,
      HasRead,
      JoinsOn,
      LeavesNoHole,
      MergesInto,
      ContextReadsOn,
      ContextReadsOne,
    };

    /// The context of a segment without records.
    pub fn new(alloc: Global) -> MemTableRecoverContext
        ensures read { (queue : LogQueue) → HasRead queue [] result }
        ensures written { written_to result ≡ 0 }
    {
        MemTableRecoverContext {
            alloc,
            tables: MemTables::new(alloc),
            pieces: GroupPieces::new(alloc),
            written: 0,
        }
    }

    /// Applies the items of a batch that was read in a file. In Append all count at once; in Rewrite those of an atomic
    /// group count at its end.
    ///
    /// Fails with `Hole` only if a run in Append leaves a hole in its group or ends past 2^64 - 1. Fails with
    /// `Corruption` only if a batch of Rewrite has a broken mark or two marks. Otherwise it fails with `Memory`. If it
    /// fails in Append, a prefix of the items is applied.
    pub fn replay(&mut self, items: Vec<LogItem>, file: FileId) -> Result<()>
        ensures ok { OnOk result (ContextReadsOn file items.items self.old self.new) }
        ensures fits { OnOk result (LeavesNoHole file items.items self.old) }
        ensures errors { IfErr result (ReplayDeclined file items.items self.old) }
        ensures partly { IfErr result (λ e. AppendRefused file items.items self.old self.new e) }
        ensures written { OnOk result (written_to self.new
            ≡ min (written_to self.old + written_in items.items) (2 ^ 64 - 1)) }
    {
        let written = written_count(items.as_slice());
        self.written = self.written.saturating_add(written);
        self.take(items, file)
    }

    /// Applies the items of a batch to the tables, or adds them to the pieces of their atomic group.
    fn take(&mut self, items: Vec<LogItem>, file: FileId) -> Result<()>
        ensures ok { OnOk result (ContextReadsOn file items.items self.old self.new) }
        ensures fits { OnOk result (LeavesNoHole file items.items self.old) }
        ensures errors { IfErr result (ReplayDeclined file items.items self.old) }
        ensures partly { IfErr result (λ e. AppendRefused file items.items self.old self.new e) }
        ensures written { written_to self.new ≡ written_to self.old }
    {
        match file.queue {
            LogQueue::Append => self.tables.replay_append_writes(items, file.seq),
            LogQueue::Rewrite => self.replay_rewrite(items, file.seq),
        }
    }

    /// Applies the items of a batch that was read in a file of Rewrite.
    fn replay_rewrite(&mut self, items: Vec<LogItem>, file: FileSeq) -> Result<()>
        ensures ok { OnOk result
            (ContextReadsOne Rewrite (record_read Rewrite file items.items) self.old self.new) }
        ensures errors { IfErr result (RewriteIsUnread (record_read Rewrite file items.items)) }
        ensures written { written_to self.new ≡ written_to self.old }
    {
        match Marking::parse_all(items.as_slice()) {
            Marking::Unmarked => self.tables.replay_rewrite_writes(items, file),
            Marking::Part(number, status) => {
                self.replay_part(number, status, GroupPart { items, file })
            }
            Marking::Broken => Err(broken(self.alloc)),
        }
    }

    /// Takes a record of an atomic group that was read.
    fn replay_part(&mut self, number: u64, status: AtomicGroupStatus, part: GroupPart) -> Result<()>
        ensures ok { OnOk result
            (ContextReadsOne Rewrite (Some (part_read (part_of number status) part)) self.old self.new) }
        ensures errors { IfErr result (λ e. e ≡ Memory) }
        ensures written { written_to self.new ≡ written_to self.old }
    {
        match status {
            AtomicGroupStatus::Begin => Ok(self.pieces.begin(number, part)?),
            AtomicGroupStatus::Middle => Ok(self.pieces.go_on(number, part)?),
            AtomicGroupStatus::End => self.replay_end(number, part),
        }
    }

    /// Takes the last record of an atomic group: if the group began in this segment, it counts.
    fn replay_end(&mut self, number: u64, part: GroupPart) -> Result<()>
        ensures ok { OnOk result
            (ContextReadsOne Rewrite (Some (part_read (End number) part)) self.old self.new) }
        ensures errors { IfErr result (λ e. e ≡ Memory) }
        ensures written { written_to self.new ≡ written_to self.old }
    {
        let whole = self.pieces.end(number, part)?;
        settle_whole(self.alloc, &mut self.tables, whole)
    }

    /// Merges the context of the next segment of the same queue into this one. Atomic groups that this completes are
    /// applied between the two.
    ///
    /// Fails with `Hole` only if the records of both segments, one after the other, aren't in order (`AreOrderly`), as
    /// when a run leaves a hole. Otherwise it fails with `Memory`.
    pub fn merge(&mut self, later: MemTableRecoverContext, queue: LogQueue) -> Result<()>
        ensures ok { OnOk result (MergesInto queue self.old later self.new) }
        ensures fits { OnOk result (JoinsOn later self.new) }
        ensures errors { IfErr result (MergeDeclined queue self.old later) }
        ensures written { OnOk result (written_to self.new
            ≡ min (written_to self.old + written_to later) (2 ^ 64 - 1)) }
    {
        self.written = self.written.saturating_add(later.written);
        self.join(later, queue)
    }

    /// Joins the tables and the pieces of the next segment to these.
    fn join(&mut self, later: MemTableRecoverContext, queue: LogQueue) -> Result<()>
        ensures ok { OnOk result (MergesInto queue self.old later self.new) }
        ensures fits { OnOk result (JoinsOn later self.new) }
        ensures errors { IfErr result (MergeDeclined queue self.old later) }
        ensures written { written_to self.new ≡ written_to self.old }
    {
        match queue {
            LogQueue::Append => self.tables.merge_newer_neighbor(later.tables),
            LogQueue::Rewrite => self.merge_rewrite(later),
        }
    }

    /// Merges the context of the next segment of Rewrite into this one.
    fn merge_rewrite(&mut self, later: MemTableRecoverContext) -> Result<()>
        ensures ok { OnOk result (MergesInto Rewrite self.old later self.new) }
        ensures fits { OnOk result (JoinsOn later self.new) }
        ensures errors { IfErr result (MergeDeclined Rewrite self.old later) }
        ensures written { written_to self.new ≡ written_to self.old }
    {
        let MemTableRecoverContext { tables, pieces, .. } = later;
        let done = self.pieces.merge(pieces)?;
        settle_all(self.alloc, &mut self.tables, done)?;
        self.tables.merge_newer_neighbor(tables)
    }

    /// The number of entries and values that were read, at most 2^64 - 1.
    pub fn written(&self) -> u64
        ensures { result ≡ written_to self.now }
    {
        self.written
    }

    /// Puts the context of all of Append over this one, which is that of all of Rewrite.
    ///
    /// Fails only with `Memory`.
    pub fn merge_append_context(&mut self, append: MemTableRecoverContext) -> Result<()>
        ensures ok { OnOk result ((rewrite behind : List ReadRecord)
            → HasRead Rewrite rewrite self.old → HasRead Append behind append
            → ComesOver rewrite behind (tables_of self.new)) }
        ensures errors { IfErr result (λ e. e ≡ Memory) }
        ensures written { written_to self.new ≡ written_to self.old }
    {
        self.tables.merge_append_table(append.tables)
    }

    /// The tables of all groups, in which nothing is prepared. Atomic groups that never ended are dropped.
    pub fn finish(self) -> MemTables
        ensures tables { result ≡ tables_of self }
        ensures rest { IsAtRest result }
    {
        self.tables
    }
}

/// The error for a batch with a broken mark or with two marks.
fn broken(alloc: Global) -> Error
    ensures { IsBrokenMark result }
{
    match String::from_str(alloc, "Invalid atomic group mark") {
        Ok(text) => Error::Corruption(text),
        Err(_) => Error::Memory,
    }
}
