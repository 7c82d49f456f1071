//! The engine of a log.

ghost use Rattle.std.specs.Prelude.{◌≡◌, ◌↔◌, ◌≤◌, ℕ, [], None, Err, IsTrue, OnOk, OnErr, IfOk, IfErr};
ghost use Rattle.raft_log_record_base.specs.declared.errors.Error.TheVariants as errors;
ghost use Rattle.raft_log_purge_policy.specs.Picking.{count_of};
ghost use Rattle.raft_log_memtables.specs.Tables.{IsAtRest};

mod compacting;
mod entries;
mod messages;
pub mod opening;
mod purging;
mod reads;
mod scans;
mod whole;

use crate::writing;
use log::Log;
use raft_log_block_cache::BlockCache;
use raft_log_dual_pipes::{Closed, PipeLog};
use raft_log_memtables::MemTables;
use raft_log_purge::PurgeCounts;
use raft_log_purge_policy::Thresholds;
use raft_log_record_base::{Error, FileSeq, LogQueue, Result};
use raft_log_record_batches::LogBatch;
use std::alloc::Global;

/// The engine of a log. It has the log's pipes, the memtables of all groups, and a cache of one entry block. It also
/// has the thresholds of its purges, and what later purges use: their counts, and the file of Rewrite up to which a
/// compaction in steps is under way.
#[derive(Drop)]
pub struct LogEngine<P> {
    alloc: Global,
    pipes: P,
    tables: MemTables,
    cache: BlockCache,
    thresholds: Thresholds,
    counts: PurgeCounts,
    compacting: Option<FileSeq>,
    ghost rests: { IsAtRest tables },
}

impl<P: PipeLog> LogEngine<P> {
    ghost use Rattle.raft_log_purge.specs.raft_log_engine_laws.specs.Syncing.{NotSynced, SyncsAppend};
    ghost use Rattle.raft_log_purge.specs.raft_log_engine_laws.specs.Writing.{IsEmptied, IsBatchKept, IsKeptUnlessFailed, NotWritten, Writes, WritesBytes};
    ghost use Rattle.raft_log_record_batches.specs.Batch.{emptied, max_kept_len, IsButBuffer, IsReadyForEach};
    ghost use Rattle.raft_log_record_base.specs.declared.pipe_log.LogQueue.TheVariants.{Append, Rewrite};
    ghost use Rattle.raft_log_memtable.specs.Stats.{added, no_entries};
    ghost use Rattle.raft_log_engine_core.specs.Hearing.{HearsBatch, HearsRecord, HearsRefused};
    ghost use Rattle.raft_log_engine_core.specs.ModelCalls.{ClosesModel, FollowsModel, ModelSyncs, ModelWrites};
    ghost use Rattle.raft_log_engine_core.specs.Reads.{shows_of};
    ghost use Rattle.raft_log_engine_core.specs.Room.{IsMadeIfTried, IsMadeUnlessFailed, KeepsLittle, PutFails, StaysWritable};
    ghost use Rattle.raft_log_engine_core.specs.Touching.{LeavesFiles, LeavesRecord, StaysPurged, WritesFiles, WritesRecord};
    ghost use Rattle.raft_log_machine_laws.specs.Calls.Which.{InAppend};
    ghost use Rattle.raft_log_dual_pipes.specs.Calls.{FailsToSyncQueue, SyncsQueue};
    ghost use Rattle.std.specs.Prelude.{false, true};
    ghost use Rattle.raft_log_fs.specs.Causes.{IsLater};
    ghost use Rattle.raft_log_dual_pipes.specs.ClosingCalls.{ClosesAs, ClosesInOrder, ClosesLog, ClosesSettled};
    ghost use Rattle.raft_log_dual_pipes.specs.Pipes.{is_failed};
    ghost use Rattle.raft_log_dual_pipes.specs.Telling.{Hears, files_begun};

    /// Returns an engine over these pipes, tables and thresholds. `written` is how many entries and values were written
    /// to Rewrite before. No block is cached, and no group was asked to compact. The tables must have nothing reserved
    /// for a batch.
    pub fn new(
        alloc: Global,
        thresholds: Thresholds,
        pipes: P,
        tables: MemTables,
        written: u64,
    ) -> LogEngine<P>
        requires { IsAtRest tables }
        ensures pipes { result.pipes ≡ pipes }
        ensures tables { result.tables ≡ tables }
        ensures none { result.cache.place ≡ None }
        ensures thresholds { result.thresholds ≡ thresholds }
        ensures unasked { (g : ℕ) → count_of result.counts.rounds g ≡ 0 }
        ensures written { result.counts.stats ≡ added Rewrite written no_entries }
    {
        LogEngine {
            alloc,
            pipes,
            tables,
            cache: BlockCache::new(alloc),
            thresholds,
            counts: PurgeCounts::new(alloc, written),
            compacting: None,
        }
    }

    /// Whether the engine has failed: an earlier call failed in a way that couldn't be repaired.
    pub fn is_failed(&self) -> bool
        ensures { result ≡ is_failed (P.shown self.now.pipes) }
    {
        self.pipes.is_failed()
    }

    /// Makes all batches durable. It fails only with `Failed`; then the engine has failed, and so does every later read
    /// or write.
    pub fn sync<L: Log>(&mut self, rt: &L) -> Result<()>
        ensures model { FollowsModel ModelSyncs result (shows_of P.shown self.old) (shows_of P.shown self.new) }
        ensures ok { OnOk result (SyncsAppend (shows_of P.shown self.old) (shows_of P.shown self.new)) }
        ensures err { IfErr result (λ error.
            NotSynced error (shows_of P.shown self.old) (shows_of P.shown self.new)) }
        ensures files { OnOk result (SyncsQueue InAppend (P.shown self.old.pipes) (P.shown self.new.pipes)) }
        ensures left { OnErr result (FailsToSyncQueue InAppend
            (P.shown self.old.pipes) (P.shown self.new.pipes)) }
        ensures told { P.listener self.new.pipes ≡ P.listener self.old.pipes }
        ensures purges { StaysPurged self.old self.new }
    {
        self.pipes.sync(rt, LogQueue::Append)
    }

    /// Writes a batch, and returns the length of its record in bytes. With `sync`, then makes all batches durable. The
    /// batch is emptied, and keeps at most 8 MiB of its buffer. An empty batch isn't written and stays unchanged; the
    /// length is 0.
    ///
    /// # Errors
    ///
    /// Before anything is done:
    /// - `InvalidArgument` if the batch was written already, or its marks of atomic groups are broken.
    /// - `Full` if the record would have 2^56 bytes or more.
    /// - `Hole` if a group's entries would start past the index after its last one, or reach index 2^64 - 1.
    /// - `Memory`.
    ///
    /// From the write; the batch is kept and its record is encoded:
    /// - `Io` with the kind of the failed file system call. What was written is truncated, and all earlier batches are
    ///   durable.
    /// - `TryAgain`: the same for lack of space, in two files, one after the other.
    /// - `Memory`, `NumberRange`: Append couldn't rotate, for lack of memory or of a file number. A prefix of the
    ///   unsynced batches may be durable.
    ///
    /// `Failed`: the engine has failed, as every later read or write reports. The batch may be in the log or not, and
    /// it may have been emptied.
    ///
    /// Listeners hear of each file that Append rotated to. If the record is written, they hear of its place in Append's
    /// active file, and then that it was applied to the tables. They hear nothing of the sync. After that, even if the
    /// sync failed, the engine's own hook pins the files that it pinned before. The exception is a write that rotated
    /// to a file which the hook couldn't list (`laws::batches_hold_nothing_back`).
    pub fn write<L: Log>(&mut self, rt: &L, batch: &mut LogBatch, sync: bool) -> Result<usize>
        ensures model { FollowsModel (ModelWrites batch.old sync) result
            (shows_of P.shown self.old) (shows_of P.shown self.new) }
        ensures ok { IfOk result (λ len. WritesBytes batch.old sync len
            (shows_of P.shown self.old) (shows_of P.shown self.new)) }
        ensures err { IfErr result (λ error. NotWritten batch.old error
            (shows_of P.shown self.old) (shows_of P.shown self.new)) }
        ensures emptied { OnOk result (IsEmptied batch.old batch.new) }
        ensures bounded { OnOk result (KeepsLittle batch.old batch.new) }
        ensures kept { IfErr result (λ error. IsKeptUnlessFailed error batch.old batch.new) }
        ensures again { StaysWritable batch.old batch.new }
        ensures made { IfErr result (λ error. IsMadeUnlessFailed error batch.old batch.new
            (shows_of P.shown self.old) (shows_of P.shown self.new)) }
        ensures files { OnOk result (WritesFiles batch.old sync
            (P.shown self.old.pipes) (P.shown self.new.pipes)) }
        ensures left { IfErr result (λ error. LeavesFiles batch.old sync error
            (P.shown self.old.pipes) (P.shown self.new.pipes)) }
        ensures told { OnOk result (HearsBatch batch.old sync P.hears (P.shown self.old.pipes)
            (P.shown self.new.pipes) (P.listener self.old.pipes) (P.listener self.new.pipes)) }
        ensures told_less { IfErr result (λ error. HearsRefused batch.old sync P.hears error
            (P.shown self.old.pipes) (P.shown self.new.pipes)
            (P.listener self.old.pipes) (P.listener self.new.pipes)) }
        ensures purges { StaysPurged self.old self.new }
    {
        if self.is_failed() {
            return Err(Error::Failed);
        }
        if batch.is_empty() {
            if !sync {
                return Ok(0);
            }
            return match self.sync(rt) {
                Ok(()) => Ok(0),
                Err(error) => Err(error),
            };
        }
        match self.put(rt, batch) {
            Ok(len) => {
                if !sync {
                    return Ok(len);
                }
                match self.sync(rt) {
                    Ok(()) => Ok(len),
                    Err(error) => Err(error),
                }
            }
            Err(error) => Err(error),
        }
    }

    /// Writes a batch that isn't empty, without a sync, and returns the length of its record in bytes. The engine must
    /// not have failed.
    fn put<L: Log>(&mut self, rt: &L, batch: &mut LogBatch) -> Result<usize>
        requires lives { is_failed (P.shown self.old.pipes) ≡ false }
        requires some { batch.old.items ≡ [] → ⊥ }
        ensures ok { IfOk result (λ len. IsReadyForEach len batch.old.items batch.old.entries
            × Writes batch.old false (shows_of P.shown self.old) (shows_of P.shown self.new)) }
        ensures err { IfErr result (λ error. PutFails batch.old error
            (shows_of P.shown self.old) (shows_of P.shown self.new)) }
        ensures emptied { OnOk result (IsButBuffer (emptied batch.old) batch.new) }
        ensures bounded { OnOk result (batch.new.buffer ≤ max_kept_len) }
        ensures kept { OnErr result (IsBatchKept batch.old batch.new) }
        ensures again { StaysWritable batch.old batch.new }
        ensures made { IfErr result (λ error. IsMadeIfTried error batch.old batch.new
            (shows_of P.shown self.old) (shows_of P.shown self.new)) }
        ensures files { OnOk result (WritesRecord batch.old
            (P.shown self.old.pipes) (P.shown self.new.pipes)) }
        ensures left { IfErr result (λ error. LeavesRecord batch.old error
            (P.shown self.old.pipes) (P.shown self.new.pipes)) }
        ensures told { OnOk result (HearsRecord batch.old P.hears (P.shown self.old.pipes)
            (P.shown self.new.pipes) (P.listener self.old.pipes) (P.listener self.new.pipes)) }
        ensures told_less { OnErr result (Hears P.hears
            (files_begun Append (P.shown self.old.pipes) (P.shown self.new.pipes))
            (P.listener self.old.pipes) (P.listener self.new.pipes)) }
        ensures purges { StaysPurged self.old self.new }
    {
        let alloc = self.alloc;
        match writing::make_room(alloc, &mut self.tables, batch) {
            Ok(room) => writing::append(
                alloc,
                rt,
                &mut self.pipes,
                &mut self.tables,
                &mut self.cache,
                batch,
                room,
            ),
            Err(error) => Err(error),
        }
    }

    /// Closes the log, and returns the file system in any case. Truncates the active file of each queue after its last
    /// record, syncs both, and names the files that are kept for later use.
    ///
    /// If the result is `Ok`, every batch that `write` accepted is durable, also those written without a sync. It
    /// fails with `Io` if truncating or syncing an active file failed, with the kind of that error; with Append's if
    /// both queues failed. Batches since the last sync may not be durable then. It fails with `Failed` if the engine
    /// had failed before; then it touches nothing. A naming that fails is only logged.
    pub fn close<L: Log>(self, rt: &L) -> Closed<P::Files>
        ensures model { ClosesModel result.result (shows_of P.shown self) (P.disk_of result.files) }
        ensures held { is_failed (P.shown self.pipes) ≡ false
            → ClosesLog (P.shown self.pipes) (P.disk_of result.files) }
        ensures settled { OnOk result.result
            (ClosesSettled (P.shown self.pipes) (P.disk_of result.files)) }
        ensures calls { is_failed (P.shown self.pipes) ≡ false
            → ClosesInOrder (P.shown self.pipes) (P.disk_of result.files) }
        ensures value { is_failed (P.shown self.pipes) ≡ false
            → ClosesAs (P.shown self.pipes) result.result (P.disk_of result.files) }
        ensures failed { is_failed (P.shown self.pipes) ≡ true → result.files ≡ P.files self.pipes }
        ensures fails { IsTrue (is_failed (P.shown self.pipes)) ↔ (result.result ≡ Err errors.Failed) }
        ensures later { IsLater (P.shown self.pipes).disk (P.disk_of result.files) }
    {
        self.pipes.close(self.alloc, rt)
    }
}
