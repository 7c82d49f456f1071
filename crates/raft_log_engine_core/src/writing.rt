//! Writes a batch. Memory for its record and the tables is reserved first, so nothing fails once the record is written.

ghost use Rattle.std.specs.Prelude.{◌≡◌, ◌+◌, ◌++◌, ◌≤◌, ◌<◌, ◌^◌, ◌↔◌, ℕ, [], ◌∷◌, length, vec_capacity, vec_len, false, IfErr, IfOk, OnErr, OnOk, IsTrue};
ghost use Rattle.raft_log_record_frames.specs.declared.marking.Marking.TheVariants.{Broken};
ghost use Rattle.raft_log_record_frames.specs.Marking.{marking_of_items};
ghost use Rattle.raft_log_record_frames.specs.Meaning.{tagged_items};
ghost use Rattle.raft_log_record_frames.specs.Made.{IsMemoryOrFull};
ghost use Rattle.raft_log_record_frames.specs.Record.{record_len};
ghost use Rattle.raft_log_model_laws.specs.Groups.{of_group};
ghost use Rattle.raft_log_record_batches.specs.declared.log_batch.BatchState.TheVariants.{Filling, Populated};
ghost use Rattle.raft_log_record_batches.specs.Batch.{emptied, max_kept_len, IsReadyForEach, IsSigned};
ghost use Rattle.raft_log_memtables.specs.Batch.{all_shown, counts_at_end, IsReadyFor};
ghost use Rattle.raft_log_memtables.specs.Tables.{counts, shown_of, IsAtRest, ShowsSame};
ghost use Rattle.raft_log_dual_pipes.specs.Calls.{TellsFailure};
ghost use Rattle.raft_log_dual_pipes.specs.Pipes.{is_failed};
ghost use Rattle.raft_log_dual_pipes.specs.Telling.{Hears, files_begun};
ghost use Rattle.raft_log_dual_pipes.specs.Telling.Told.{RecordWritten};
ghost use Rattle.raft_log_record_base.specs.declared.pipe_log.LogQueue.TheVariants.{Append};
ghost use Rattle.raft_log_fs.specs.Causes.{IsLater};
ghost use Rattle.raft_log_block_cache.specs.Signing.{signed_for};
ghost use Rattle.raft_log_purge.specs.raft_log_engine_laws.specs.Trying.{RefusesAt, WritesAt};
ghost use Rattle.raft_log_block_cache.specs.raft_log_file_pipe.specs.Appending.{SaysTryAgain};
ghost use Rattle.raft_log_purge.specs.raft_log_engine_laws.specs.EngineState.{shows, IsWellMarked, IsWritable};
ghost use Rattle.raft_log_purge.specs.raft_log_engine_laws.specs.Writing.{items_at, IsBatchKept, IsUnfit, PipesRefused, Writes};
ghost use Rattle.raft_log_engine_core.specs.Hearing.{HearsRecord};
ghost use Rattle.raft_log_engine_core.specs.Room.{HasListFor, IsUnfitItself, StaysWritable};
ghost use Rattle.raft_log_engine_core.specs.Touching.{PipeRefuses, PipeTakes, RefusesBatch, WritesRecord};

use log::Log;
use raft_log_block_cache::{BlockCache, SignedBatch};
use raft_log_dual_pipes::PipeLog;
use raft_log_memtables::MemTables;
use raft_log_record_base::{Error, FileBlockHandle, LogQueue, Result};
use raft_log_record_batches::{BatchState, LogBatch};
use raft_log_record_frames::Marking;
use raft_log_record_items::LogItem;
use std::alloc::Global;
use std::mem;

/// Memory for the time of a write: a second batch, and a list for the items.
#[derive(Drop)]
pub struct Room {
    stand_in: LogBatch,
    items: Vec<LogItem>,
}

/// Checks a batch, encodes its record, and reserves memory for its write: in the tables, and in the returned `Room`. If
/// it fails, nothing changed, except that the record may have been encoded.
pub fn make_room(alloc: Global, tables: &mut MemTables, batch: &mut LogBatch) -> Result<Room>
    requires { IsAtRest tables.old }
    ensures shows { ShowsSame tables.old tables.new }
    ensures ok { OnOk result (IsReadyFor tables.new (tagged_items (λ e. e) batch.old.items)) }
    ensures kept { IsBatchKept batch.old batch.new }
    ensures again { StaysWritable batch.old batch.new }
    ensures made { OnOk result (batch.new.state ≡ Populated) }
    ensures marked { OnOk result (IsWellMarked batch.old) }
    ensures room { IfOk result (HasListFor batch.old) }
    ensures err { OnErr result (IsAtRest tables.new) }
    ensures errors { IfErr result (IsUnfit batch.old (shown_of tables.old)) }
{
    check(alloc, batch)?;
    populate(batch)?;
    let stand_in = LogBatch::default(alloc)?;
    let items = Vec::with_capacity(alloc, batch.len())?;
    match tables.prepare(batch.items()) {
        Ok(()) => Ok(Room { stand_in, items }),
        Err(error) => Err(error),
    }
}

/// Encodes the record of a batch, unless it is encoded already. If it fails, the batch keeps its items.
fn populate(batch: &mut LogBatch) -> Result<()>
    requires { IsWritable batch.old.state }
    ensures kept { IsBatchKept batch.old batch.new }
    ensures again { IsWritable batch.new.state }
    ensures made { OnOk result (batch.new.state ≡ Populated) }
    ensures errors { IfErr result (λ e. IsMemoryOrFull e (record_len batch.old.items batch.old.entries)) }
{
    if is_filling(batch) {
        batch.finish_populate()?;
    }
    Ok(())
}

/// Writes a batch after `make_room`, and returns the length of its record in bytes. The tables take its items, and it
/// is emptied. If the pipes fail, the batch is kept, nothing stays reserved, and no block is cached.
pub fn append<P: PipeLog, L: Log>(
    alloc: Global,
    rt: &L,
    pipes: &mut P,
    tables: &mut MemTables,
    cache: &mut BlockCache,
    batch: &mut LogBatch,
    room: Room,
) -> Result<usize>
    requires lives { is_failed (P.shown pipes.old) ≡ false }
    requires some { batch.old.items ≡ [] → ⊥ }
    requires made { batch.old.state ≡ Populated }
    requires marked { IsWellMarked batch.old }
    requires ready { IsReadyFor tables.old (tagged_items (λ e. e) batch.old.items) }
    requires room { HasListFor batch.old room }
    ensures ok { IfOk result (λ len. IsReadyForEach len batch.old.items batch.old.entries
        × Writes batch.old false (shows (P.shown pipes.old) tables.old cache.old)
        (shows (P.shown pipes.new) tables.new cache.new)) }
    ensures err { IfErr result (λ error. PipesRefused batch.old error
        (shows (P.shown pipes.old) tables.old cache.old) (shows (P.shown pipes.new) tables.new cache.new)) }
    ensures files { OnOk result (WritesRecord batch.old (P.shown pipes.old) (P.shown pipes.new)) }
    ensures left { IfErr result (λ error. RefusesBatch batch.old error
        (P.shown pipes.old) (P.shown pipes.new)) }
    ensures told { OnOk result (HearsRecord batch.old P.hears (P.shown pipes.old) (P.shown pipes.new)
        (P.listener pipes.old) (P.listener pipes.new)) }
    ensures told_less { OnErr result (Hears P.hears (files_begun Append (P.shown pipes.old) (P.shown pipes.new))
        (P.listener pipes.old) (P.listener pipes.new)) }
    ensures rests { IsAtRest tables.new }
    ensures emptied { OnOk result (batch.new ≡ emptied batch.old) }
    ensures bounded { OnOk result (batch.new.buffer ≤ max_kept_len) }
    ensures kept { OnErr result (batch.new ≡ batch.old) }
{
    let len = batch.encoded_len();
    let Room { stand_in, items } = room;
    let mut signed = SignedBatch::new(mem::replace(batch, stand_in));
    signed.encoded_len();
    let appended = append_or_again(alloc, rt, pipes, &mut signed);
    *batch = signed.into_batch();
    match appended {
        Ok(block) => {
            commit(tables, batch, block, items);
            pipes.post_apply_memtables(block.id);
            Ok(len)
        }
        Err(error) => {
            cache.clear();
            batch.unsign();
            tables.take_back(batch.items());
            Err(error)
        }
    }
}

/// Writes the record of a batch to Append. If that fails with `TryAgain`, Append has rotated, and it tries once more.
fn append_or_again<P: PipeLog, L: Log>(
    alloc: Global,
    rt: &L,
    pipes: &mut P,
    signed: &mut SignedBatch,
) -> Result<FileBlockHandle>
    ensures ok { IfOk result (λ block. WritesAt (signed_for signed.old.batch) block
        (P.shown pipes.old) (P.shown pipes.new)) }
    ensures place { IfOk result (λ block. block.offset < 2 ^ 63) }
    ensures err { IfErr result (λ error. RefusesAt (signed_for signed.old.batch) error
        (P.shown pipes.old) (P.shown pipes.new)) }
    ensures takes { IfOk result (λ block. PipeTakes (signed_for signed.old.batch) block
        (P.shown pipes.old) (P.shown pipes.new)) }
    ensures told { IfErr result (λ error. PipeRefuses (signed_for signed.old.batch) error
        (P.shown pipes.old) (P.shown pipes.new)) }
    ensures heard { IfOk result (λ block. Hears P.hears
        (files_begun Append (P.shown pipes.old) (P.shown pipes.new) ++ RecordWritten block ∷ [])
        (P.listener pipes.old) (P.listener pipes.new)) }
    ensures heard_less { OnErr result (Hears P.hears
        (files_begun Append (P.shown pipes.old) (P.shown pipes.new)) (P.listener pipes.old) (P.listener pipes.new)) }
    ensures said { record signed.new.batch { state = Populated }
        ≡ record signed.old.batch { state = Populated } }
    ensures fails { TellsFailure result (P.shown pipes.new) }
    ensures later { IsLater (P.shown pipes.old).disk (P.shown pipes.new).disk }
{
    let error = match pipes.append(alloc, rt, LogQueue::Append, signed) {
        Ok(block) => return Ok(block),
        Err(error) => error,
    };
    if is_no_space(&error) {
        return pipes.append(alloc, rt, LogQueue::Append, signed);
    }
    Err(error)
}

/// Whether the error says that there was no space for a record.
fn is_no_space(error: &Error) -> bool
    ensures { IsTrue result ↔ SaysTryAgain error.now }
{
    match error {
        Error::TryAgain(_) => true,
        _ => false,
    }
}

/// Commits a batch that was written at this place: applies it to the tables, and empties it.
fn commit(tables: &mut MemTables, batch: &mut LogBatch, block: FileBlockHandle, items: Vec<LogItem>)
    requires place { block.offset < 2 ^ 63 }
    requires signed { IsSigned batch.old.state }
    requires ready { IsReadyFor tables.old (tagged_items (λ e. e) batch.old.items) }
    requires none { items.items ≡ [] }
    requires room { vec_len items + length batch.old.items ≤ vec_capacity items }
    ensures shows { (g : ℕ) → shown_of tables.new g
        ≡ all_shown block.id.seq (shown_of tables.old) (items_at block batch.old) g }
    ensures counts { (g : ℕ) → counts tables.new g
        ≡ counts_at_end (counts tables.old g) (of_group g (items_at block batch.old)) }
    ensures rests { IsAtRest tables.new }
    ensures emptied { batch.new ≡ emptied batch.old }
    ensures bounded { batch.new.buffer ≤ max_kept_len }
{
    let mut items = items;
    batch.finish_write(block);
    let _ = batch.drain(&mut items);
    tables.apply_append_writes(items, block.id.seq);
}

/// Rejects a batch that was signed or written already, or whose marks are broken.
fn check(alloc: Global, batch: &LogBatch) -> Result<()>
    ensures writable { OnOk result (IsWritable batch.now.state) }
    ensures marked { OnOk result (IsWellMarked batch.now) }
    ensures errors { IfErr result (IsUnfitItself batch.now) }
{
    if !is_writable(batch) || is_broken(batch) {
        return Err(Error::InvalidArgument(format!(in alloc;
            "a batch that was written, or whose marks are broken"
        )?));
    }
    Ok(())
}

/// Whether a batch's record isn't encoded yet.
fn is_filling(batch: &LogBatch) -> bool
    ensures { IsTrue result ↔ (batch.now.state ≡ Filling) }
{
    match batch.state() {
        BatchState::Filling => true,
        _ => false,
    }
}

/// Whether a batch may be written: it was neither signed nor written.
fn is_writable(batch: &LogBatch) -> bool
    ensures { IsTrue result ↔ IsWritable batch.now.state }
{
    match batch.state() {
        BatchState::Filling => true,
        BatchState::Populated => true,
        _ => false,
    }
}

/// Whether a batch has two marks of atomic groups, or an invalid one.
fn is_broken(batch: &LogBatch) -> bool
    ensures { IsTrue result ↔ (marking_of_items batch.now.items ≡ Broken) }
{
    match batch.marking() {
        Marking::Broken => true,
        _ => false,
    }
}
