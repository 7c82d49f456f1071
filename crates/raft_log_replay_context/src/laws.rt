//! The result of merging the segments of a directory: each law is a function without a body.

ghost use Rattle.std.specs.Prelude.{◌≡◌, ℕ, List, map};
ghost use Rattle.raft_log_record_base.specs.declared.pipe_log.LogQueue.TheVariants.{Append};
ghost use Rattle.raft_log_model_laws.specs.Groups.{appended};
ghost use Rattle.raft_log_machine_laws.specs.Recovery.{IsRecovered};
ghost use Rattle.raft_log_memtable_index.specs.Shown.{whereabouts};
ghost use Rattle.raft_log_memtable_index.specs.Bridge.{IsMeant, Located};
ghost use Rattle.raft_log_memtable_index.specs.Replayed.{told};
ghost use Rattle.raft_log_memtables.specs.declared.mem_tables.MemTables.{MemTables};
ghost use Rattle.raft_log_memtables.specs.Tables.{shown_of};
ghost use Rattle.raft_log_replay_context.specs.declared.context.MemTableRecoverContext.{MemTableRecoverContext};
ghost use Rattle.raft_log_replay_context.specs.Records.{counted, records_of, ReadRecord};
ghost use Rattle.raft_log_replay.specs.Segments.{HasReadSegments, HoldsOne};
ghost use Rattle.raft_log_machine_laws.specs.Calls.{IsMadeOf};
ghost use Rattle.raft_log_machine_laws.specs.Model.{Files};
ghost use Rattle.raft_log_memtables.specs.Views.{view_of};
ghost use Rattle.raft_log_replay_context.specs.Opened.{map_read, told_records, AreTablesOf};
ghost use Rattle.raft_log_replay_context.specs.Batches.{HasReadBatches, HaveReadAlike};
ghost use Rattle.raft_log_replay_context.specs.Context.{meant_by, ComesOver, HasRead, IsSoundFor};

use raft_log_replay::ReplaySource;

/// Tables of all of Append, put over those of all of Rewrite, are the directory's. The bytes at the places of each
/// group are what the directory means, and an open may derive the `whereabouts` and the owed tombstones from them. The
/// records must be sound for the group (`IsSoundFor`).
pub fn merged_tables_are_recovered<E>()
    ensures means { (at : Located → E) (rewrite append : List ReadRecord) (m : MemTables)
        → ComesOver rewrite append m → (g : ℕ) → IsSoundFor at rewrite append g
        → IsMeant at (shown_of m g) (meant_by at rewrite append g) }
    ensures recovered { (at : Located → E) (rewrite append : List ReadRecord) (m : MemTables)
        → ComesOver rewrite append m → (g : ℕ) → IsSoundFor at rewrite append g
        → IsRecovered (meant_by at rewrite append g) (map (told at) (counted g append))
        (whereabouts (shown_of m g)) }
{}

/// What a context has read of Append counts at once: nothing waits for the end of an atomic group.
pub fn append_counts_at_once()
    ensures { (g : ℕ) (rs : List ReadRecord) (c : MemTableRecoverContext) → HasRead Append rs c
        → counted g rs ≡ appended g (records_of rs) }
{}

/// Suppose each segment holds one list of batches. Two readings of all segments, with any numbers of workers, have then
/// read the same records, with the same endings of segments. If the records are in order, both hold the same entries
/// and values of each group, in the same places and files, and the same groups count.
pub fn workers_show_the_same<S: ReplaySource>()
    ensures { (source : S) → HoldsOne (S.holds source) → (count : ℕ) (m n : MemTableRecoverContext)
        (es fs : List S.Ending)
        → HasReadSegments (S.holds source) (HasReadBatches (S.queue_of source)) 0 count m es
        → HasReadSegments (S.holds source) (HasReadBatches (S.queue_of source)) 0 count n fs
        → HaveReadAlike (S.queue_of source) m n × (es ≡ fs) }
{}

/// The view that an open gets from its tables (`AreTablesOf`) is built from what it read. Its map is the directory's,
/// and its `whereabouts` are ones that a recovery may find. For each slot in Append, the file that stores its content
/// is noted; in Rewrite, a file from which on it counts.
pub fn opened_view_is_made_of_what_was_read<E>()
    ensures { (at : Located → E) (rewrite append : List ReadRecord) (m : MemTables) (f : Files E (List ℕ))
        → AreTablesOf at rewrite append m f
        → IsMadeOf (view_of (shown_of m) (map_read at rewrite append)) (told_records at rewrite)
        (told_records at append) f }
{}
