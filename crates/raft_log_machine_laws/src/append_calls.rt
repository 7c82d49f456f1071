//! What stays true of an engine's log after each call on Append, whether it succeeds or fails.

ghost use Rattle.std.specs.Prelude.{◌≡◌, ◌⊎◌, ◌∷◌, ℕ, List, ◌++◌, []};
ghost use Rattle.raft_log_model_laws.specs.Groups.{taken, Map};
ghost use Rattle.raft_log_model_laws.specs.Item.{Record};
ghost use Rattle.raft_log_machine_laws.specs.Whereabouts.{OwesNothing};
ghost use Rattle.raft_log_machine_laws.specs.Calls.Which.{InAppend};
ghost use Rattle.raft_log_machine_laws.specs.Calls.{Appends, CutsBack, FailsWhole, LeavesOut, MayAppend, Raises, Settles, Syncs, Which};
ghost use Rattle.raft_log_machine_laws.specs.Log.{ViewEndsAt, IsAt, IsLog, IsSettled, LogEnds, View};
ghost use Rattle.raft_log_machine_laws.specs.Notes.{AppendStandsFrom};
ghost use Rattle.raft_log_machine_laws.specs.Tables.{GrowsTo};

use crate::pipes::TiedFiles;

/// After a write, the log has the batch after the batches that were pending. A prefix of them all may be synced.
pub fn written_batch_is_pending<P: TiedFiles>()
    ensures { (s t : P) (v : View P.Entry P.Value) (m : Map P.Entry P.Value)
        (pending : List (Record P.Entry P.Value)) → IsAt (P.ties s) v m pending
        → (u : View P.Entry P.Value) (y : Record P.Entry P.Value) (n : ℕ)
        → Appends P.ties InAppend y n s t → GrowsTo y n v u → ViewEndsAt (P.ties t) u m (pending ++ y ∷ []) }
{}

/// A batch that isn't written leaves nothing in the log. If the pipe truncated a part that was written, all earlier
/// batches are synced. If nothing was written, a prefix of the earlier batches may be synced.
pub fn refused_batch_leaves_no_trace<P: TiedFiles>()
    ensures cut_back { (s t : P) (v : View P.Entry P.Value) (m : Map P.Entry P.Value)
        (pending : List (Record P.Entry P.Value)) → IsAt (P.ties s) v m pending
        → CutsBack P.ties InAppend s t → IsAt (P.ties t) v (taken m pending) [] }
    ensures left_out { (s t : P) (v : View P.Entry P.Value) (m : Map P.Entry P.Value)
        (pending : List (Record P.Entry P.Value)) → IsAt (P.ties s) v m pending
        → LeavesOut P.ties InAppend s t → ViewEndsAt (P.ties t) v m pending }
{}

/// If the pipe fails while it writes a batch, the log ends with that batch or without it. A prefix of the pending
/// batches may be synced.
pub fn batch_of_a_failed_pipe_may_be_there<P: TiedFiles>()
    ensures { (s t : P) (v : View P.Entry P.Value) (m : Map P.Entry P.Value)
        (pending : List (Record P.Entry P.Value)) → IsAt (P.ties s) v m pending
        → (u : ℕ → View P.Entry P.Value) (y : Record P.Entry P.Value)
        → MayAppend P.ties P.allows InAppend y s t → ((n : ℕ) → GrowsTo y n v (u n))
        → LogEnds (P.allows t) m pending ⊎ LogEnds (P.allows t) m (pending ++ y ∷ []) }
{}

/// After a sync that succeeds, all pending batches are in the map. If it fails, the log is unchanged.
pub fn synced_batches_are_in_the_map<P: TiedFiles>()
    ensures answered { (s t : P) (v : View P.Entry P.Value) (m : Map P.Entry P.Value)
        (pending : List (Record P.Entry P.Value)) → IsAt (P.ties s) v m pending
        → Syncs P.ties InAppend s t → IsAt (P.ties t) v (taken m pending) [] }
    ensures failed { (s t : P) (v : View P.Entry P.Value) (m : Map P.Entry P.Value)
        (pending : List (Record P.Entry P.Value)) → IsAt (P.ties s) v m pending
        → FailsWhole P.ties P.allows s t → IsLog (P.allows t) m pending }
{}

/// Once Append is synced, by a sync, a rotation or a truncation, all batches are in the map. A settled Rewrite stays
/// settled.
pub fn settled_append_has_all_batches<P: TiedFiles>()
    ensures batches { (s t : P) (v : View P.Entry P.Value) (m : Map P.Entry P.Value)
        (pending : List (Record P.Entry P.Value)) → Settles P.ties InAppend s t
        → IsAt (P.ties s) v m pending → IsAt (P.ties t) v (taken m pending) [] }
    ensures stays { (s t : P) (v : View P.Entry P.Value) (m : Map P.Entry P.Value)
        → Settles P.ties InAppend s t → IsSettled (P.ties s) v m → IsSettled (P.ties t) v m }
    ensures sync { (s t : P) (which : Which) → Syncs P.ties which s t → Settles P.ties which s t }
    ensures cut_back { (s t : P) (which : Which) → CutsBack P.ties which s t → Settles P.ties which s t }
{}

/// Calls one after another. If one syncs a prefix of the batches and a later one a prefix of the rest, together they
/// synced a prefix of all. If nothing is pending at the end, all batches are in the map.
pub fn ends_of_calls_compose<P: TiedFiles>()
    ensures view { (t : P) (m : Map P.Entry P.Value) (v : View P.Entry P.Value)
        (done rest more pending : List (Record P.Entry P.Value)) → done ++ rest ≡ pending
        → ViewEndsAt (P.ties t) v (taken m done) (rest ++ more) → ViewEndsAt (P.ties t) v m (pending ++ more) }
    ensures log { (t : P) (m : Map P.Entry P.Value)
        (done rest more pending : List (Record P.Entry P.Value)) → done ++ rest ≡ pending
        → LogEnds (P.allows t) (taken m done) (rest ++ more) → LogEnds (P.allows t) m (pending ++ more) }
    ensures all { (t : P) (m : Map P.Entry P.Value) (v : View P.Entry P.Value)
        (done rest pending : List (Record P.Entry P.Value)) → done ++ rest ≡ pending
        → IsAt (P.ties t) v (taken (taken m done) rest) [] → IsAt (P.ties t) v (taken m pending) [] }
{}

/// If nothing is pending in either queue and no tombstone is owed, Append may begin at the least file noted for it, or
/// before it. The map stays, whether the files below are lost or kept, or their deletion fails half way.
pub fn raised_append_keeps_the_map<P: TiedFiles>()
    ensures answered { (s t : P) (v : View P.Entry P.Value) (m : Map P.Entry P.Value) (n : ℕ)
        → IsSettled (P.ties s) v m → Raises P.ties P.ties InAppend n s t
        → ((g : ℕ) → OwesNothing (v.whereabouts g)) → AppendStandsFrom n v.whereabouts v.noted
        → IsSettled (P.ties t) v m }
    ensures failed { (s t : P) (v : View P.Entry P.Value) (m : Map P.Entry P.Value) (n : ℕ)
        → IsSettled (P.ties s) v m → Raises P.ties P.allows InAppend n s t
        → ((g : ℕ) → OwesNothing (v.whereabouts g)) → AppendStandsFrom n v.whereabouts v.noted
        → IsLog (P.allows t) m [] }
{}
