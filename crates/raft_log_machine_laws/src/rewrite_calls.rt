//! What stays true of an engine's log after each call on Rewrite, whether it succeeds or fails. The map never changes.

ghost use Rattle.std.specs.Prelude.{◌∷◌, ℕ, List, ◌++◌, []};
ghost use Rattle.raft_log_model_laws.specs.Groups.{Map};
ghost use Rattle.raft_log_model_laws.specs.Item.Mark.{Begin, End, Middle};
ghost use Rattle.raft_log_model_laws.specs.Item.Record.{Part, Plain};
ghost use Rattle.raft_log_model_laws.specs.Item.{Record, Tagged};
ghost use Rattle.raft_log_machine_laws.specs.Machine.{AllFit};
ghost use Rattle.raft_log_machine_laws.specs.Calls.Which.{InRewrite};
ghost use Rattle.raft_log_machine_laws.specs.Calls.{Appends, CutsBack, IsInGroup, LeavesOut, MayAppend, Raises, Settles, Syncs};
ghost use Rattle.raft_log_machine_laws.specs.Log.{IsAt, IsLog, IsSettled, View};
ghost use Rattle.raft_log_machine_laws.specs.Notes.{RewriteStandsFrom};
ghost use Rattle.raft_log_machine_laws.specs.Tables.{CarriesTo, EndsGroupTo};

use crate::pipes::TiedFiles;

/// A sync of Rewrite keeps the map and the pending batches, and so does a record that isn't written there. If no batch
/// is pending, the log is settled after the sync.
pub fn refused_record_of_rewrite_changes_nothing<P: TiedFiles>()
    ensures sync { (s t : P) (v : View P.Entry P.Value) (m : Map P.Entry P.Value)
        (pending : List (Record P.Entry P.Value)) → IsAt (P.ties s) v m pending
        → Syncs P.ties InRewrite s t → IsAt (P.ties t) v m pending }
    ensures settled { (s t : P) (v : View P.Entry P.Value) (m : Map P.Entry P.Value)
        → Settles P.ties InRewrite s t → IsAt (P.ties s) v m [] → IsSettled (P.ties t) v m }
    ensures cut_back { (s t : P) (v : View P.Entry P.Value) (m : Map P.Entry P.Value)
        (pending : List (Record P.Entry P.Value)) → IsAt (P.ties s) v m pending
        → CutsBack P.ties InRewrite s t → IsAt (P.ties t) v m pending }
    ensures left_out { (s t : P) (v : View P.Entry P.Value) (m : Map P.Entry P.Value)
        (pending : List (Record P.Entry P.Value)) → IsAt (P.ties s) v m pending
        → LeavesOut P.ties InRewrite s t → IsAt (P.ties t) v m pending }
{}

/// Tombstones, copies and restated records keep the map, if no batch is pending. This holds whether the record is
/// written or the pipe fails.
pub fn carried_record_keeps_the_map<P: TiedFiles>()
    ensures answered { (s t : P) (v : View P.Entry P.Value) (m : Map P.Entry P.Value)
        (u : View P.Entry P.Value) (xs : List (Tagged P.Entry P.Value)) (n : ℕ)
        → Appends P.ties InRewrite (Plain xs) n s t → CarriesTo xs n v u
        → IsAt (P.ties s) v m [] → IsAt (P.ties t) u m [] }
    ensures failed { (s t : P) (v : View P.Entry P.Value) (m : Map P.Entry P.Value)
        (u : ℕ → View P.Entry P.Value) (xs : List (Tagged P.Entry P.Value))
        → MayAppend P.ties P.allows InRewrite (Plain xs) s t → ((n : ℕ) → CarriesTo xs n v (u n))
        → IsAt (P.ties s) v m [] → IsLog (P.allows t) m [] }
{}

/// The begin of an atomic group keeps the map and the pending batches, even if the pipe fails. If it is written, the
/// group's records are in files from that record's file on.
pub fn begun_group_keeps_the_map<P: TiedFiles>()
    ensures answered { (s t : P) (v : View P.Entry P.Value) (m : Map P.Entry P.Value)
        (pending : List (Record P.Entry P.Value)) → IsAt (P.ties s) v m pending
        → (n from : ℕ) (xs : List (Tagged P.Entry P.Value)) → AllFit xs
        → Appends P.ties InRewrite (Part (Begin n) xs) from s t
        → IsInGroup (P.ties t) v m pending from n xs [] }
    ensures failed { (s t : P) (v : View P.Entry P.Value) (m : Map P.Entry P.Value)
        (pending : List (Record P.Entry P.Value)) → IsAt (P.ties s) v m pending
        → (n : ℕ) (xs : List (Tagged P.Entry P.Value)) → AllFit xs
        → MayAppend P.ties P.allows InRewrite (Part (Begin n) xs) s t → IsLog (P.allows t) m pending }
{}

/// A middle of an atomic group, rotations between its records, and a group that is given up keep the map and the
/// pending batches. Nothing of the group counts yet.
pub fn unended_group_keeps_the_map<P: TiedFiles>()
    ensures answered { (s t : P) (v : View P.Entry P.Value) (m : Map P.Entry P.Value) (from n : ℕ)
        (first : List (Tagged P.Entry P.Value)) (more : List (List (Tagged P.Entry P.Value)))
        (pending : List (Record P.Entry P.Value)) (file : ℕ) (xs : List (Tagged P.Entry P.Value)) → AllFit xs
        → Appends P.ties InRewrite (Part (Middle n) xs) file s t
        → IsInGroup (P.ties s) v m pending from n first more
        → IsInGroup (P.ties t) v m pending from n first (more ++ xs ∷ []) }
    ensures failed { (s t : P) (v : View P.Entry P.Value) (m : Map P.Entry P.Value) (from n : ℕ)
        (first : List (Tagged P.Entry P.Value)) (more : List (List (Tagged P.Entry P.Value)))
        (pending : List (Record P.Entry P.Value)) (xs : List (Tagged P.Entry P.Value)) → AllFit xs
        → MayAppend P.ties P.allows InRewrite (Part (Middle n) xs) s t
        → IsInGroup (P.ties s) v m pending from n first more → IsLog (P.allows t) m pending }
    ensures left_out { (s t : P) (v : View P.Entry P.Value) (m : Map P.Entry P.Value) (from n : ℕ)
        (first : List (Tagged P.Entry P.Value)) (more : List (List (Tagged P.Entry P.Value)))
        (pending : List (Record P.Entry P.Value)) → LeavesOut P.ties InRewrite s t
        → IsInGroup (P.ties s) v m pending from n first more
        → IsInGroup (P.ties t) v m pending from n first more }
    ensures given_up { (s : P) (v : View P.Entry P.Value) (m : Map P.Entry P.Value) (from n : ℕ)
        (first : List (Tagged P.Entry P.Value)) (more : List (List (Tagged P.Entry P.Value)))
        (pending : List (Record P.Entry P.Value)) → IsInGroup (P.ties s) v m pending from n first more
        → IsAt (P.ties s) v m pending }
{}

/// The end of an atomic group, if no batch is pending: the whole group counts at once, and the map stays. The map also
/// stays if the pipe fails.
pub fn ended_group_keeps_the_map<P: TiedFiles>()
    ensures answered { (s t : P) (v : View P.Entry P.Value) (m : Map P.Entry P.Value) (from n : ℕ)
        (first : List (Tagged P.Entry P.Value)) (more : List (List (Tagged P.Entry P.Value)))
        (u : View P.Entry P.Value) (file : ℕ) (xs : List (Tagged P.Entry P.Value))
        → Appends P.ties InRewrite (Part (End n) xs) file s t → EndsGroupTo first more xs from v u
        → IsInGroup (P.ties s) v m [] from n first more → IsAt (P.ties t) u m [] }
    ensures failed { (s t : P) (v : View P.Entry P.Value) (m : Map P.Entry P.Value) (from n : ℕ)
        (first : List (Tagged P.Entry P.Value)) (more : List (List (Tagged P.Entry P.Value)))
        (u : View P.Entry P.Value) (xs : List (Tagged P.Entry P.Value))
        → MayAppend P.ties P.allows InRewrite (Part (End n) xs) s t → EndsGroupTo first more xs from v u
        → IsInGroup (P.ties s) v m [] from n first more → IsLog (P.allows t) m [] }
{}

/// Once nothing is pending in either queue, Rewrite may begin at the least file noted for it, or before it. The map
/// stays, even if the pipe fails.
pub fn raised_rewrite_keeps_the_map<P: TiedFiles>()
    ensures answered { (s t : P) (v : View P.Entry P.Value) (m : Map P.Entry P.Value) (n : ℕ)
        → IsSettled (P.ties s) v m → Raises P.ties P.ties InRewrite n s t
        → RewriteStandsFrom n v.map v.whereabouts v.noted_in_rewrite → IsSettled (P.ties t) v m }
    ensures failed { (s t : P) (v : View P.Entry P.Value) (m : Map P.Entry P.Value) (n : ℕ)
        → IsSettled (P.ties s) v m → Raises P.ties P.allows InRewrite n s t
        → RewriteStandsFrom n v.map v.whereabouts v.noted_in_rewrite → IsLog (P.allows t) m [] }
{}
