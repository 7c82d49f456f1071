//! An open shows the map after a prefix of the pending batches, whichever image it found.

ghost use Rattle.std.specs.Prelude.{ℕ, ◌≤◌, List, [], length, take};
ghost use Rattle.raft_log_model_laws.specs.Groups.{taken, Map};
ghost use Rattle.raft_log_model_laws.specs.Item.{Record};
ghost use Rattle.raft_log_machine_laws.specs.Calls.{Replays};
ghost use Rattle.raft_log_machine_laws.specs.Log.{IsAt, IsLog, View};

use crate::pipes::TiedFiles;

/// An open that succeeds shows the map after a prefix of the log's pending batches, and has none pending. It needs no
/// premise that tables can be built from what it reads: in every image each group's entries are one run.
pub fn open_shows_what_was_kept<P: TiedFiles>()
    ensures { (s t : P) (v : View P.Entry P.Value) (m : Map P.Entry P.Value)
        (pending : List (Record P.Entry P.Value))
        → Replays P.allows P.ties v s t → IsLog (P.allows s) m pending
        → (k : ℕ) × (k ≤ length pending) × IsAt (P.ties t) v (taken m (take k pending)) [] }
{}
