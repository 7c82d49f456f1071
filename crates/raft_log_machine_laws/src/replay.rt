//! What a reading requires in addition to the meaning: no run leaves a hole in either queue, and no other record comes
//! between those of an atomic group. A recovery can thus read whatever a crash leaves.

ghost use Rattle.std.specs.Prelude.{ℕ, ◌+◌, length, List, ◌∷◌, ◌++◌};
ghost use Rattle.raft_log_model_laws.specs.Item.Item.{Run};
ghost use Rattle.raft_log_model_laws.specs.Item.{Item, Record};
ghost use Rattle.raft_log_model_laws.specs.Tidy.{Tidy};
ghost use Rattle.raft_log_machine_laws.specs.Fresh.{fresh_machine};
ghost use Rattle.raft_log_machine_laws.specs.Machine.{Event, IsJoined, IsKept, Machine, Step, Steps};
ghost use Rattle.raft_log_machine_laws.specs.Replay.{IsReplayable, ReadsThrough};
ghost use Rattle.raft_log_machine_laws.specs.Unbroken.{IsUnbroken};

/// A fresh directory satisfies what replay requires.
pub fn fresh_machine_replays<E, V>()
    ensures { IsReplayable (fresh_machine {E = E} {V = V}) }
{}

/// Each event keeps what replay requires.
pub fn each_step_replays<E, V>()
    ensures { (e : Event E V) (w v : Machine E V) → Step e w v → IsKept w → IsReplayable w → IsReplayable v }
{}

/// If the invariants hold, each queue can be read from each start, with each prefix of its unsynced records. There is
/// no hole in either queue, and no other record comes between those of an atomic group.
pub fn kept_machine_replays<E, V>()
    ensures { (w : Machine E V) → IsKept w → IsReplayable w → ReadsThrough w.store }
{}

/// After every schedule of events from a fresh directory, reading succeeds.
pub fn replays_always<E, V>()
    ensures { (events : List (Event E V)) (v : Machine E V) → Steps fresh_machine events v → ReadsThrough v.store }
{}

/// Two runs of an atomic group, the second at the end of the first, may be taken as one. Such a replacement is also
/// allowed after other items, and in several steps.
pub fn runs_of_a_group_join<E, V>()
    ensures runs { (f : ℕ) (e : E) (es : List E) (d : E) (ds : List E) (rest : List (Item E V))
        → IsJoined (Run f (e ∷ es) ∷ Run (f + length (e ∷ es)) (d ∷ ds) ∷ rest)
        (Run f (e ∷ es ++ d ∷ ds) ∷ rest) }
    ensures same { (xs : List (Item E V)) → IsJoined xs xs }
    ensures behind { (front xs ys : List (Item E V)) → IsJoined xs ys → IsJoined (front ++ xs) (front ++ ys) }
    ensures in_turn { (xs ys zs : List (Item E V)) → IsJoined xs ys → IsJoined ys zs → IsJoined xs zs }
{}

/// Unbroken records are tidy, so they may be cut into segments anywhere, read apart and merged.
pub fn unbroken_records_are_tidy<E, V>()
    ensures { (rs : List (Record E V)) → IsUnbroken rs → Tidy rs }
{}
