//! The engine as a machine: its two queues, what they mean, and the whereabouts of each group. The whereabouts are
//! where things are, and which tombstones are still owed to Rewrite. What an event requires of groups is stated with
//! their whereabouts.

ghost use Rattle.std.specs.Prelude.{◌≡◌, ℕ, List, map};
ghost use Rattle.raft_log_model_laws.specs.Groups.{taken, Map};
ghost use Rattle.raft_log_model_laws.specs.Item.{Item};
ghost use Rattle.raft_log_model_laws.specs.Meaning.{Slot};
ghost use Rattle.raft_log_model_laws.specs.Renamed.{renamed, renamed_map};
ghost use Rattle.raft_log_machine_laws.specs.Fresh.{fresh_machine, nothing_stands};
ghost use Rattle.raft_log_machine_laws.specs.History.{history};
ghost use Rattle.raft_log_machine_laws.specs.Images.{HasRuns, IsOneRun};
ghost use Rattle.raft_log_machine_laws.specs.Machine.{Event, IsKept, Machine, Step, Steps};
ghost use Rattle.raft_log_machine_laws.specs.Recovery.{IsRecovered};
ghost use Rattle.raft_log_machine_laws.specs.Replay.{IsReplayable};
ghost use Rattle.raft_log_machine_laws.specs.Survival.{Survives};
ghost use Rattle.raft_log_machine_laws.specs.Whereabouts.{CarriesAll, GrowsBy, HasAppended, HasRewritten, IsRenumbered, Whereabouts};

/// A fresh directory, in which no group has anything, satisfies the invariant.
pub fn fresh_machine_is_kept<E, V>()
    ensures { IsKept (fresh_machine {E = E} {V = V}) }
{}

/// Each event keeps the invariant:
/// - a record in Append, syncs, tombstones and copies in Rewrite, parts of atomic groups,
/// - a live range that begins later, files that are lost, a failure,
/// - an open of any image from any starts.
pub fn each_step_keeps<E, V>()
    ensures { (e : Event E V) (w v : Machine E V) → Step e w v → IsKept w → IsKept v }
{}

/// After every schedule of events from a fresh directory, the directory survives as its map. The pending batches are
/// Append's unsynced records.
pub fn survives_always<E, V>()
    ensures { (events : List (Event E V)) (v : Machine E V) → Steps fresh_machine events v
        → Survives v.store v.map v.store.append.pending }
{}

/// The map as which a directory survives is made by the synced batches of its history, and its pending batches are
/// those of its history. The history has what Append took, except what a crash lost. Purges, failures and losses of
/// files don't change it.
pub fn map_is_what_was_taken<E, V>()
    ensures { (events : List (Event E V)) (v : Machine E V) → Steps fresh_machine events v
        → (v.store.append.pending ≡ (history events).pending)
        × ((g : ℕ) (s : Slot) → v.map g s ≡ taken nothing_stands (history events).synced g s) }
{}

/// If a group has no entries, its index in the whereabouts is free. It may become any index up to 2^64 - 1 at any time,
/// and the invariants hold.
pub fn renumbered_sound<E, V>()
    ensures kept { (w : Machine E V) (next : ℕ → Whereabouts)
        → ((g : ℕ) → IsRenumbered (w.whereabouts g) (next g))
        → IsKept w → IsKept (record w { whereabouts = next }) }
    ensures replay { (w : Machine E V) (next : ℕ → Whereabouts)
        → ((g : ℕ) → IsRenumbered (w.whereabouts g) (next g))
        → IsKept w → IsReplayable w → IsReplayable (record w { whereabouts = next }) }
    ensures runs { (w : Machine E V) (next : ℕ → Whereabouts) → HasRuns w
        → HasRuns (record w { whereabouts = next }) }
{}

/// Whereabouts don't depend on what represents an entry. They follow a batch of places as they follow a batch of bytes.
/// What they allow Rewrite to take, what an open makes from places, and what they require of the records that stay
/// holds for bytes too.
pub fn whereabouts_of_renamed<E, F, V>()
    ensures grows { (f : E → F) (t u : Whereabouts) (xs : List (Item E V)) → GrowsBy t xs u
        → GrowsBy t (map (renamed f) xs) u }
    ensures grew { (f : E → F) (t u : Whereabouts) (xs : List (Item E V)) → GrowsBy t (map (renamed f) xs) u
        → GrowsBy t xs u }
    ensures carries { (f : E → F) (m : Map E V) (g : ℕ) (t u : Whereabouts) (xs : List (Item E V))
        → CarriesAll (m g) t xs u → CarriesAll (renamed_map f m g) t (map (renamed f) xs) u }
    ensures recovered { (f : E → F) (m : Map E V) (g : ℕ) (xs : List (Item E V)) (t : Whereabouts)
        → IsRecovered (m g) xs t → IsRecovered (renamed_map f m g) (map (renamed f) xs) t }
    ensures appended { (f : E → F) (t : Whereabouts) (xs : List (Item E V)) → HasAppended t xs
        → HasAppended t (map (renamed f) xs) }
    ensures rewritten { (f : E → F) (m : Map E V) (g : ℕ) (t : Whereabouts) (xs : List (Item E V))
        → HasRewritten (m g) t xs → HasRewritten (renamed_map f m g) t (map (renamed f) xs) }
    ensures run { (f : E → F) (m : Map E V) (g : ℕ) → IsOneRun (m g) → IsOneRun (renamed_map f m g) }
{}
