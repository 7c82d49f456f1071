//! Every image that a crash leaves: the entries of a group are one run in it, and it can be opened. For the entries,
//! `directory_by_intervals` gives the same as the last item that touches an index.

ghost use Rattle.std.specs.Prelude.{◌≡◌, ℕ, ◌≤◌, false, List, [], ◌∷◌, None, Option, Some};
ghost use Rattle.raft_log_model_laws.specs.Groups.{appended, directory_meaning, rewritten, taken};
ghost use Rattle.raft_log_model_laws.specs.Holes.{directory_by_intervals, IsSolid};
ghost use Rattle.raft_log_model_laws.specs.Item.{Item};
ghost use Rattle.raft_log_model_laws.specs.Meaning.Content.{Entry};
ghost use Rattle.raft_log_model_laws.specs.Meaning.Slot.{Index};
ghost use Rattle.raft_log_model_laws.specs.Meaning.{directory, says, Content, Slot};
ghost use Rattle.raft_log_model_laws.specs.Summary.{IsSummary, Summary};
ghost use Rattle.raft_log_model_laws.specs.Table.{IsTableOf, Table};
ghost use Rattle.raft_log_machine_laws.specs.Fresh.{fresh_machine};
ghost use Rattle.raft_log_machine_laws.specs.Images.{append_read, reopening, rewrite_read, HasRuns, Recovery};
ghost use Rattle.raft_log_machine_laws.specs.Machine.Event.{Reopen};
ghost use Rattle.raft_log_machine_laws.specs.Machine.{Event, IsKept, Machine, Step, Steps};
ghost use Rattle.raft_log_machine_laws.specs.Recovery.{HasMarks, IsReadOff, IsRecovered, StandAlike};
ghost use Rattle.raft_log_machine_laws.specs.Replay.{IsReplayable};
ghost use Rattle.raft_log_machine_laws.specs.Whereabouts.{top, Whereabouts};
ghost use Rattle.raft_log_machine_laws.specs.WrongRules.{entry_1, entry_3, failed_on};

/// In each image the entries of a group are one run, and none has the index 2^64 - 1. This is so after each prefix of
/// the pending batches. Each event keeps this, even a failure and an open, so it holds after every schedule.
pub fn each_image_has_one_run<E, V>()
    ensures fresh { HasRuns (fresh_machine {E = E} {V = V}) }
    ensures step { (e : Event E V) (w v : Machine E V) → Step e w v → IsKept w → HasRuns w → HasRuns v }
    ensures always { (events : List (Event E V)) (v : Machine E V) → Steps fresh_machine events v
        → HasRuns v }
{}

/// Each image can be opened, whatever prefixes of the unsynced records a crash left, and from whatever files the two
/// queues are read. What was read determines where each group's entries and values are, so there is a step that opens
/// it. No open of a directory that the engine left fails because of what its records mean.
pub fn each_image_can_be_opened<E, V>()
    ensures { (w : Machine E V) (r : Recovery w.store) → IsKept w → IsReplayable w → HasRuns w
        → (v : Machine E V) × Step (reopening w.store r) w v }
{}

/// Which whereabouts an open may make: those of the directory's table, with the tombstones that were read. The table is
/// made from any table of Rewrite and any summary of Append, however their segments were joined. What is in the
/// summary's table is in Append, all else in Rewrite.
pub fn tables_tell_the_whereabouts<E, V>()
    ensures { (t : Table E V) (z : Summary E V) (rewrite append : List (Item E V)) → IsTableOf t rewrite
        → IsSummary z append → (m : Slot → Option (Content E V))
        → ((s : Slot) → directory s rewrite append ≡ m s)
        → IsSolid (λ i. m (Index i)) → (u : Whereabouts) → IsReadOff t z u → u.end ≤ top → HasMarks append u
        → IsRecovered m append u }
{}

/// What an open read determines the whereabouts. Any two that it may make have the same entries in Rewrite and in
/// Append, and the same keys in Append. Both or neither owe a Clean. The index of a group without entries may differ,
/// and so may an owed Compact or Del.
pub fn an_open_has_no_choice<E, V>()
    ensures { (m : Slot → Option (Content E V)) (append : List (Item E V))
        → ((s : Slot) (v : Option (Content E V)) → says s append ≡ Some v → m s ≡ v)
        → (t u : Whereabouts) → IsRecovered m append t → IsRecovered m append u → StandAlike t u }
{}

/// For each image, read from any starts, even of a failed engine, `directory_by_intervals` gives the entries of the map
/// after the batches that were kept. By intervals, Rewrite keeps what Append's Cleans, greatest Compact and least start
/// of a run leave of it, and nothing if there is a gap.
pub fn intervals_say_the_same_of_images<E, V>()
    ensures all { (w : Machine E V) (r : Recovery w.store) → IsKept w → IsReplayable w → HasRuns w → (g i : ℕ)
        → directory_by_intervals i (rewritten g (rewrite_read w.store r)) (appended g (append_read w.store r))
        ≡ taken w.map r.a_kept g (Index i) }
    // if the engine has not failed and nothing of Append is lost, `HasRuns` isn't needed
    ensures running { (w : Machine E V) (r : Recovery w.store) → IsKept w → IsReplayable w → w.failed ≡ false
        → r.a_kept ≡ w.store.append.pending → (g i : ℕ)
        → directory_by_intervals i (rewritten g (rewrite_read w.store r)) (appended g (append_read w.store r))
        ≡ taken w.map r.a_kept g (Index i) }
{}

/// That the directory has a meaning and can be read isn't enough for an open. Rewrite has entry 1, Append entry 3.
/// Neither queue has a hole, nothing was lost, and entries 1 and 3 are there, but no step opens it. No whereabouts have
/// an empty index between two entries. `directory_by_intervals` drops entry 1.
pub fn meaning_and_reading_are_too_little()
    ensures kept { IsKept (failed_on (entry_1 ∷ []) (entry_3 ∷ [])) }
    ensures replay { IsReplayable (failed_on (entry_1 ∷ []) (entry_3 ∷ [])) }
    ensures closed { (v : Machine ℕ ℕ)
        → Step (Reopen [] [] [] [] [] [] [] []) (failed_on (entry_1 ∷ []) (entry_3 ∷ [])) v → ⊥ }
    ensures means { directory_meaning (entry_1 ∷ []) (entry_3 ∷ []) 1 (Index 1) ≡ Some (Entry 11) }
    ensures dropped { directory_by_intervals 1 (rewritten 1 (entry_1 ∷ [])) (appended 1 (entry_3 ∷ []))
        ≡ None }
{}
