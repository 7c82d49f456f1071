//! What is kept while segments of a queue are read is what their items say: each law is a function without a body.

ghost use Rattle.std.specs.Prelude.{◌≡◌, ◌≤◌, ℕ, Bool, true, false, List, [], ◌∷◌, ◌++◌, map, Option};
ghost use Rattle.raft_log_model_laws.specs.Item.{Item};
ghost use Rattle.raft_log_model_laws.specs.Meaning.{Slot, directory};
ghost use Rattle.raft_log_model_laws.specs.Meaning.Slot.{Index};
ghost use Rattle.raft_log_model_laws.specs.Holes.{nothing, FitsOn, IsSolid, NoHole};
ghost use Rattle.raft_log_model_laws.specs.Table.{content};
ghost use Rattle.raft_log_machine_laws.specs.Recovery.{IsRecovered};
ghost use Rattle.raft_log_extents.specs.declared.place.Place.{Place};
ghost use Rattle.raft_log_memtable_index.specs.declared.group_files.GroupFiles.{GroupFiles};
ghost use Rattle.raft_log_memtable_index.specs.Shown.{IsOrderly, KeyValue, MayFollow, Shown, span, whereabouts};
ghost use Rattle.raft_log_memtable_index.specs.Bridge.{IsMeant, Located, unmarked};
ghost use Rattle.raft_log_memtable_index.specs.Noted.{start_of};
ghost use Rattle.raft_log_memtable_index.specs.Replayed.{
  IsReplayed,
  LeavesHole,
  Replayed,
  joined,
  merged,
  nothing_replayed,
  placed,
  replayed,
  standing,
  told,
};

/// What is kept of a group while a segment is read is a summary of the items that were read, with their tombstones.
/// Noting the files of an atomic group doesn't change that. If the runs of a queue leave no hole, no item is rejected.
pub fn replay_is_a_summary()
    ensures nothing { (q : Bool) → IsReplayed q [] nothing_replayed }
    ensures step { (q : Bool) (n : ℕ) (xs : List (Item Located KeyValue)) (z : Replayed)
        (x : Item Place (List ℕ)) → IsReplayed q xs z → MayFollow (span z.table) x
        → IsReplayed q (xs ++ (placed q n x ∷ [])) (replayed q n z x) }
    ensures noted { (q : Bool) (xs : List (Item Located KeyValue)) (z : Replayed) (files : Option GroupFiles)
        → IsReplayed q xs z → IsReplayed q xs (record z { table = record z.table { noted = files } }) }
    ensures fits { (q : Bool) (n : ℕ) (xs : List (Item Located KeyValue)) (z : Replayed)
        (x : Item Place (List ℕ)) → IsReplayed q xs z → NoHole nothing (xs ++ (placed q n x ∷ []))
        → FitsOn (span z.table) x }
{}

/// Suppose no run of a queue leaves a hole. Two segments that are read apart and joined then equal both read as one.
/// That is also true if atomic groups that a border completes have items between them. No join fails with `Hole`. Two
/// readings of one list have the same entries and values, with their places and files. Joining is therefore
/// associative, and cutting a queue into segments changes nothing.
pub fn joined_segments()
    ensures joined { (q : Bool) (xs ys : List (Item Located KeyValue)) (a z : Replayed) → IsReplayed q xs a
        → IsReplayed q ys z → NoHole nothing (xs ++ ys) → IsReplayed q (xs ++ ys) (joined a z) }
    ensures border { (q : Bool) (xs cs ys : List (Item Located KeyValue)) (a c z : Replayed)
        → IsReplayed q xs a → IsReplayed q cs c → IsReplayed q ys z → NoHole nothing (xs ++ (cs ++ ys))
        → IsReplayed q (xs ++ (cs ++ ys)) (joined (joined a c) z) }
    ensures fits { (q : Bool) (xs ys : List (Item Located KeyValue)) (a z : Replayed) → IsReplayed q xs a
        → IsReplayed q ys z → NoHole nothing (xs ++ ys) → LeavesHole a.table z → ⊥ }
    ensures same { (q : Bool) (xs : List (Item Located KeyValue)) (a b : Replayed) → IsReplayed q xs a
        → IsReplayed q xs b → (s : Slot) → content (standing a.table) s ≡ content (standing b.table) s }
    ensures associative { (q : Bool) (xs ys zs : List (Item Located KeyValue)) (a b c : Replayed)
        → IsReplayed q xs a → IsReplayed q ys b → IsReplayed q zs c → NoHole nothing (xs ++ (ys ++ zs))
        → (s : Slot)
        → content (standing (joined (joined a b) c).table) s
        ≡ content (standing (joined a (joined b c)).table) s }
{}

/// What was read of Append, put over what was read of Rewrite, is the directory's table, if the directory's entries
/// have no gap. The bytes at its places are what the directory means, and an open may derive the `whereabouts` and the
/// owed tombstones from it.
pub fn merged_table_is_recovered<E>()
    ensures means { (at : Located → E) (rewrite append : List (Item Located KeyValue)) (r z : Replayed)
        → IsReplayed false rewrite r → IsReplayed true append z
        → IsSolid (λ i. directory (Index i) (map (told at) rewrite) (map (told at) append))
        → IsMeant at (merged r.table z) (λ s. directory s (map (told at) rewrite) (map (told at) append)) }
    ensures recovered { (at : Located → E) (rewrite append : List (Item Located KeyValue)) (r z : Replayed)
        → IsReplayed false rewrite r → IsReplayed true append z
        → IsSolid (λ i. directory (Index i) (map (told at) rewrite) (map (told at) append))
        → IsRecovered (λ s. directory s (map (told at) rewrite) (map (told at) append))
        (map (told at) append) (whereabouts (merged r.table z)) }
    ensures orderly { (rewrite append : List (Item Located KeyValue)) (r z : Replayed)
        → IsReplayed false rewrite r → IsReplayed true append z → IsOrderly (merged r.table z) }
{}

/// What was read of a group that is in one queue alone is the directory's table: without its tombstones if that queue
/// is Rewrite, unchanged if it is Append.
pub fn one_queue_is_recovered<E>()
    ensures rewrite_means { (at : Located → E) (rewrite : List (Item Located KeyValue)) (r : Replayed)
        → IsReplayed false rewrite r
        → IsMeant at (unmarked r.table) (λ s. directory s (map (told at) rewrite) []) }
    ensures rewrite_recovered { (at : Located → E) (rewrite : List (Item Located KeyValue)) (r : Replayed)
        → IsReplayed false rewrite r
        → IsRecovered (λ s. directory s (map (told at) rewrite) []) [] (whereabouts (unmarked r.table)) }
    ensures append_means { (at : Located → E) (append : List (Item Located KeyValue)) (z : Replayed)
        → IsReplayed true append z → IsMeant at z.table (λ s. directory s [] (map (told at) append)) }
    ensures append_recovered { (at : Located → E) (append : List (Item Located KeyValue)) (z : Replayed)
        → IsReplayed true append z
        → IsRecovered (λ s. directory s [] (map (told at) append)) (map (told at) append)
        (whereabouts z.table) }
{}

/// The noted atomic groups say which file must stay for what is in file `n` to count. After two segments are joined, or
/// Append is put over Rewrite, it is no later one than for the later table. If that has no Clean, it is also no later
/// one than for the earlier table.
pub fn joins_are_noted()
    ensures joined { (a z : Replayed) (n : ℕ)
        → (start_of n (joined a z).table.noted ≤ start_of n z.table.noted)
        × (z.table.cleaned ≡ false → start_of n (joined a z).table.noted ≤ start_of n a.table.noted) }
    ensures merged { (v : Shown) (z : Replayed) (n : ℕ)
        → (start_of n (merged v z).noted ≤ start_of n z.table.noted)
        × (z.table.cleaned ≡ false → start_of n (merged v z).noted ≤ start_of n v.noted) }
{}
