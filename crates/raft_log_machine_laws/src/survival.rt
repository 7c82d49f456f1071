//! What two queues of records hold, and that each step keeps it. `HoldsMap q m`: a recovery that reads Append's synced
//! records, but no pending ones, gets the map `m`. This is so from every start in both queues, and for every prefix of
//! Rewrite's unsynced records.

ghost use Rattle.std.specs.Prelude.{◌≡◌, ℕ, List, [], ◌∷◌, ◌++◌};
ghost use Rattle.raft_log_model_laws.specs.Groups.{appended, of_group, rewritten, taken, Map};
ghost use Rattle.raft_log_model_laws.specs.Item.Mark.{End};
ghost use Rattle.raft_log_model_laws.specs.Item.Record.{Part, Plain};
ghost use Rattle.raft_log_model_laws.specs.Item.{items_of, Record, Tagged};
ghost use Rattle.raft_log_model_laws.specs.Meaning.{says, Slot};
ghost use Rattle.raft_log_machine_laws.specs.Images.{reopened, Recovery};
ghost use Rattle.raft_log_machine_laws.specs.Queue.{left, raised, synced, takes, with_append, with_rewrite, Store};
ghost use Rattle.raft_log_machine_laws.specs.Survival.{HoldsMap, IsSpoken, MayRaiseAppend, MayRaiseRewrite, MayRewrite, Survives};
ghost use Rattle.raft_log_machine_laws.specs.Unbroken.{begun, joined, IsUnbroken};

/// A directory that holds a map survives as it; the pending batches are Append's unsynced records. Whatever a crash
/// leaves of them, there is one number of batches for it. From every pair of starts, the directory means the map after
/// that many.
pub fn held_map_survives<E, V>()
    ensures { (q : Store E V) (m : Map E V) → HoldsMap q m → Survives q m q.append.pending }
{}

/// Append may take any record at any time: the directory still holds the map.
pub fn append_takes<E, V>()
    ensures { (q : Store E V) (m : Map E V) (y : Record E V) → HoldsMap q m
        → HoldsMap (with_append q (takes q.append y)) m }
{}

/// After Append is synced, the directory holds the map after the pending batches. The sync may also be that of a
/// rotation, or one after a failed write was truncated.
pub fn append_syncs<E, V>()
    ensures { (q : Store E V) (m : Map E V) → HoldsMap q m
        → HoldsMap (with_append q (synced q.append)) (taken m q.append.pending) }
{}

/// A sync of Rewrite keeps what the directory holds.
pub fn rewrite_syncs<E, V>()
    ensures { (q : Store E V) (m : Map E V) → HoldsMap q m → HoldsMap (with_rewrite q (synced q.rewrite)) m }
{}

/// Rewrite may take a record if, from each start, it makes only harmless items count: they restate content, or Append's
/// synced records override them.
pub fn rewrite_takes<E, V>()
    ensures { (q : Store E V) (m : Map E V) (y : Record E V) → MayRewrite q m y → HoldsMap q m
        → HoldsMap (with_rewrite q (takes q.rewrite y)) m }
{}

/// Append's live range may begin after the records `out` if Rewrite has nothing unsynced. For each slot, what stays
/// must touch it, or Rewrite is right about it.
pub fn append_rises<E, V>()
    ensures { (q : Store E V) (m : Map E V) (out stay : List (Record E V)) → out ++ stay ≡ q.append.live
        → q.rewrite.pending ≡ []
        → MayRaiseAppend q m stay → HoldsMap q m → HoldsMap (with_append q (raised q.append out stay)) m }
{}

/// Rewrite's live range may begin after the records `out` if it has nothing unsynced and its groups are unbroken. For
/// each slot, what counts of the records that stay must touch it, or the slot is empty, or Append overrides it.
pub fn rewrite_rises<E, V>()
    ensures { (q : Store E V) (m : Map E V) (out stay : List (Record E V)) → out ++ stay ≡ q.rewrite.live
        → q.rewrite.pending ≡ []
        → IsUnbroken (q.rewrite.gone ++ q.rewrite.live) → MayRaiseRewrite q m stay → HoldsMap q m
        → HoldsMap (with_rewrite q (raised q.rewrite out stay)) m }
{}

/// If files below Append's first one are deleted or renamed, or end up before a gap, the directory holds the same.
pub fn append_loses<E, V>()
    ensures { (q : Store E V) (m : Map E V) (lost rest : List (Record E V)) → lost ++ rest ≡ q.append.gone
        → HoldsMap q m → HoldsMap (with_append q (left q.append rest)) m }
{}

/// If files below Rewrite's first one are deleted, or end up before a gap, the directory holds the same.
pub fn rewrite_loses<E, V>()
    ensures { (q : Store E V) (m : Map E V) (lost rest : List (Record E V)) → lost ++ rest ≡ q.rewrite.gone
        → HoldsMap q m → HoldsMap (with_rewrite q (left q.rewrite rest)) m }
{}

/// A crash left any prefixes of the unsynced records, and an open read from any starts and synced what it read. Then
/// the directory holds the map after the batches that were left.
pub fn directory_reopens<E, V>()
    ensures { (q : Store E V) (m : Map E V) (r : Recovery q) → HoldsMap q m
        → HoldsMap (reopened q r) (taken m r.a_kept) }
{}

/// How an engine shows what the records that stay in Rewrite say. If a plain record that stays, or an atomic group that
/// stays from its BEGIN on, touches a slot, then what stays touches it. If the records are unbroken, what stays then
/// says of the slot what the whole live range said.
pub fn what_stays_in_rewrite_says<E, V>()
    ensures plain { (g : ℕ) (s : Slot) (xs zs : List (Record E V)) (ys : List (Tagged E V))
        → IsSpoken (says s (of_group g ys)) → IsSpoken (says s (rewritten g (xs ++ Plain ys ∷ zs))) }
    ensures group { (g : ℕ) (s : Slot) (xs zs : List (Record E V)) (n : ℕ)
        (first : List (Tagged E V)) (more : List (List (Tagged E V))) (last : List (Tagged E V))
        → IsSpoken (says s (of_group g (joined first more ++ last)))
        → IsSpoken (says s (rewritten g ((xs ++ begun n first more) ++ Part (End n) last ∷ zs))) }
    ensures same { (g : ℕ) (s : Slot) (out stay : List (Record E V)) → IsUnbroken (out ++ stay)
        → IsSpoken (says s (rewritten g stay))
        → says s (rewritten g stay) ≡ says s (rewritten g (out ++ stay)) }
{}

/// How an engine shows what the records that stay in Append say. If a record that stays touches a slot, then what stays
/// touches it. What stays then says of the slot what the whole live range said.
pub fn what_stays_in_append_says<E, V>()
    ensures one { (g : ℕ) (s : Slot) (xs zs : List (Record E V)) (y : Record E V)
        → IsSpoken (says s (of_group g (items_of y))) → IsSpoken (says s (appended g (xs ++ y ∷ zs))) }
    ensures same { (g : ℕ) (s : Slot) (out stay : List (Record E V)) → IsSpoken (says s (appended g stay))
        → says s (appended g stay) ≡ says s (appended g (out ++ stay)) }
{}
