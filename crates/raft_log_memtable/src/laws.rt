//! A table that was prepared for a batch applies it, item after item, and none of these calls can fail.

ghost use Rattle.std.specs.Prelude.{◌≡◌, ◌+◌, ◌<◌, ◌≤◌, ◌∷◌, ◌++◌, [], false, ℕ, List, map, None, Option, Some};
ghost use Rattle.raft_log_record_base.specs.declared.pipe_log.LogQueue.TheVariants.{Append, Rewrite};
ghost use Rattle.raft_log_model_laws.specs.Item.{Item};
ghost use Rattle.raft_log_model_laws.specs.Renamed.{renamed};
ghost use Rattle.raft_log_extents.specs.declared.place.Place.{Place};
ghost use Rattle.raft_log_memtable_index.specs.declared.group_files.GroupFiles.{GroupFiles};
ghost use Rattle.raft_log_memtable_index.specs.Noted.{noting, start_of, with_note, FilesRise, IsLeastInRewrite};
ghost use Rattle.raft_log_memtable_index.specs.Shown.{span, stepped, IsOrderly, KeyValue, MayFollow, Shown};
ghost use Rattle.raft_log_memtable.specs.Files.{least_rewritten, min_file, noted_after, ArePast, FrontIsLeast, IsLeastInAppend, IsMinFile};
ghost use Rattle.raft_log_memtable.specs.Room.{kept, promised, CanTake, IsReady, Promise};
ghost use Rattle.raft_log_memtable.specs.Table.{shown, Raw};

/// A table is ready for no items if the ends that it promised are those of its entries. If it is ready for some items,
/// and prepared for one more that may follow the promised ends, it is ready for all of them. What an entry means
/// doesn't matter: a table that was prepared for entries before the write is ready for them after it, whichever file
/// they are in.
pub fn prepared_is_ready<E, F, V>()
    ensures none { (v : Shown) (q : Promise) → q.ends ≡ span v → IsReady {E = E} {V = V} v q [] }
    ensures more { (v : Shown) (q : Promise) (xs : List (Item E V)) (x : Item E V) → IsReady v q xs
        → MayFollow q.ends x → IsReady v (promised q x) (xs ++ x ∷ []) }
    ensures written { (f : E → F) (v : Shown) (q : Promise) (xs : List (Item E V)) → IsReady v q xs
        → IsReady v q (map (renamed f) xs) }
{}

/// A table that is ready for items can take the first of them, and then is ready for the others.
pub fn ready_takes_all()
    ensures can { (v : Shown) (q : Promise) (x : Item Place (List ℕ)) (xs : List (Item Place (List ℕ)))
        → IsReady v q (x ∷ xs) → CanTake v q x }
    ensures next { (n : ℕ) (v : Shown) (q : Promise) (x : Item Place (List ℕ))
        (xs : List (Item Place (List ℕ))) → IsReady v q (x ∷ xs) → IsReady (stepped n v x) (kept q x) xs }
{}

/// Suppose that in each queue the file of the table's first entry is the least of its entries there. If `min_file` then
/// returns a file, it is at or below the file of everything that is stored in that queue. For Rewrite it is the start
/// of the least such file, with the noted groups. If it returns none, nothing is stored there.
pub fn least_file_in_use()
    ensures append { (t : Raw) (n : ℕ) → FrontIsLeast (shown t) → min_file Append t ≡ Some n
        → IsLeastInAppend (shown t) n }
    ensures rewrite { (t : Raw) (n : ℕ) → IsOrderly (shown t) → FrontIsLeast (shown t)
        → min_file Rewrite t ≡ Some n
        → (least : ℕ) × IsLeastInRewrite (shown t) least × (n ≡ start_of least t.noted) }
    ensures nothing { (t : Raw) → IsOrderly (shown t) → min_file Rewrite t ≡ None
        → ((shown t).rewritten ≡ 0)
        × ((k : List ℕ) (h : KeyValue) → (shown t).held k ≡ Some h → h.appended ≡ false → ⊥) }
    // the first entry's file of each queue is the least one, if files don't fall along the entries
    ensures front { (a r : ℕ) (v : Shown) → FilesRise a r v → FrontIsLeast v }
    // the note for an atomic group that ended uses that least file
    ensures noted { (t : Raw) (new : GroupFiles) → IsOrderly (shown t) → FrontIsLeast (shown t)
        → (least : ℕ) × IsLeastInRewrite (shown t) least
        × (noted_after (least_rewritten t) t.noted new ≡ noting least t.noted new) }
{}

/// Suppose all that is stored in Rewrite is in files past a certain one, and the noted groups begin past it or end no
/// later than it. Then the least file in use is past it too. A group that begins past it and then ends keeps this true.
pub fn rewritten_begins_past()
    ensures begins { (v : Shown) (n file : ℕ) → IsLeastInRewrite v (n + 1) → ArePast n v.noted
        → IsMinFile Rewrite v (Some file) → n < file }
    ensures noted { (v : Shown) (n least : ℕ) (new : GroupFiles) → n < least → n < new.from
        → ArePast n v.noted → ArePast n (with_note v least new).noted }
{}
