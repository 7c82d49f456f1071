//! A batch changes the tables of all groups only as the machine may: each law is a function without a body.

ghost use Rattle.std.specs.Prelude.{◌≡◌, ℕ, ◌++◌, [], false, map, List, Option};
ghost use Rattle.raft_log_model_laws.specs.Item.{Item, Tagged};
ghost use Rattle.raft_log_model_laws.specs.Groups.{of_group, Map};
ghost use Rattle.raft_log_model_laws.specs.Meaning.{after, Content, Slot};
ghost use Rattle.raft_log_model_laws.specs.Renamed.{renamed};
ghost use Rattle.raft_log_machine_laws.specs.Whereabouts.{CarriesAll, GrowsBy};
ghost use Rattle.raft_log_record_base.specs.declared.pipe_log.FileBlockHandle.{FileBlockHandle};
ghost use Rattle.raft_log_record_items.specs.declared.entry.EntryIndex.{EntryIndex};
ghost use Rattle.raft_log_record_items.specs.declared.item.LogItem.{LogItem};
ghost use Rattle.raft_log_record_items.specs.Placed.{written};
ghost use Rattle.raft_log_record_frames.specs.Meaning.{tagged_items};
ghost use Rattle.raft_log_extents.specs.declared.place.Place.{Place};
ghost use Rattle.raft_log_memtable_index.specs.Shown.{whereabouts, IsOrderly, Shown};
ghost use Rattle.raft_log_memtable_index.specs.Bridge.{
  all_moved,
  items_of,
  unmarked,
  CanAllMove,
  IsMeant,
  Located,
};
ghost use Rattle.raft_log_memtables.specs.declared.mem_tables.MemTables.{MemTables};
ghost use Rattle.raft_log_memtables.specs.Bare.{HasNothing};
ghost use Rattle.raft_log_memtables.specs.Batch.{all_shown, all_written, IsReadyFor, MayFollowAll};
ghost use Rattle.raft_log_memtables.specs.Owing.{AreOwedAt};
ghost use Rattle.raft_log_memtables.specs.Rewriting.{
  all_rewritten,
  copied_items,
  moves_of,
  AreCopies,
  MayMove,
  PromisesMoves,
  TakesRewritten,
};
ghost use Rattle.raft_log_memtables.specs.Tables.{counts, shown_of};

/// A batch in a file of Append may be applied in each group if no run of it leaves a hole or ends past 2^64 - 1. The
/// `whereabouts` follow its items, and the places mean the map after the batch.
pub fn batch_grows_everywhere<E>()
    ensures grows { (at : Located → E) (n : ℕ) (v : ℕ → Shown) (xs : List (Tagged Place (List ℕ)))
        → ((g : ℕ) → IsOrderly (v g)) → MayFollowAll v xs
        → (g : ℕ) → GrowsBy (whereabouts (v g)) (of_group g (all_written at xs)) (whereabouts (all_shown n v xs g)) }
    ensures orderly { (n : ℕ) (v : ℕ → Shown) (xs : List (Tagged Place (List ℕ)))
        → ((g : ℕ) → IsOrderly (v g)) → MayFollowAll v xs → (g : ℕ) → IsOrderly (all_shown n v xs g) }
    ensures means { (at : Located → E) (n : ℕ) (v : ℕ → Shown) (xs : List (Tagged Place (List ℕ)))
        → ((g : ℕ) → IsOrderly (v g)) → MayFollowAll v xs
        → (m : Map E (List ℕ)) → ((g : ℕ) → IsMeant at (v g) (m g))
        → (g : ℕ) → IsMeant at (all_shown n v xs g) (after (m g) (of_group g (all_written at xs))) }
{}

/// If tables are ready for a batch before it is written, they are ready for it after the write, wherever it was
/// written. A batch that they are ready for may follow.
pub fn ready_wherever_written()
    ensures written { (m : MemTables) (handle : FileBlockHandle) (items : List LogItem)
        → IsReadyFor m (tagged_items (λ e. e) items)
        → IsReadyFor m (tagged_items (λ e. e) (written handle items)) }
    ensures follows { (m : MemTables) (items : List LogItem) → IsReadyFor m (tagged_items (λ e. e) items)
        → MayFollowAll (shown_of m) (tagged_items (λ e. e) items) }
{}

/// Tables that are prepared for one rewritten batch after another have room for all of them, wherever they are written.
/// Once the first of them has moved, they have room for the others. For no items there is always room.
pub fn copies_have_room<E, V>()
    ensures none { (m : MemTables) → MayMove {E = E} {V = V} m [] }
    ensures more { (m n : MemTables) (xs ys : List (Tagged E V)) → MayMove m xs → PromisesMoves m n ys
        → MayMove n (xs ++ ys) }
    ensures moved { (gate : Option ℕ) (file : ℕ) (m n : MemTables) (xs ys : List (Tagged Place (List ℕ)))
        → MayMove m (xs ++ ys) → TakesRewritten gate file m n xs → MayMove n ys }
    ensures written { (m : MemTables) (handle : FileBlockHandle) (items : List LogItem)
        → MayMove m (tagged_items (λ e. e) items)
        → MayMove m (tagged_items (λ e. e) (written handle items)) }
{}

/// Copies that the gate lets move are moves of the machine: the tables show the same after both, and Rewrite may take
/// their items. They don't change the table's meaning.
pub fn gated_copies_carry<E>()
    ensures moves { (at : Located → E) (gate : Option ℕ) (n : ℕ) (v : Shown)
        (xs : List (Item Place (List ℕ))) → IsOrderly v → AreCopies at gate n v xs
        → (all_rewritten gate n v xs ≡ all_moved v (moves_of n xs)) × CanAllMove at v (moves_of n xs)
        × (items_of at v (moves_of n xs) ≡ copied_items at xs) }
    ensures carries { (at : Located → E) (gate : Option ℕ) (n : ℕ) (v : Shown)
        (xs : List (Item Place (List ℕ))) (m : Slot → Option (Content E (List ℕ))) → IsOrderly v
        → AreCopies at gate n v xs → IsMeant at v m
        → CarriesAll m (whereabouts v) (copied_items at xs) (whereabouts (all_rewritten gate n v xs)) }
    ensures orderly { (at : Located → E) (gate : Option ℕ) (n : ℕ) (v : Shown)
        (xs : List (Item Place (List ℕ))) → IsOrderly v → AreCopies at gate n v xs
        → IsOrderly (all_rewritten gate n v xs) }
    ensures means { (at : Located → E) (gate : Option ℕ) (n : ℕ) (v : Shown)
        (xs : List (Item Place (List ℕ))) (m : Slot → Option (Content E (List ℕ))) → IsOrderly v
        → AreCopies at gate n v xs → IsMeant at v m
        → IsMeant at (all_rewritten gate n v xs) m }
{}

/// Rewrite may take the tombstones that a group owes, wherever its places are, and then no tombstone is owed.
pub fn owed_marks_carry<E>()
    ensures { (f : EntryIndex → E) (m : Slot → Option (Content E (List ℕ))) (v : Shown)
        (xs : List (Item EntryIndex (List ℕ))) → AreOwedAt v xs
        → CarriesAll m (whereabouts v) (map (renamed f) xs) (whereabouts (unmarked v)) }
{}

/// A group that doesn't count has no entries and no values. It has had no items, or the last one was a Clean.
pub fn nothing_stands_uncounted()
    ensures { (m : MemTables) (g : ℕ) → counts m g ≡ false → HasNothing (shown_of m g) }
{}
