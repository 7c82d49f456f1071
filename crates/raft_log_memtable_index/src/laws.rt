//! A table does only what the machine may do: each law is a function without a body.

ghost use Rattle.std.specs.Prelude.{◌≡◌, ℕ, ◌≤◌, ◌⊎◌, false, List, map, None, Option};
ghost use Rattle.raft_log_model_laws.specs.Item.{Item};
ghost use Rattle.raft_log_model_laws.specs.Meaning.{Slot, Content, after};
ghost use Rattle.raft_log_model_laws.specs.Table.{content};
ghost use Rattle.raft_log_machine_laws.specs.Whereabouts.{CarriesAll, GrowsBy};
ghost use Rattle.raft_log_machine_laws.specs.Notes.{IsInRewrite};
ghost use Rattle.raft_log_extents.specs.declared.place.Place.{Place};
ghost use Rattle.raft_log_memtable_index.specs.declared.group_files.GroupFiles.{GroupFiles};
ghost use Rattle.raft_log_memtable_index.specs.Shown.{
  Shown,
  IsOrderly,
  MayAllFollow,
  all_stepped,
  nothing_shown,
  span,
  whereabouts,
};
ghost use Rattle.raft_log_memtable_index.specs.Noted.{
  AppendedGrow,
  AppendedShrink,
  AreInFile,
  AreUpTo,
  FilesRise,
  IsLeastInRewrite,
  MovesIn,
  RewrittenCarry,
  RewrittenStay,
  noted_at,
  start_of,
  with_note,
};
ghost use Rattle.raft_log_memtable_index.specs.Bridge.{
  AllOwed,
  CanAllMove,
  IsMeant,
  Located,
  Move,
  all_moved,
  items_of,
  marks,
  table_of,
  unmarked,
  without,
  written,
};

/// A batch in a file of Append may be applied if none of its runs leaves a hole or ends past 2^64 - 1. The
/// `whereabouts` follow it item by item, and the places mean the map after the batch.
pub fn batch_grows<E>()
    ensures grows { (at : Located → E) (n : ℕ) (v : Shown) (xs : List (Item Place (List ℕ))) → IsOrderly v
        → MayAllFollow (span v) xs
        → GrowsBy (whereabouts v) (map (written at) xs) (whereabouts (all_stepped n v xs)) }
    ensures orderly { (n : ℕ) (v : Shown) (xs : List (Item Place (List ℕ))) → IsOrderly v
        → MayAllFollow (span v) xs → IsOrderly (all_stepped n v xs) }
    ensures means { (at : Located → E) (n : ℕ) (v : Shown) (xs : List (Item Place (List ℕ)))
        (m : Slot → Option (Content E (List ℕ))) → IsOrderly v → MayAllFollow (span v) xs → IsMeant at v m
        → IsMeant at (all_stepped n v xs) (after m (map (written at) xs)) }
{}

/// Copies into Rewrite, and rewritten entries and keys that are restated, keep the table's meaning. Rewrite may take
/// them if they begin in or right after its entries, reach to their end, and have the bytes that were read. They may
/// not overtake a tombstone that is owed.
pub fn moves_carry<E>()
    ensures carries { (at : Located → E) (v : Shown) (xs : List Move) (m : Slot → Option (Content E (List ℕ)))
        → IsOrderly v → CanAllMove at v xs → IsMeant at v m
        → CarriesAll m (whereabouts v) (items_of at v xs) (whereabouts (all_moved v xs)) }
    ensures orderly { (at : Located → E) (v : Shown) (xs : List Move) → IsOrderly v → CanAllMove at v xs
        → IsOrderly (all_moved v xs) }
    ensures means { (at : Located → E) (v : Shown) (xs : List Move) (m : Slot → Option (Content E (List ℕ)))
        → IsOrderly v → CanAllMove at v xs → IsMeant at v m → IsMeant at (all_moved v xs) m }
{}

/// The owed tombstones may be written: the Clean, the Compact, and the Dels of these keys, each once and none left out.
/// Then no tombstone is owed.
pub fn marks_carry<E>()
    ensures { (m : Slot → Option (Content E (List ℕ))) (v : Shown) (ks : List (List ℕ)) → AllOwed v.deleted ks
        → ((k : List ℕ) → without v.deleted ks k ≡ false)
        → CarriesAll m (whereabouts v) (marks v ks) (whereabouts (unmarked v)) }
{}

/// Only the bytes at a table's own places matter. Whatever is written elsewhere, the table means the same.
pub fn table_is_meant_elsewhere<E>()
    ensures { (at other : Located → E) (v : Shown) (m : Slot → Option (Content E (List ℕ)))
        → map other (table_of v).entries ≡ map at (table_of v).entries → IsMeant at v m → IsMeant other v m }
{}

/// A batch in file n of Append puts into Append only slots that it says something of, and those are in file n. All else
/// in Append stays in its file, and no slot of Rewrite is noted later than before.
pub fn batch_is_noted<E>()
    ensures append { (at : Located → E) (n : ℕ) (v : Shown) (xs : List (Item Place (List ℕ))) → IsOrderly v
        → MayAllFollow (span v) xs → AreInFile n xs
        → AppendedGrow (map (written at) xs) n v (all_stepped n v xs) }
    ensures rewrite { (n : ℕ) (v : Shown) (xs : List (Item Place (List ℕ))) → IsOrderly v
        → MayAllFollow (span v) xs → RewrittenStay v (all_stepped n v xs) }
{}

/// Copies put nothing into Append. The slots that they put into Rewrite are slots that they say something of. Each is
/// noted no later than the file of the plain record, or the first file of the atomic group once the group is noted. All
/// other slots are noted no later than before.
pub fn copies_are_noted<E>()
    ensures append { (at : Located → E) (v : Shown) (xs : List Move) → IsOrderly v → CanAllMove at v xs
        → AppendedShrink v (all_moved v xs) }
    ensures plain { (at : Located → E) (v : Shown) (xs : List Move) (n : ℕ) → IsOrderly v → CanAllMove at v xs
        → AreUpTo n xs → RewrittenCarry (items_of at v xs) n v (all_moved v xs) }
    ensures group { (at : Located → E) (v : Shown) (xs : List Move) (least : ℕ) (files : GroupFiles)
        → IsOrderly v
        → CanAllMove at v xs → AreUpTo files.to xs → IsLeastInRewrite (all_moved v xs) least
        → RewrittenCarry (items_of at v xs) files.from v (with_note (all_moved v xs) least files) }
{}

/// Rewrite may begin at the least file in use, counted with the noted groups: no slot stored there is noted in an
/// earlier file.
pub fn least_file_is_noted()
    ensures { (v : Shown) (least : ℕ) → IsLeastInRewrite v least → (s : Slot) → IsInRewrite (whereabouts v) s
        → (content (table_of v) s ≡ None) ⊎ (start_of least v.noted ≤ noted_at v s) }
{}

/// In each queue the files don't fall as the index of entries rises. That holds if there are no entries. A batch keeps
/// it true if its file of Append is no earlier than those of the appended entries. Copies keep it true if their file of
/// Rewrite is no earlier than those of the rewritten entries.
pub fn files_rise<E>()
    ensures nothing { (a r : ℕ) → FilesRise a r nothing_shown }
    ensures append { (a r n : ℕ) (v : Shown) (xs : List (Item Place (List ℕ))) → IsOrderly v → FilesRise a r v
        → a ≤ n → MayAllFollow (span v) xs → AreInFile n xs → FilesRise n r (all_stepped n v xs) }
    ensures rewrite { (at : Located → E) (a r n : ℕ) (v : Shown) (xs : List Move) → IsOrderly v
        → FilesRise a r v → r ≤ n → CanAllMove at v xs → MovesIn n xs → FilesRise a n (all_moved v xs) }
{}
