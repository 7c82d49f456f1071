//! Tables: consecutive entries and values by key, as a store keeps them in memory. Each has the contents after its
//! items.

ghost use Rattle.std.specs.Prelude.{◌≡◌, ℕ, List, unwrap_or};
ghost use Rattle.raft_log_model_laws.specs.Item.{Item};
ghost use Rattle.raft_log_model_laws.specs.Meaning.{Slot, write, holds, directory};
ghost use Rattle.raft_log_model_laws.specs.Meaning.Slot.{Index, Key};
ghost use Rattle.raft_log_model_laws.specs.Holes.{nothing, write_past, holds_past, FitsOn, NoHole, directory_by_intervals};
ghost use Rattle.raft_log_model_laws.specs.Table.{
  Table,
  content,
  span_of,
  no_table,
  table_step,
  table_after,
  table_step_past,
  table_after_past,
};
ghost use Rattle.raft_log_model_laws.specs.Summary.{summary, directory_table};

/// A table takes one more item that leaves no hole. Then each slot that the item touches has the item's word, and any
/// other its content before.
pub fn table_takes_an_item<E, V>()
    ensures { (t : Table E V) (x : Item E V) (s : Slot) → FitsOn (span_of t) x
        → content (table_step t x) s ≡ unwrap_or (write s x) (content t s) }
{}

/// The same for any item, if a run past the end drops the earlier entries.
pub fn hostile_table_takes_an_item<E, V>()
    ensures { (t : Table E V) (x : Item E V) (s : Slot)
        → content (table_step_past t x) s ≡ unwrap_or (write_past (span_of t) s x) (content t s) }
{}

/// A table that took all items of a list has the contents after the list. For lists without holes, these are the last
/// word's. For every list, they are the last word's with the rule on runs past the end, if the table follows it.
pub fn table_holds_what_stands<E, V>()
    ensures without_holes { (xs : List (Item E V)) (s : Slot)
        → NoHole nothing xs → content (table_after no_table xs) s ≡ holds s xs }
    ensures any { (xs : List (Item E V)) (s : Slot)
        → content (table_after_past no_table xs) s ≡ holds_past s xs }
{}

/// The table of a directory whose Append has no hole has the entries by intervals, also for a hostile directory. Its
/// values are those of the last word.
pub fn directory_table_holds_what_stands<E, V>()
    ensures entries { (rewrite append : List (Item E V)) (i : ℕ) → NoHole nothing append
        → content (directory_table (table_after_past no_table rewrite) (summary append)) (Index i)
        ≡ directory_by_intervals i rewrite append }
    ensures values { (rewrite append : List (Item E V)) (k : List ℕ) → NoHole nothing append
        → content (directory_table (table_after_past no_table rewrite) (summary append)) (Key k)
        ≡ directory (Key k) rewrite append }
{}
