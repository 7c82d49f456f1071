//! Wrong rules that a log store might follow. For each, a short log with its meaning, the result of the right rule, and
//! that of the wrong one.

ghost use Rattle.std.specs.Prelude.{◌≡◌, ◌++◌, ◌∷◌, [], Some, None, true};
ghost use Rattle.raft_log_model_laws.specs.Item.Item.{Put};
ghost use Rattle.raft_log_model_laws.specs.Meaning.{holds};
ghost use Rattle.raft_log_model_laws.specs.Meaning.Content.{Entry, Value};
ghost use Rattle.raft_log_model_laws.specs.Meaning.Slot.{Index, Key};
ghost use Rattle.raft_log_model_laws.specs.Groups.{of_group, rewritten};
ghost use Rattle.raft_log_model_laws.specs.Holes.{is_past, nothing, NoHole};
ghost use Rattle.raft_log_model_laws.specs.Table.{content, span_of, no_table, table_after, table_after_past};
ghost use Rattle.raft_log_model_laws.specs.Summary.{directory_table, summary};
ghost use Rattle.raft_log_model_laws.specs.Fragments.{segment, merge, completed};
ghost use Rattle.raft_log_model_laws.specs.Examples.{
  voter_in,
  voter_if_rewrite_last,
  entry_in,
  value_in,
  voter,
  first_part,
  second_part,
  old_file,
  half,
  begun,
  ended_then_newer,
  shown,
  six,
  eight_then_seven,
  shown_in,
  six_and_seven,
};

/// Rewritten keys override appended ones: an old value is back.
pub fn rewritten_key_overrides()
    ensures right { voter_in (Put voter 1 ∷ []) (Put voter 2 ∷ []) ≡ Some (Value 2) }
    ensures wrong { voter_if_rewrite_last (Put voter 1 ∷ []) (Put voter 2 ∷ []) ≡ Some (Value 1) }
{}

/// Rewritten entries are written again in two records without an atomic group: after the first record the second half
/// is gone.
pub fn half_a_rewrite()
    ensures right { entry_in 3 (old_file ++ first_part) ≡ Some (Entry 3) }
    ensures wrong { entry_in 3 (old_file ++ half) ≡ None }
{}

/// Each segment drops the atomic groups that are not whole in it: a group that a border cuts is lost.
pub fn chunk_drops_open_group()
    ensures whole { entry_in 3 (first_part ++ second_part) ≡ Some (Entry 3) }
    ensures right { holds (Index 3) (of_group 1 (merge (segment first_part) (segment second_part)).counted)
        ≡ Some (Entry 3) }
    ensures wrong { holds (Index 3) (rewritten 1 first_part ++ rewritten 1 second_part) ≡ None }
{}

/// A group that a border cuts is put after all of the later segment, so it overrides what is newer.
pub fn completed_group_last()
    ensures whole { value_in (begun ++ ended_then_newer) ≡ Some (Value 2) }
    ensures right { holds (Key voter) (of_group 1 (merge (segment begun) (segment ended_then_newer)).counted)
        ≡ Some (Value 2) }
    ensures wrong { holds (Key voter) (rewritten 1 ended_then_newer
        ++ of_group 1 (completed (segment begun).left_open (segment ended_then_newer).heads))
        ≡ Some (Value 1) }
{}

/// Append's items are applied to Rewrite's table, in their order. Rewrite has entry 6; the remaining files of Append
/// begin with 8 to 11 and then have 7. Neither queue has a hole, and the directory has entries 6 and 7. Yet 8 is past
/// the end of Rewrite's entry, so that such an open fails or drops entry 6.
pub fn append_read_on_in_order()
    ensures whole { NoHole nothing six × NoHole nothing eight_then_seven }
    ensures means { shown 5 7 six eight_then_seven ≡ six_and_seven }
    ensures right { shown_in (directory_table (table_after no_table six) (summary eight_then_seven)) 5 7
        ≡ six_and_seven }
    ensures refused { is_past (span_of (table_after no_table six)) 8 ≡ true }
    ensures dropped { content (table_after_past (table_after_past no_table six) eight_then_seven) (Index 6)
        ≡ None }
{}
