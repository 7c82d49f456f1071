//! Segments of a queue: each is read by itself, and then they are merged. In any bracketing they mean the whole.

ghost use Rattle.std.specs.Prelude.{◌≡◌, ℕ, List, [], ◌++◌, Some};
ghost use Rattle.std.specs.Option.{option_or};
ghost use Rattle.raft_log_model_laws.specs.Item.{Item, Record};
ghost use Rattle.raft_log_model_laws.specs.Meaning.{Slot, says, holds, directory};
ghost use Rattle.raft_log_model_laws.specs.Meaning.Content.{Value};
ghost use Rattle.raft_log_model_laws.specs.Meaning.Slot.{Index, Key};
ghost use Rattle.raft_log_model_laws.specs.Groups.{of_group, rewritten};
ghost use Rattle.raft_log_model_laws.specs.Tidy.{Tidy};
ghost use Rattle.raft_log_model_laws.specs.Holes.{nothing, IsSolid, NoHole};
ghost use Rattle.raft_log_model_laws.specs.Fragments.{
  head,
  then_head,
  unfinished,
  completed,
  carried_on,
  segment,
  merge,
  IsSameSegment,
  Bracketing,
  all_of,
  merge_all,
};
ghost use Rattle.raft_log_model_laws.specs.Table.{content, IsTableOf, Table};
ghost use Rattle.raft_log_model_laws.specs.Summary.{Summary, summary, word, join, join_all, directory_table, IsSummary};
ghost use Rattle.raft_log_model_laws.specs.Examples.{voter, begun, newer_then_ended, value_in};

/// The summary of a list without holes has the list's word on each slot.
pub fn summary_says_the_last_word<E, V>()
    ensures { (s : Slot) (xs : List (Item E V)) → NoHole nothing xs → word (summary xs) s ≡ says s xs }
{}

/// Joining the summaries of two segments, however they were made, gives a summary of both: the later one's word,
/// otherwise the earlier one's. It is enough that the whole list has no hole; the joint needs no condition of its own.
pub fn joined_summaries<E, V>()
    ensures { (a z : Summary E V) (xs ys : List (Item E V))
        → IsSummary a xs → IsSummary z ys → NoHole nothing (xs ++ ys)
        → IsSummary (join a z) (xs ++ ys) }
{}

/// Any table of Rewrite and any summary of Append, however their segments were joined, give the directory's contents.
/// The condition is that each index between two entries of the directory has an entry too.
pub fn any_summary_makes_the_directory<E, V>()
    ensures { (t : Table E V) (z : Summary E V) (rewrite append : List (Item E V))
        → IsTableOf t rewrite → IsSummary z append → IsSolid (λ i. directory (Index i) rewrite append)
        → (s : Slot) → content (directory_table t z) s ≡ directory s rewrite append }
{}

/// Consecutive segments are each summarized by themselves and then joined in any bracketing. The result has the word of
/// the whole list, and its table has the contents after it.
pub fn any_bracketing_says_the_whole<E, V>()
    ensures word { (t : Bracketing (Item E V)) (s : Slot)
        → NoHole nothing (all_of t) → word (join_all t) s ≡ says s (all_of t) }
    ensures table { (t : Bracketing (Item E V)) (s : Slot)
        → NoHole nothing (all_of t) → content (join_all t).table s ≡ holds s (all_of t) }
{}

/// Joining is associative in entries and values: two bracketings of one list give the same contents.
pub fn joining_is_associative<E, V>()
    ensures { (t u : Bracketing (Item E V)) (s : Slot) → all_of t ≡ all_of u → NoHole nothing (all_of t)
        → content (join_all t).table s ≡ content (join_all u).table s }
{}

/// Tidy records may be cut anywhere. What counts in all of them is what counts before the cut and what counts after it.
/// Between the two come the items of the groups that the cut splits.
pub fn tidy_records_may_be_cut<E, V>()
    ensures { (g : ℕ) (xs ys : List (Record E V)) → Tidy (xs ++ ys)
        → rewritten g (xs ++ ys)
        ≡ rewritten g xs ++ (of_group g (completed (unfinished xs) (λ n. head n [] ys)) ++ rewritten g ys) }
{}

/// Two segments, one after the other, treat a group that is open before them as the first and then the second does. The
/// groups that they leave unfinished are those of the first that the second doesn't finish, and those of the second.
/// The records may be any.
pub fn borders_of_two<E, V>()
    ensures heads { (n : ℕ) (xs ys : List (Record E V))
        → head n [] (xs ++ ys) ≡ then_head (head n [] xs) (head n [] ys) }
    ensures left_open { (xs ys : List (Record E V))
        → unfinished (xs ++ ys) ≡ carried_on (unfinished xs) (λ n. head n [] ys) ++ unfinished ys }
{}

/// Consecutive segments of tidy records, each read by itself and merged in any bracketing, give the segment of all of
/// them. Nothing is lost if a border cuts an atomic group.
pub fn any_bracketing_is_the_whole<E, V>()
    ensures { (t : Bracketing (Record E V))
        → Tidy (all_of t) → IsSameSegment (merge_all t) (segment (all_of t)) }
{}

/// Why the records must be tidy. If another record touches the raft group of an open atomic group, merging the two
/// halves doesn't give what the whole says. Nor does reading from a place after its begin.
pub fn disturbed_group()
    ensures whole { value_in (begun ++ newer_then_ended) ≡ Some (Value 1) }
    ensures later_start { value_in newer_then_ended ≡ Some (Value 2) }
    ensures merged { holds (Key voter) (of_group 1 (merge (segment begun) (segment newer_then_ended)).counted)
        ≡ Some (Value 2) }
{}
