//! Hostile lists: runs past the end of the current run, and gaps between Rewrite's entries and Append's. On lists
//! without them the rules for them change nothing.

ghost use Rattle.std.specs.Prelude.{◌≡◌, ℕ, List, ◌++◌, Some, None, false, is_none};
ghost use Rattle.raft_log_model_laws.specs.Item.{Item};
ghost use Rattle.raft_log_model_laws.specs.Meaning.{Slot, says, holds, directory};
ghost use Rattle.raft_log_model_laws.specs.Meaning.Slot.{Index};
ghost use Rattle.raft_log_model_laws.specs.Meaning.Content.{Entry};
ghost use Rattle.raft_log_model_laws.specs.Holes.{
  Window,
  nothing,
  window,
  says_past,
  holds_past,
  NoHole,
  is_silent,
  has_gap,
  directory_by_intervals,
  IsSolid,
  Spans,
};
ghost use Rattle.raft_log_model_laws.specs.Examples.{hole_at, last_word_at, with_gap, gap_closed, closing_run};

/// The entries that a list leaves are one run, and its two ends are the window's. This holds for any list if a run past
/// the end drops the earlier entries. For a list without holes it also holds without that rule.
pub fn one_run_stands<E, V>()
    ensures any { (xs : List (Item E V))
        → Spans (window nothing xs).first (window nothing xs).end (λ i. holds_past (Index i) xs) }
    ensures without_holes { (xs : List (Item E V)) → NoHole nothing xs
        → Spans (window nothing xs).first (window nothing xs).end (λ i. holds (Index i) xs) }
{}

/// If no run starts past the end of the current run, the rule on such runs changes nothing.
pub fn no_hole_no_rule<E, V>()
    ensures { (w : Window) (s : Slot) (xs : List (Item E V)) → NoHole w xs → says_past w s xs ≡ says s xs }
{}

/// A list without holes has none in any prefix, nor in any suffix.
pub fn no_hole_in_parts<E, V>()
    ensures front { (front back : List (Item E V)) → NoHole nothing (front ++ back) → NoHole nothing front }
    ensures back { (front back : List (Item E V)) → NoHole nothing (front ++ back) → NoHole nothing back }
{}

/// A list without a Clean doesn't touch the indexes from its greatest Compact index on and below the least start of its
/// runs. It touches all others. A list with a Clean touches every index.
pub fn silent_between_the_bounds<E, V>()
    ensures { (xs : List (Item E V)) (i : ℕ) → is_none (says (Index i) xs) ≡ is_silent xs i }
{}

/// If Rewrite has no hole and no gap remains, the wording by intervals means the same as the last word. By intervals, a
/// group keeps nothing of Rewrite if Append has a Clean for it. Otherwise it keeps the indexes from Append's greatest
/// Compact index on and below the least start of its runs. Append's entries override them.
pub fn directory_is_by_intervals<E, V>()
    ensures { (i : ℕ) (rewrite append : List (Item E V))
        → NoHole nothing rewrite → has_gap (window nothing rewrite) append ≡ false
        → directory_by_intervals i rewrite append ≡ directory (Index i) rewrite append }
{}

/// A directory without holes, in which each index between two entries has an entry too, has no gap. For it the two
/// wordings mean the same.
pub fn solid_directory_is_by_intervals<E, V>()
    ensures { (i : ℕ) (rewrite append : List (Item E V)) → NoHole nothing rewrite → NoHole nothing append
        → IsSolid (λ j. directory (Index j) rewrite append)
        → directory_by_intervals i rewrite append ≡ directory (Index i) rewrite append }
{}

/// A hostile Rewrite queue: a run past the end drops the earlier entries.
pub fn hostile_hole()
    ensures with_the_rule { hole_at 2 ≡ None }
    ensures without { last_word_at 2 ≡ Some (Entry 2) }
{}

/// A hostile directory: Rewrite ends below Append's first entry, so a gap would remain, and Rewrite's entries are
/// dropped. A later run of Append closes the gap, and they are back, although that run doesn't touch them. The meaning
/// of such a directory isn't a map that batches change step by step.
pub fn hostile_gap()
    ensures gap { with_gap 5 ≡ None }
    ensures closed { gap_closed 5 ≡ Some (Entry 5) }
    ensures step { says (Index 5) closing_run ≡ None }
{}
