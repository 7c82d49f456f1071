//! The definitions at work on short logs: each line is computed.

ghost use Rattle.std.specs.Prelude.{◌≡◌, ◌++◌, ◌∷◌, [], Some, None, true, false, replicate};
ghost use Rattle.raft_log_model_laws.specs.Item.Item.{Run, Compact, Put, Del, Clean};
ghost use Rattle.raft_log_model_laws.specs.Meaning.Content.{Entry, Value};
ghost use Rattle.raft_log_model_laws.specs.Holes.{is_past, nothing};
ghost use Rattle.raft_log_model_laws.specs.Examples.{
  shown,
  voter_in,
  run_of,
  upward,
  top,
  voter,
  twenty,
  overwritten,
  truncated,
  three_files,
  rewrite_before,
  rewrite_marked,
  rewrite_copied,
  append_from_4,
  append_from_5,
  append_from_6,
  four_and_five,
};

/// Entries 1 to 20, all rewritten; then two entries replace the 15th and all after it, and a compaction below 17. No
/// entry is left: not before the purge, not after it, and not from a start that still reads the old Append file.
pub fn overwritten_then_compacted()
    ensures before { shown 0 25 twenty overwritten ≡ replicate 25 None }
    ensures after { shown 0 25 (twenty ++ Compact top ∷ []) [] ≡ replicate 25 None }
    ensures between { shown 0 25 (twenty ++ Compact top ∷ []) overwritten ≡ replicate 25 None }
{}

/// Entries 1 to 20; then two entries replace the 15th and all after it, and a compaction below 16. Only entry 16 is
/// left.
pub fn overwritten_then_compacted_inside()
    ensures before { shown 14 4 twenty truncated ≡ None ∷ None ∷ Some (Entry 116) ∷ None ∷ [] }
    ensures rewritten { shown 14 4 (twenty ++ Compact top ∷ Run 16 (116 ∷ []) ∷ []) []
        ≡ None ∷ None ∷ Some (Entry 116) ∷ None ∷ [] }
{}

/// Three runs, each of which truncates the one before: ten entries of the first file, five of the second, ten of the
/// third.
pub fn later_runs_cut()
    ensures entries { shown 9 27 three_files []
        ≡ None ∷ (replicate 10 (Some (Entry 1)) ++ (replicate 5 (Some (Entry 2))
        ++ (replicate 10 (Some (Entry 3)) ++ None ∷ []))) }
    ensures run { run_of three_files ≡ record { first = 10; end = 35 } }
{}

/// One purge, step by step. Entries 4 and 5 are there at each step: before it, after the marks, after the copies, and
/// while Append's files are deleted. The key keeps its value. If Append were read from file 6 before the copies were
/// written, both entries would be missing.
pub fn one_purge()
    ensures before { shown 0 7 rewrite_before append_from_4 ≡ four_and_five }
    ensures marked { shown 0 7 rewrite_marked append_from_4 ≡ four_and_five }
    ensures copied { shown 0 7 rewrite_copied append_from_4 ≡ four_and_five }
    ensures half_gone { shown 0 7 rewrite_copied append_from_5 ≡ four_and_five }
    ensures gone { shown 0 7 rewrite_copied append_from_6 ≡ four_and_five }
    ensures value { voter_in rewrite_copied append_from_6 ≡ Some (Value 3) }
    ensures too_early { shown 0 7 rewrite_before append_from_6
        ≡ None ∷ Some (Entry 1) ∷ Some (Entry 2) ∷ None ∷ None ∷ Some (Entry 105) ∷ None ∷ [] }
{}

/// A compaction past the last entry leaves none. Two compactions leave the entries from the greater index on.
pub fn compactions()
    ensures all { shown 0 120 (Run 1 (upward 1 10) ∷ Compact 100 ∷ []) [] ≡ replicate 120 None }
    ensures some { run_of (Run 0 (upward 0 25) ∷ Compact 5 ∷ Compact 20 ∷ [])
        ≡ record { first = 20; end = 25 } }
{}

/// A key has its last value. A deleted key has none, nor has a key of a group that was cleaned.
pub fn keys()
    ensures last { voter_in [] (Put voter 1 ∷ Del voter ∷ Put voter 2 ∷ []) ≡ Some (Value 2) }
    ensures deleted { voter_in [] (Put voter 1 ∷ Del voter ∷ []) ≡ None }
    ensures cleaned { voter_in (Put voter 1 ∷ []) (Clean ∷ []) ≡ None }
{}

/// A run that starts at the index after the last leaves no hole; one that starts past it does. If there are no entries,
/// no run leaves a hole.
pub fn past_the_end()
    ensures at_the_end { is_past (record { first = 1; end = 4 }) 4 ≡ false }
    ensures past { is_past (record { first = 1; end = 4 }) 5 ≡ true }
    ensures after_nothing { is_past nothing 5 ≡ false }
{}
