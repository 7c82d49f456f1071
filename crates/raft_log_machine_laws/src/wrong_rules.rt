//! Rules that look right and lose something, each with a small directory that holds its map until the rule is followed.
//! `LosesByAppend` and `LosesByRewrite` say that a directory holds what it means, but not after the queue's live range
//! begins after the records `out`.

ghost use Rattle.std.specs.Prelude.{[], ◌∷◌};
ghost use Rattle.raft_log_model_laws.specs.Groups.{directory_meaning};
ghost use Rattle.raft_log_machine_laws.specs.Survival.{Survives};
ghost use Rattle.raft_log_machine_laws.specs.WrongRules.{
  all_compacted,
  both,
  compact_3,
  compact_4,
  first_run,
  group_begin,
  group_end,
  one_key,
  other_key,
  removal,
  unsynced_both,
  LosesByAppend,
  LosesByRewrite,
};

/// Append's files are deleted before the tombstones are written: Rewrite has entries 1 to 4, Append their Compact to 3.
/// Without it 1 and 2 are back.
pub fn append_files_before_marks()
    ensures { LosesByAppend (first_run ∷ []) (compact_3 ∷ []) [] (compact_3 ∷ []) }
{}

/// The set of tombstones is emptied before they are written. The write fails, and the next purge finds the set empty.
/// It deletes the file with the Clean, though the file after it stays. The removed group's key is back.
pub fn marks_forgotten_before_written()
    ensures { LosesByAppend (one_key ∷ []) (removal ∷ []) (other_key ∷ []) (removal ∷ other_key ∷ []) }
{}

/// Tombstones are written after the copies: the key that was put after the removal is copied, and then the tombstone of
/// the removal deletes the copy.
pub fn marks_after_copies()
    ensures { LosesByAppend (one_key ∷ removal ∷ []) (removal ∷ one_key ∷ []) [] (removal ∷ one_key ∷ []) }
{}

/// The tombstone has the greatest Compact index though there is no live rewritten entry. Rewrite has entries 1 to 4;
/// Append wrote 3 anew, which truncated 4, and compacted to 4. No entry is left. With a tombstone of 4, entry 4 of
/// Rewrite is back, because no item of Append covers it any more.
pub fn mark_of_greatest_compact()
    ensures { LosesByAppend (first_run ∷ compact_4 ∷ []) (all_compacted ∷ []) [] (all_compacted ∷ []) }
{}

/// Rewrite is purged to the least file in use, without the file in which the atomic group began: the rest of the group
/// doesn't count.
pub fn group_without_its_first_file()
    ensures { LosesByRewrite [] (group_begin ∷ []) (group_end ∷ []) (group_begin ∷ group_end ∷ []) }
{}

/// Places move before the group's end mark: the group was never ended, the whereabouts point into it, and the file with
/// the old copies is deleted.
pub fn places_before_end_mark()
    ensures { LosesByRewrite [] (first_run ∷ []) (group_begin ∷ []) (first_run ∷ group_begin ∷ []) }
{}

/// Rewrite is ahead of Append's sync. A batch removes group 1 and puts a key of group 2. Rewrite has the tombstone of
/// the removal before Append synced the batch. An image without the batch doesn't mean the map before the batch, since
/// group 1's key is gone. Nor does it mean the map after it, since group 2's key isn't there.
pub fn rewrite_ahead_of_append()
    ensures before { Survives (unsynced_both (one_key ∷ [])) (directory_meaning (one_key ∷ []) [])
        (both ∷ []) }
    ensures ahead { Survives (unsynced_both (one_key ∷ removal ∷ [])) (directory_meaning (one_key ∷ []) [])
        (both ∷ []) → ⊥ }
{}
