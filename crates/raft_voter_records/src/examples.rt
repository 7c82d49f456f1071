//! Short runs of a voter, computed from the definitions.

ghost use Rattle.std.specs.Prelude.{◌≡◌, [], ◌∷◌};
ghost use Rattle.raft_log_model_laws.specs.Item.Item.{Clean, Compact as CompactItem, Run};
ghost use Rattle.raft_voter_messages.specs.declared.request.Request.TheVariants.{Append, Compact, Install, Retire, Vote};
ghost use Rattle.raft_voter_outline.specs.Rules.{next};
ghost use Rattle.raft_voter_outline.specs.State.{fresh};
ghost use Rattle.raft_voter_records.specs.Voters.{stored_entry, HoldsVoter};
ghost use Rattle.raft_voter_records.specs.MeaningChanges.{change_items};
ghost use Rattle.raft_voter_records.specs.Examples.{
  compacted_voter,
  of_terms,
  old_group,
  old_voter,
  other_leader,
  put_state,
  three_entries,
  two_entries,
};

/// A first Append is written whole. One of another leader is written from the first entry that differs. One whose
/// entries are all there with their terms changes nothing, whatever their bytes. Nor does one of a past term.
pub fn appends()
    ensures first { change_items fresh (Append 1 0 0 1 (of_terms (1 ∷ [])))
        ≡ Run 1 (stored_entry 1 (1, []) ∷ [])
        ∷ put_state (next fresh (Append 1 0 0 1 (of_terms (1 ∷ [])))) ∷ [] }
    ensures differs { change_items two_entries other_leader
        ≡ Run 2 (stored_entry 2 (2, []) ∷ stored_entry 3 (2, []) ∷ []) ∷ put_state three_entries ∷ [] }
    ensures same { next two_entries (Append 1 1 1 0 ((1, 7 ∷ []) ∷ [])) ≡ two_entries }
    ensures stale { next three_entries (Append 1 3 2 0 []) ≡ three_entries }
{}

/// A vote, a higher term and a commit are written as the state alone.
pub fn states_alone()
    ensures vote { change_items compacted_voter (Vote 3 9 5 1)
        ≡ put_state (next compacted_voter (Vote 3 9 5 1)) ∷ [] }
    ensures commit { change_items two_entries (Append 1 2 1 2 [])
        ≡ put_state (next two_entries (Append 1 2 1 2 [])) ∷ [] }
{}

/// Entries that are deleted are written as a Compact of the index after the new base. If none stays, it is the index
/// after the last entry. If there was none, only the state is written.
pub fn entries_go()
    ensures some { change_items three_entries (Compact 2) ≡ CompactItem 3 ∷ put_state compacted_voter ∷ [] }
    ensures to_the_last { change_items compacted_voter (Compact 3)
        ≡ CompactItem 4 ∷ put_state (next compacted_voter (Compact 3)) ∷ [] }
    ensures all { change_items three_entries (Install 2 7 2)
        ≡ CompactItem 4 ∷ put_state (next three_entries (Install 2 7 2)) ∷ [] }
    ensures tail_stays { change_items three_entries (Install 2 2 2)
        ≡ CompactItem 3 ∷ put_state (next three_entries (Install 2 2 2)) ∷ [] }
    ensures none { change_items fresh (Install 2 7 2) ≡ put_state (next fresh (Install 2 7 2)) ∷ [] }
{}

/// If a voter is retired, only a Clean is written.
pub fn retires()
    ensures { change_items three_entries Retire ≡ Clean ∷ [] }
{}

/// A group that was written in the first form holds the voter whose commit index is its base.
pub fn old_forms_are_voters()
    ensures { HoldsVoter old_group old_voter }
{}
