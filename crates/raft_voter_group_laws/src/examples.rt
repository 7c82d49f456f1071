//! A caller that lives twice: three rounds, of which a crash cut off the second. Each contract is an instance of a law,
//! or shows that a premise can hold and can fail.

ghost use Rattle.std.specs.Prelude.{◌≡◌, ℕ, List, [], ◌∷◌, Some, None};
ghost use Rattle.raft_voter_messages.specs.declared.reply.Reply.TheVariants.{Denied, Entries, Granted, Matched, Refused};
ghost use Rattle.raft_voter_messages.specs.declared.request.Request.TheVariants.{Read};
ghost use Rattle.raft_voter.specs.Accounts.{voter_after};
ghost use Rattle.raft_voter.specs.Laws.{AllSpare, SparesEntry};
ghost use Rattle.raft_voter.specs.Rounds.{Explains};
ghost use Rattle.raft_voter_outline.specs.State.{fresh};
ghost use Rattle.raft_voter_group_laws.specs.Calls.{calls_of, one_voter_shows, replies_seen, taken_of};
ghost use Rattle.raft_voter_group_laws.specs.Laws.{HasOneVoter};
ghost use Rattle.raft_voter_group_laws.specs.Examples.{append_one, both_entries, matched_once, other_first, right_replies, two_lives, wrong_replies};

/// Group 1 sees that its first Append matched. It sees nothing for its two Appends in the crash. A Read then returns
/// two entries, since the round was cut between these Appends. Its last Append is refused. Group 2 sees a vote that is
/// granted, nothing in the crash, and then a vote that is denied.
pub fn callers_see_two_lives()
    ensures first { replies_seen 1 (two_lives right_replies)
        ≡ Some (Matched 1) ∷ None ∷ None ∷ Some (Entries both_entries) ∷ Some Refused ∷ [] }
    ensures second { replies_seen 2 (two_lives right_replies) ≡ Some (Granted 3) ∷ None ∷ Some (Denied 4) ∷ [] }
{}

/// One voter shows the same to the callers of group 1. It takes the first two Appends and the Read.
pub fn one_voter_lives_once()
    ensures first { one_voter_shows fresh (calls_of 1 (two_lives right_replies) (2 ∷ []))
        ≡ Some (Matched 1) ∷ None ∷ None ∷ Some (Entries both_entries) ∷ Some Refused ∷ [] }
    ensures taken { taken_of (calls_of 1 (two_lives right_replies) (2 ∷ [])) (replies_seen 1 (two_lives right_replies))
        ≡ (append_one 0 0 65, Some (Matched 1)) ∷ (append_one 1 1 66, None)
        ∷ (Read 1 3, Some (Entries both_entries)) ∷ [] }
{}

/// Voters explain the rounds with the cut at position 2. They don't with the cut at 0, since entry 2 would be missing.
/// They don't with the cut at 1, since candidate 9 would get group 2's vote. An extra cut is wrong too.
pub fn two_lives_are_explained()
    ensures explained { Explains (two_lives right_replies) (2 ∷ []) }
    ensures too_early { Explains (two_lives right_replies) (0 ∷ []) → ⊥ }
    ensures early { Explains (two_lives right_replies) (1 ∷ []) → ⊥ }
    ensures left_over { Explains (two_lives right_replies) (2 ∷ 0 ∷ []) → ⊥ }
{}

/// If one number in one reply is wrong, no cuts explain the rounds. Only the group with that reply has no voter.
pub fn wrong_reply_is_not_explained()
    ensures none { (cuts : List ℕ) → Explains (two_lives wrong_replies) cuts → ⊥ }
    ensures first { HasOneVoter 1 (two_lives wrong_replies) (2 ∷ []) }
    ensures second { HasOneVoter 2 (two_lives wrong_replies) (2 ∷ []) → ⊥ }
{}

/// The Append in the crash spares entry 1, so the Read returns it (`appended_entry_is_read`). An Append with another
/// term for index 1 wouldn't spare it.
pub fn first_entry_is_spared()
    ensures spared { AllSpare (voter_after matched_once) 1 ((append_one 1 1 66, None) ∷ []) }
    ensures replaced { SparesEntry (voter_after matched_once) 1 other_first → ⊥ }
{}
