//! The definitions at work on a short round. Each line is computed.

ghost use Rattle.std.specs.Prelude.{◌≡◌, [], ◌∷◌};
ghost use Rattle.raft_voter_messages.specs.declared.reply.Reply.TheVariants.{Granted, Refused};
ghost use Rattle.raft_voter_outline.specs.State.{fresh};
ghost use Rattle.raft_voter.specs.Service.{out_of_range, refused_from};
ghost use Rattle.raft_voter_world.specs.Examples.{mixed_replies, mixed_round};
ghost use Rattle.raft_voter_world.specs.Independent.{asked_of, replies_alone, told_to};

/// Only the request out of range is refused, and each group gets the replies of a voter of its own.
pub fn groups_are_told_apart()
    ensures places { refused_from 0 mixed_replies ≡ out_of_range 0 mixed_round }
    ensures told { told_to 1 mixed_round mixed_replies ≡ Granted 5 ∷ Refused ∷ [] }
    ensures first { told_to 1 mixed_round mixed_replies ≡ replies_alone fresh (asked_of 1 mixed_round) }
    ensures second { told_to 2 mixed_round mixed_replies ≡ replies_alone fresh (asked_of 2 mixed_round) }
{}
