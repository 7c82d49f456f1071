//! The definitions on a short round: each line is computed.

ghost use Rattle.std.specs.Prelude.{◌≡◌, [], ◌∷◌};
ghost use Rattle.raft_voter_messages.specs.declared.reply.Reply.TheVariants.{Granted, Refused};
ghost use Rattle.raft_voter.specs.Rounds.{after, fresh_world};
ghost use Rattle.raft_voter.specs.Service.{refused_from};
ghost use Rattle.raft_voter_durability_laws.specs.Examples.{three_replies, three_votes, two_votes};
ghost use Rattle.raft_voter_durability_laws.specs.Rounds.{took, AreTold, IsPassed, IsPassedOrOneMore};

/// A request out of range gets the reply `Refused`, and its place is the refused one. The votes around it are taken,
/// and granted.
pub fn refused_places()
    ensures told { AreTold fresh_world three_votes three_replies }
    ensures took { took three_votes three_replies ≡ two_votes }
    ensures places { refused_from 0 three_replies ≡ 1 ∷ [] }
{}

/// Before the first reply, no request was taken. If the engine fails at the round's last request, that request may be
/// taken or not.
pub fn rounds_cut_off()
    ensures none { IsPassed fresh_world three_votes [] fresh_world }
    ensures without { IsPassedOrOneMore fresh_world three_votes (Granted 5 ∷ Refused ∷ [])
        (after fresh_world (took three_votes (Granted 5 ∷ []))) }
    ensures with { IsPassedOrOneMore fresh_world three_votes (Granted 5 ∷ Refused ∷ [])
        (after fresh_world two_votes) }
{}
