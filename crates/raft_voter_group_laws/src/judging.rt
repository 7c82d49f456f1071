//! A proved caller: judges a transcript, and so decides whether each group saw the replies of one voter.
ghost use Rattle.std.specs.Prelude.{◌↔◌, ◌<◌, ℕ, IsTrue, IfOk, OnErr, length};
ghost use Rattle.raft_voter_group_laws.specs.Laws.{HasOneVoter, PlacesFit};

use crate::laws::groups_alone_explain;
use raft_voter::{Memory, Transcript, judge};
use std::alloc::Global;

/// Whether each group of a transcript saw the replies of one voter, and all positions fit. The n-th cut is the position
/// up to which the n-th round that was cut off took its requests. Memory can run out only if there is a round.
pub fn judge_groups(alloc: Global, transcript: &Transcript, cuts: &[usize]) -> Result<bool, Memory>
    ensures ok { IfOk result (λ each. IsTrue each ↔ (PlacesFit transcript.now.rounds cuts.now
        × ((group : ℕ) → HasOneVoter group transcript.now.rounds cuts.now))) }
    ensures errors { OnErr result (0 < length transcript.now.rounds) }
{
    groups_alone_explain();
    judge(alloc, transcript, cuts)
}
