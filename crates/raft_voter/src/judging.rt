//! The judge: decides whether voters that never fail explain a transcript.
ghost use Rattle.std.specs.Prelude.{◌≡◌, ◌<◌, ◌≤◌, ◌↔◌, IsTrue, IfOk, IfSome, OnErr, OnSome, MatchOption, length, drop};
ghost use Rattle.raft_voter.specs.Rounds.{after_round, are_rising, cuts_after, Explains, RoundHolds};
ghost use Rattle.raft_voter.specs.Voters.{world_of};

use crate::{Items, Memory, Outcome, Reply, Round, Transcript, Voters};
use std::alloc::Global;

/// Whether fresh voters that never fail explain a transcript. The n-th cut is the place up to which the n-th round that
/// was cut off took its requests. Returns `true` exactly if:
/// - there is one cut for each round that was cut off, and none is past its round's requests;
/// - each round's refused places rise and are places of the round;
/// - each round with replies has the voters' replies, and `Refused` at the refused places.
///
/// Memory can run out only if there is a round.
pub fn judge(alloc: Global, transcript: &Transcript, cuts: &[usize]) -> Result<bool, Memory>
    ensures ok { IfOk result (λ explained. IsTrue explained ↔ Explains transcript.now.rounds cuts.now) }
    ensures errors { OnErr result (0 < length transcript.now.rounds) }
{
    let mut voters = Voters::new(alloc);
    let mut used = 0;
    for round in transcript.rounds.as_slice() {
        let Some(more) = judge_round(&mut voters, round, &cuts[used..])? else {
            return Ok(false);
        };
        used += more;
    }
    Ok(used == cuts.len())
}

/// Whether a round is possible here, and how many of the remaining cuts it uses. The voters take what the round took.
fn judge_round(voters: &mut Voters, round: &Round, cuts: &[usize]) -> Result<Option<usize>, Memory>
    ensures fails { IfOk result (λ used. MatchOption used
        (RoundHolds (world_of voters.old) round.now cuts.now → ⊥)
        (λ n. RoundHolds (world_of voters.old) round.now cuts.now)) }
    ensures left { IfOk result (λ used. IfSome used (λ n.
        (n ≤ length cuts.now) × (cuts_after round.now.outcome cuts.now ≡ drop n cuts.now))) }
    ensures world { IfOk result (λ used. OnSome used
        (world_of voters.new ≡ after_round (world_of voters.old) round.now cuts.now)) }
{
    let requests = round.requests.as_slice();
    let refused = round.refused.as_slice();
    if !are_rising(refused, requests.len()) {
        return Ok(None);
    }
    match &round.outcome {
        Outcome::Answered(told) => {
            let given = voters.serve(requests, refused)?;
            if !same(told, &given) {
                return Ok(None);
            }
            Ok(Some(0))
        }
        Outcome::Cut => {
            let Some(cut) = cuts.first() else {
                return Ok(None);
            };
            if *cut > requests.len() {
                return Ok(None);
            }
            voters.serve(&requests[..*cut], refused)?;
            Ok(Some(1))
        }
    }
}

fn same(told: &Items<Reply>, given: &Items<Reply>) -> bool
    ensures { IsTrue result ↔ (told.now ≡ given.now) }
{
    told == given
}

/// Whether these places rise and are below `end`.
fn are_rising(places: &[usize], end: usize) -> bool
    ensures { result ≡ are_rising 0 end places.now }
{
    let mut low = 0;
    for place in places {
        if *place < low || *place >= end {
            return false;
        }
        low = *place + 1;
    }
    true
}
