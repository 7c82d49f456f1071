//! How a round was served.
ghost use Rattle.std.specs.Prelude.{◌≡◌, IfOk};
ghost use Rattle.raft_voter.specs.Service.{is_refused, refused_from};

use raft_voter::{Items, Memory, Outcome, Reply, Request, Round};
use std::alloc::Global;

/// How a round was served.
#[derive(Drop)]
pub enum Served {
    /// The round got its replies.
    Answered(Round),
    /// The round was cut off because the file system failed, and may have been taken up to some place.
    TookSome(Round),
    /// The round was cut off, and nothing of it was taken.
    TookNone(Round),
}

/// Returns a round that was cut off.
pub fn cut_off(requests: Items<(u64, Request)>, refused: Items<usize>) -> Round
    ensures { result ≡ record { requests = requests; refused = refused; outcome = Outcome.Cut } }
{
    Round {
        requests,
        refused,
        outcome: Outcome::Cut,
    }
}

/// Returns a round with its replies.
pub fn answered(
    alloc: Global,
    requests: Items<(u64, Request)>,
    replies: Items<Reply>,
) -> Result<Round, Memory>
    ensures { IfOk result (λ round. round ≡ record {
      requests = requests;
      refused = refused_from 0 replies;
      outcome = Outcome.Answered replies;
    }) }
{
    let refused = refused_places(alloc, replies.as_slice())?;
    Ok(Round {
        requests,
        refused,
        outcome: Outcome::Answered(replies),
    })
}

/// Returns the places whose reply is `Refused`.
fn refused_places(alloc: Global, replies: &[Reply]) -> Result<Items<usize>, Memory>
    ensures { IfOk result (λ places. places ≡ refused_from 0 replies.now) }
{
    let mut places = Items::new(alloc);
    for (place, reply) in replies.iter().enumerate() {
        if !is_refused(reply) {
            continue;
        }
        places.push(place)?;
    }
    Ok(places)
}

/// Whether a reply is `Refused`.
fn is_refused(reply: &Reply) -> bool
    ensures { result ≡ is_refused reply.now }
{
    matches!(reply, Reply::Refused)
}
