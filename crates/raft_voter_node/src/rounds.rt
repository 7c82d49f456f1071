//! Serves a round, and returns its lines.
ghost use Rattle.std.specs.Prelude.{IfOk, string_bytes};
ghost use Rattle.raft_voter_node.specs.Telling.{TellsRound};

use raft_voter::{Items, Memory, Outcome, Request, Round, RoundService};
use raft_voter_session::round_lines;
use std::alloc::Global;

/// Serves a round with this number, and returns its lines (`round_text`): the replies of the service's voters; or that
/// it was cut off, and which requests were refused. Fails only for lack of memory; the round may have been served then.
pub fn serve_round<R, S: RoundService<R>>(
    rt: &R,
    alloc: Global,
    store: &mut S,
    number: usize,
    requests: Items<(u64, Request)>,
) -> Result<String, Memory>
    ensures { IfOk result (λ lines. TellsRound S.service number requests (string_bytes lines) store.old store.new) }
{
    let served = store.serve(rt, requests.as_slice());
    let round = match served {
        Ok(replies) => Round {
            requests,
            refused: Items::new(alloc),
            outcome: Outcome::Answered(replies),
        },
        Err(fault) => Round {
            requests,
            refused: fault.refused,
            outcome: Outcome::Cut,
        },
    };
    round_lines(alloc, number, &round)
}
