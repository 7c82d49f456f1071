//! A caller of the trait `RoundService` of `raft_voter`.
ghost use Rattle.std.specs.Prelude.{IfOk};
ghost use Rattle.raft_voter.specs.Service.{AnswersRound};

use raft_voter::{Cause, Items, Reply, Request, RoundFault, RoundService};

/// Serves a round with any store, and tries once more if memory ran out, since nothing was taken then. The replies are
/// those of the voters that the store served, and a crash after it leaves them.
pub fn serve_again<R, S: RoundService<R>>(
    rt: &R,
    store: &mut S,
    requests: &[(u64, Request)],
) -> Result<Items<Reply>, RoundFault>
    ensures ok { IfOk result (λ told. AnswersRound S.service requests.now told store.old store.new) }
{
    match store.serve(rt, requests) {
        Ok(replies) => Ok(replies),
        Err(fault) => match fault.cause {
            Cause::Memory => store.serve(rt, requests),
            _ => Err(fault),
        },
    }
}
