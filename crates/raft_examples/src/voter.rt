//! A caller of `raft_voter`.
ghost use Rattle.std.specs.Prelude.{◌≡◌, IfOk, OnErr, OnOk};
ghost use Rattle.raft_voter.specs.Rules.{next};
ghost use Rattle.raft_voter.specs.State.{state_of};

use raft_voter::{Memory, Request, Voter, VoterState};

/// Takes a request, and returns the voter's state after it, for example for a status page. If memory runs out, the
/// voter is unchanged.
pub fn state_after(voter: &mut Voter, request: &Request) -> Result<VoterState, Memory>
    ensures ok { OnOk result (voter.new ≡ next voter.old request.now) }
    ensures state { IfOk result (λ state. state ≡ state_of (next voter.old request.now)) }
    ensures err { OnErr result (voter.new ≡ voter.old) }
{
    voter.step(request)?;
    Ok(voter.state())
}
