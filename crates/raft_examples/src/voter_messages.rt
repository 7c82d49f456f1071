//! A caller of `raft_voter_messages`.
ghost use Rattle.std.specs.Prelude.{◌≡◌, true, IfOk};
ghost use Rattle.raft_voter_messages.specs.StoredForms.{state_fits};

use raft_voter_messages::{StoredFault, VoterState, read_state, state_bytes};
use std::alloc::Global;

/// Stores a state and reads it back: its term, its vote and its commit are as before.
pub fn kept(alloc: Global, state: &VoterState) -> Result<VoterState, StoredFault>
    requires { state_fits state.now ≡ true }
    ensures term { IfOk result (λ found. found.term ≡ state.now.term) }
    ensures vote { IfOk result (λ found. found.vote ≡ state.now.vote) }
    ensures commit { IfOk result (λ found. found.commit ≡ state.now.commit) }
{
    let bytes = state_bytes(alloc, state)?;
    read_state(bytes.as_slice())
}
