//! A caller of `raft_voter_session`.
ghost use Rattle.std.specs.Prelude.{IfOk};
ghost use Rattle.raft_examples.specs.Sessions.{HasEvents};

use raft_voter_session::{SessionFault, read_session};
use std::alloc::Global;

/// How many events a session has.
pub fn event_count(alloc: Global, session: &[u8]) -> Result<usize, SessionFault>
    ensures { IfOk result (HasEvents session.now) }
{
    let told = read_session(alloc, session)?;
    Ok(told.events.len())
}
