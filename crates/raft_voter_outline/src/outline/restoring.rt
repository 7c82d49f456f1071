//! Outlines of stored voters.
ghost use Rattle.std.specs.Prelude.{◌≡◌, ◌+◌, ◌^◌, ◌<◌, ◌∷◌, ◌++◌, [], true, None, length, IfOk, OnErr, OnOk};
ghost use Rattle.raft_voter_messages.specs.StoredForms.{state_fits};
ghost use Rattle.raft_voter_outline.specs.Outlines.{without_bytes};
ghost use Rattle.raft_voter_outline.specs.Restoring.{with_log};
ghost use Rattle.raft_voter_outline.specs.Runs.{runs_behind};
ghost use Rattle.raft_voter_outline.specs.State.{last_index};

use super::Outline;
use super::term_runs::{TermRuns, runs_in};
use crate::{Items, Memory, VoterState};
use std::alloc::Global;

impl Outline {
    /// Returns the outline of a voter with this state, whose numbers must be in range, and no entry above its base.
    /// Ignores the last entry that the state names. Allocates nothing.
    pub fn at_base(alloc: Global, state: &VoterState) -> Outline
        requires { state_fits state.now ≡ true }
        ensures { result.voter ≡ with_log state.now [] }
    {
        Outline {
            alloc,
            term: state.term,
            vote: state.vote,
            base_term: state.base_term,
            commit: state.commit,
            terms: TermRuns::new(alloc, state.base_index),
        }
    }

    /// Returns the outline of a voter with this state and this log. The state's numbers must be in range, and all
    /// indexes below 2^63. Memory can run out only if the log has entries.
    pub fn restore(
        alloc: Global,
        state: &VoterState,
        log: &[(u64, Items<u8>)],
    ) -> Result<Outline, Memory>
        requires fits { state_fits state.now ≡ true }
        requires small { state.now.base_index + length log.now < 2 ^ 63 }
        ensures ok { IfOk result (λ outline. outline.voter ≡ without_bytes (with_log state.now log.now)) }
        ensures errors { OnErr result (0 < runs_behind None log.now) }
    {
        let mut outline = Outline::at_base(alloc, state);
        outline.terms.reserve(runs_in(log))?;
        outline.terms.extend(log);
        Ok(outline)
    }

    /// Appends one more entry of this term, as it is read back. Its index must be below 2^63. Fails only if no room is
    /// left and memory runs out. If it fails, the voter is unchanged.
    pub fn push(&mut self, term: u64) -> Result<(), Memory>
        requires { last_index self.old.voter + 1 < 2 ^ 63 }
        ensures ok { OnOk result (self.new.voter
            ≡ record self.old.voter { log = self.old.voter.log ++ (term, []) ∷ [] }) }
        ensures err { OnErr result (self.new.voter ≡ self.old.voter) }
        ensures errors { OnErr result (self.old.room ≡ 0) }
    {
        self.terms.reserve_one(term)?;
        self.terms.push(term);
        Ok(())
    }
}
