//! What a store knows of a group's voter without reading its log.
ghost use Rattle.std.specs.Prelude.{◌≡◌, ◌+◌, IfErr, IfOk};

use super::LogVoterStore;
use raft_log_engine::{Error, PipeLog, Result};
use raft_voter_messages::VoterState;

impl<P: PipeLog> LogVoterStore<P> {
    ghost use Rattle.raft_voter_outline.specs.Kept.{outlines_in};
    ghost use Rattle.raft_voter_outline.specs.State.{last_index, state_of, term_at};
    ghost use Rattle.raft_log_engine.specs.raft_log_engine_core.specs.Reads.{shows_of, IsUncopied};
    ghost use Rattle.raft_voter_store.specs.Listing.{ListsStates};

    /// The state of a group's voter: term, vote, base, last entry and commit index. A group without a stored voter has
    /// a fresh one. If the store has failed, its log may have another voter.
    pub fn status(&self, group: u64) -> VoterState
        ensures { result ≡ state_of (outlines_in self.now.outlines group) }
    {
        self.outlines.state(group)
    }

    /// The groups that may have a stored voter, sorted, each with its voter's state. Every other group has a fresh voter.
    /// Fails with `Failed` if the engine has failed, or with `Memory`.
    pub fn states(&self) -> Result<Vec<(u64, VoterState)>>
        ensures ok { IfOk result (λ states. ListsStates (shows_of P.shown self.now.engine).counts
            (outlines_in self.now.outlines) states.items) }
        ensures err { IfErr result (IsUncopied (shows_of P.shown self.now.engine)) }
    {
        let groups = match self.engine.raft_groups() {
            Ok(groups) => groups,
            Err(error) => return Err(error),
        };
        let Ok(mut states) = Vec::with_capacity(self.alloc, groups.len()) else {
            return Err(Error::Memory);
        };
        for group in groups.as_slice() {
            states.push_reserved((*group, self.outlines.state(*group)));
        }
        Ok(states)
    }

    /// The index of a group's first entry, or the one after the base if the group has no entry.
    pub fn first_index(&self, group: u64) -> u64
        ensures { result ≡ (outlines_in self.now.outlines group).base_index + 1 }
    {
        self.outlines.state(group).base_index + 1
    }

    /// The index of a group's last entry, or the base's if the group has no entry.
    pub fn last_index(&self, group: u64) -> u64
        ensures { result ≡ last_index (outlines_in self.now.outlines group) }
    {
        self.outlines.state(group).last_index
    }

    /// The term of a group's entry at an index, or of its base. Returns `None` below the base and after the last entry.
    pub fn term(&self, group: u64, index: u64) -> Option<u64>
        ensures { result ≡ term_at (outlines_in self.now.outlines group) index }
    {
        self.outlines.term_at(group, index)
    }
}
