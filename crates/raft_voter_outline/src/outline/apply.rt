//! Changes of an outline, made after they are written.
ghost use Rattle.std.specs.Prelude.{◌≡◌, ◌≤◌, length, OnErr, OnOk};
ghost use Rattle.raft_voter_outline.specs.Decisions.{OutlineBecomes, CanChange, ChangesTerms, HasRunRoom, UsesRoom};
ghost use Rattle.raft_voter_outline.specs.Outlines.{ChangesEach};

use super::term_runs::{TermRuns, runs_in};
use super::{Change, Outline, Write};
use crate::{Memory, Request};

impl Outline {
    /// Makes room for a change, so that it can be applied. Only a change that brings entries needs room. If memory runs
    /// out, the voter is unchanged.
    pub fn reserve(&mut self, change: &Change, request: &Request) -> Result<(), Memory>
        ensures voter { self.new.voter ≡ self.old.voter }
        ensures ok { OnOk result (HasRunRoom change.now.write request.now self.new.room) }
        ensures err { OnErr result (¬ HasRunRoom change.now.write request.now self.old.room) }
    {
        self.terms.reserve(runs_in(change.write.brought(request)))
    }

    /// Makes the change that was decided for a request, with the room that was reserved. Allocates nothing, and uses no
    /// more room than the change needs.
    pub fn apply(&mut self, change: &Change, request: &Request)
        requires decided { ChangesEach self.old.voter request.now change.now }
        requires room { HasRunRoom change.now.write request.now self.old.room }
        ensures voter { OutlineBecomes self.old.voter request.now self.new.voter }
        ensures room { UsesRoom change.now.write request.now self.old.room self.new.room }
    {
        self.terms.change(change, request);
        self.term = change.state.term;
        self.vote = change.state.vote;
        self.base_term = change.state.base_term;
        self.commit = change.state.commit;
    }
}

impl TermRuns {
    /// Changes the terms of a log as the change does the log.
    fn change(&mut self, change: &Change, request: &Request)
        requires can { CanChange self.old request.now change.now }
        requires room { HasRunRoom change.now.write request.now self.old.room }
        ensures terms { ChangesTerms self.old request.now change.now self.new }
        ensures room { UsesRoom change.now.write request.now self.old.room self.new.room }
    {
        let base = change.state.base_index;
        match change.write {
            Write::StateAlone => self.rest_on(base),
            Write::Entries { skipped: _, index } => {
                self.keep_to(index - 1);
                self.extend(change.write.brought(request));
            }
            Write::CompactTo { index } => {
                self.compact_to(index);
                self.rest_on(base);
            }
            Write::Clean => self.clear(base),
        }
    }
}
