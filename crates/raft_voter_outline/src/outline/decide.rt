//! Decisions on any request, in range or not.
ghost use Rattle.std.specs.Prelude.{◌≡◌, ◌↔◌, IsTrue, None};
ghost use Rattle.raft_voter_outline.specs.Decisions.{read_answer, SettlesPlan, Stays};
ghost use Rattle.raft_voter_outline.specs.Outlines.{Decides};

use super::plans::Plan;
use super::{Answer, Change, Decision, Outline, Write};
use crate::{Items, Reply, Request};

/// The decision with this answer and without a change.
fn told(answer: Answer) -> Decision
    ensures { result ≡ record { answer = answer; change = None } }
{
    let change = None;
    Decision { answer, change }
}

impl Outline {
    /// Decides the reply to a request and the change that it makes, for every voter with this outline. Changes nothing
    /// yet. The change is `None` exactly if the voter doesn't change.
    pub fn decide(&self, request: &Request) -> Decision
        ensures { Decides self.now.voter request.now result }
    {
        if !request.in_range() {
            return told(Answer::Told(Reply::Refused));
        }
        match request {
            Request::Vote {
                term,
                candidate,
                last_index,
                last_term,
            } => self.settle(self.vote(*term, *candidate, *last_index, *last_term)),
            Request::Append {
                term,
                prev_index,
                prev_term,
                commit,
                entries,
            } => self.settle(self.append(
                *term,
                *prev_index,
                *prev_term,
                *commit,
                entries.as_slice(),
            )),
            Request::Compact { index } => self.settle(self.compact(*index)),
            Request::Install {
                term,
                index,
                entry_term,
            } => self.settle(self.install(*term, *index, *entry_term)),
            Request::Read { from, to } => told(self.read(*from, *to)),
            Request::Status => told(Answer::Told(Reply::Status(self.state()))),
            Request::Retire => self.settle(self.retire()),
        }
    }

    /// Returns the decision of a plan. Inlined, so that no plan is put together in memory and read back.
    #[inline(always)]
    fn settle(&self, plan: Plan) -> Decision
        ensures { SettlesPlan self.now.voter plan result }
    {
        let stays = self.stays(&plan);
        let Plan {
            reply,
            state,
            write,
        } = plan;
        let answer = Answer::Told(reply);
        if stays {
            return told(answer);
        }
        let change = Some(Change { state, write });
        Decision { answer, change }
    }

    /// Whether a plan changes nothing.
    #[inline(always)]
    fn stays(&self, plan: &Plan) -> bool
        ensures { IsTrue result ↔ Stays self.now.voter plan.now plan.now.write }
    {
        match plan.write {
            Write::StateAlone => plan.state == self.stored_state(),
            Write::Clean => {
                plan.state == self.stored_state() && self.last_index() == self.terms.base()
            }
            _ => false,
        }
    }

    /// Which entries a Read returns, or why it returns none.
    fn read(&self, from: u64, to: u64) -> Answer
        ensures { result ≡ read_answer self.now.voter from to }
    {
        let base_index = self.terms.base();
        let last_index = self.last_index();
        if from <= base_index {
            return Answer::Told(Reply::Gone(base_index));
        }
        if to <= from {
            return Answer::Told(Reply::Entries(Items::new(self.alloc)));
        }
        if last_index + 1 < to {
            return Answer::Told(Reply::Unknown(last_index));
        }
        Answer::Entries { from, to }
    }
}
