//! The judge.
ghost use Rattle.std.specs.Prelude.{◌↔◌, IsTrue, IfOk};
ghost use Rattle.raft_log_judge.specs.Judging.{IsExplained};

use crate::candidate::Candidate;
use crate::change::Batch;
use crate::stepping::step;
use raft_log_world::{Answer, Event};
use std::alloc::{AllocError, Global};
use std::collections::VecDeque;

/// Whether the model log, empty at first, gives these answers to these events in turn. At each crash, copy or open that
/// allows it, the model may lose any number of its last pending batches; all numbers are tried. Returns false if there
/// are not as many answers as events. Fails only for lack of memory.
pub fn judge_log<C>(
    alloc: Global,
    events: &[Event<Batch, C>],
    answers: &[Answer],
) -> Result<bool, AllocError>
    ensures { IfOk result (λ explained. IsTrue explained ↔ IsExplained events.now answers.now) }
{
    let mut candidates = VecDeque::new(alloc);
    candidates.push_back(Candidate::empty(alloc))?;
    let mut rest = answers;
    for event in events {
        let Some((answer, later)) = rest.split_first() else {
            return Ok(false);
        };
        candidates = step(alloc, candidates, event, answer)?;
        rest = later;
    }
    Ok(rest.is_empty() && !candidates.is_empty())
}
