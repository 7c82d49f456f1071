//! One event, for all candidates.
ghost use Rattle.std.specs.Prelude.{◌≡◌, IfOk, OnOk, map};
ghost use Rattle.raft_log_judge.specs.Candidates.{durable_of, log_of, opened_logs, pending_of, AddsLogs, AddsNexts};
ghost use Rattle.raft_log_judge.specs.Changes.{says_of};
ghost use Rattle.raft_log_judge.specs.Views.{batch_of, LeadTo};

use crate::candidate::Candidate;
use crate::change::{Batch, Change, ChangeKind, copied_batch};
use crate::outcome::{Outcome, Standing, outcome_of};
use crate::reading::is_read;
use raft_lists::Items;
use raft_log_world::{Answer, Call, Event};
use std::alloc::{AllocError, Global};
use std::collections::VecDeque;

/// The candidates after an event with this answer. Fails only for lack of memory.
pub fn step<C>(
    alloc: Global,
    mut candidates: VecDeque<Candidate>,
    event: &Event<Batch, C>,
    answer: &Answer,
) -> Result<VecDeque<Candidate>, AllocError>
    ensures { IfOk result (λ nexts. LeadTo says_of (map log_of candidates.items) event.now answer.now
        (map log_of nexts.items)) }
{
    let mut nexts = VecDeque::new(alloc);
    while let Some(candidate) = candidates.pop_front() {
        step_one(alloc, candidate, event, answer, &mut nexts)?;
    }
    Ok(nexts)
}

/// Adds the candidates for what a log may be after an event with this answer. Fails only for lack of memory.
fn step_one<C>(
    alloc: Global,
    candidate: Candidate,
    event: &Event<Batch, C>,
    answer: &Answer,
    nexts: &mut VecDeque<Candidate>,
) -> Result<(), AllocError>
    ensures { OnOk result (AddsNexts (log_of candidate) event.now answer.now nexts.old.items nexts.new.items) }
{
    match outcome_of(candidate.standing, event, answer) {
        Outcome::Never => Ok(()),
        Outcome::Reads => {
            if is_read(candidate.batches.as_slice(), event, answer) {
                nexts.push_back(candidate)?;
            }
            Ok(())
        }
        Outcome::Turns { standing, settles } => {
            nexts.push_back(candidate.turned(standing, settles))?;
            Ok(())
        }
        Outcome::Adds { standing, settles } => {
            let batch = batch_of(alloc, event)?;
            let more = candidate.added(batch)?;
            nexts.push_back(more.turned(standing, settles))?;
            Ok(())
        }
        Outcome::Opens => open_all(alloc, &candidate, nexts),
    }
}

/// Copies the batch that an event writes. Fails only for lack of memory.
fn batch_of<C>(alloc: Global, event: &Event<Batch, C>) -> Result<Batch, AllocError>
    ensures { IfOk result (λ batch. says_of batch ≡ batch_of says_of event.now) }
{
    match event {
        Event::Serve(Call::Write { batch, .. }) => copied_batch(alloc, batch.as_slice()),
        Event::Serve(Call::Compact { group, index }) => {
            let mut batch = Items::new(alloc);
            batch.push(Change {
                group: *group,
                kind: ChangeKind::Compact { index: *index },
            })?;
            Ok(batch)
        }
        _ => Ok(Items::new(alloc)),
    }
}

/// Adds a candidate for each log that an open may find. Fails only for lack of memory.
fn open_all(
    alloc: Global,
    candidate: &Candidate,
    nexts: &mut VecDeque<Candidate>,
) -> Result<(), AllocError>
    ensures { OnOk result (AddsLogs (opened_logs (durable_of candidate.now) (pending_of candidate.now))
        nexts.old.items nexts.new.items) }
{
    let mut current = candidate.opened(alloc)?;
    let pending = candidate.pending();
    for batch in pending {
        nexts.push_back(current.copied(alloc)?)?;
        let more = current.added(copied_batch(alloc, batch.as_slice())?)?;
        current = more.turned(Standing::Running, true);
    }
    nexts.push_back(current)?;
    Ok(())
}
