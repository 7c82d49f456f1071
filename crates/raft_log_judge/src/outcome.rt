//! What an event does to a log, by its answer.
ghost use Rattle.std.specs.Prelude.{◌≡◌};
ghost use Rattle.raft_log_judge.specs.Views.{call_outcome, outcome};

use raft_log_world::{Answer, Call, Event};

/// Whether an engine has a log open.
#[derive(Clone, Copy, Debug, PartialEq, Eq)]
pub enum Standing {
    /// None has.
    Closed,
    /// One has.
    Running,
    /// One has, and has failed.
    Broken,
}

/// What an event does to a log.
#[derive(Clone, Copy, Debug, PartialEq, Eq)]
pub enum Outcome {
    /// The answer is impossible.
    Never,
    /// The answer is possible if the log has what it returns. The log stays the same.
    Reads,
    /// The log has this standing then.
    Turns {
        /// The standing.
        standing: Standing,
        /// Whether all batches are durable.
        settles: bool,
    },
    /// A batch is added, and the log has this standing then.
    Adds {
        /// The standing.
        standing: Standing,
        /// Whether all batches are durable.
        settles: bool,
    },
    /// An engine opens the log, with any number of the first pending batches. All of them are durable then.
    Opens,
}

/// What an event with this answer does to a log of this standing.
pub fn outcome_of<B, C>(standing: Standing, event: &Event<B, C>, answer: &Answer) -> Outcome
    ensures { result ≡ outcome standing event.now answer.now }
{
    match (event, standing, answer) {
        (Event::Arm { .. }, _, Answer::Done | Answer::Refused) => turns(standing, false),
        (Event::Open { .. }, Standing::Closed, Answer::Done) => Outcome::Opens,
        (Event::Open { .. }, Standing::Closed, Answer::Refused) => turns(Standing::Closed, false),
        (Event::Open { .. }, Standing::Running, Answer::Idle) => turns(Standing::Running, false),
        (Event::Open { .. }, Standing::Broken, Answer::Idle) => turns(Standing::Broken, false),
        (Event::Serve(_), Standing::Closed, Answer::Idle) => turns(Standing::Closed, false),
        (Event::Serve(call), Standing::Running, _) => call_outcome(call, answer),
        (Event::Serve(_), Standing::Broken, Answer::Failed) => turns(Standing::Broken, false),
        (Event::Close, Standing::Closed, Answer::Idle) => turns(Standing::Closed, false),
        (Event::Close, Standing::Running, Answer::Done) => turns(Standing::Closed, true),
        (Event::Close, Standing::Running, Answer::Refused) => turns(Standing::Closed, false),
        (Event::Close, Standing::Broken, Answer::Failed) => turns(Standing::Closed, false),
        (Event::Fork { .. }, Standing::Closed, Answer::Done) => turns(Standing::Closed, false),
        (Event::Fork { .. }, Standing::Closed, Answer::Refused) => turns(Standing::Closed, false),
        (Event::Fork { .. }, Standing::Running, Answer::Idle) => turns(Standing::Running, false),
        (Event::Fork { .. }, Standing::Broken, Answer::Idle) => turns(Standing::Broken, false),
        (Event::Crash { .. }, _, Answer::Done) => turns(Standing::Closed, false),
        _ => Outcome::Never,
    }
}

/// The outcome `Turns`.
fn turns(standing: Standing, settles: bool) -> Outcome
    ensures { result ≡ Outcome.Turns standing settles }
{
    Outcome::Turns { standing, settles }
}

/// What a call with this answer does to the log of an engine that runs.
fn call_outcome<B>(call: &Call<B>, answer: &Answer) -> Outcome
    ensures { result ≡ call_outcome call.now answer.now }
{
    match (call, answer) {
        (Call::Write { sync, .. }, Answer::Done) => adds(Standing::Running, *sync),
        (Call::Compact { .. }, Answer::Done) => adds(Standing::Running, false),
        (Call::Write { .. } | Call::Compact { .. }, Answer::Failed) => adds(
            Standing::Broken,
            false,
        ),
        (Call::Sync | Call::Purge(_), Answer::Done) => turns(Standing::Running, true),
        (Call::Purge(_), Answer::Refused) => turns(Standing::Running, true),
        (Call::Sync | Call::Purge(_), Answer::Failed) => turns(Standing::Broken, false),
        (Call::Get { .. } | Call::GetEntry { .. }, Answer::Found(_)) => Outcome::Reads,
        (Call::FirstIndex { .. } | Call::LastIndex { .. }, Answer::At(_)) => Outcome::Reads,
        (Call::Fetch { .. }, Answer::Entries(_)) => Outcome::Reads,
        (Call::Scan { .. }, Answer::Keys(_)) => Outcome::Reads,
        (Call::Sync | Call::FirstIndex { .. } | Call::LastIndex { .. }, Answer::Refused) => {
            Outcome::Never
        }
        (_, Answer::Refused) => turns(Standing::Running, false),
        _ => Outcome::Never,
    }
}

/// The outcome `Adds`.
fn adds(standing: Standing, settles: bool) -> Outcome
    ensures { result ≡ Outcome.Adds standing settles }
{
    Outcome::Adds { standing, settles }
}
