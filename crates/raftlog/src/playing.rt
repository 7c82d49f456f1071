//! Plays a session, and judges the answers.
ghost use Rattle.std.specs.Prelude.{◌≡◌, IfOk, OnOk, string_bytes};
ghost use Rattle.raftlog.specs.Playing.{IsTranscript, transcript_text};

use crate::events::engine_events;
use log::Log;
use raft_log_engine::{Config, LogBatch, Remainder, Result};
use raft_log_judge::judge_log;
use raft_log_session::{SessionEvent, write_answer, write_verdict};
use raft_log_world::laws::runs_are_explained;
use raft_log_world::{Answer, LogFiles, LogReport, run_log};
use raft_log_world_engine::{ClosedLog, OpenLog};
use std::alloc::{AllocError, Global};
use std::thread::Threads;

/// Plays events on the engine over an empty file system in memory, with these settings. Returns the transcript, a line
/// for each answer and one for the verdict, and whether the verdict is yes. It is yes if no event met a CRC collision.
///
/// Fails before it plays any event if `log_batch` rejects a batch, or with `Memory`.
pub fn play<R: Threads + Log + Sync>(
    rt: &R,
    alloc: Global,
    config: Config,
    events: &[SessionEvent],
) -> Result<(String, bool)>
    ensures { IfOk result (λ told.
        IsTranscript ⟦<ClosedLog as LogFiles<R, OpenLog, LogBatch, Remainder>>⟧.log config events.now
        (string_bytes told.0) told.1) }
{
    runs_are_explained::<R, OpenLog, LogBatch, Remainder, ClosedLog>();
    let played = engine_events(alloc, events)?;
    let files = ClosedLog::new(alloc, config);
    let report: LogReport<OpenLog, ClosedLog> = run_log(rt, alloc, files, played)?;
    let answers = report.answers.as_slice();
    let verdict = judge_log(alloc, events, answers)?;
    let text = transcript(alloc, answers, verdict)?;
    Ok((text, verdict))
}

/// Returns a line for each answer, and one for the verdict.
fn transcript(alloc: Global, answers: &[Answer], verdict: bool) -> Result<String, AllocError>
    ensures { IfOk result (λ text. string_bytes text ≡ transcript_text answers.now verdict) }
{
    let mut text = String::new(alloc);
    for answer in answers {
        write_answer(&mut text, answer)?;
    }
    write_verdict(&mut text, verdict)?;
    Ok(text)
}
