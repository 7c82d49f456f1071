//! Draws the events of a session as a picture.
ghost use Rattle.std.specs.Prelude.{◌≡◌, IfOk, string_bytes};
ghost use Rattle.raft_voter_timeline.specs.Drawing.{DrawsRounds, DrawsRun, IsHeading, heading_with, verdict_word};
ghost use Rattle.raft_voter_timeline.specs.Marks.{marks_of};

use crate::line::Line;
use crate::picture::svg_of;
use crate::rounds::lines_of;
use crate::titles::titles_of;
use crate::writes::writes_of;
use raft_voter::{Memory, Transcript, judge};
use raft_voter_world::{Event, VoterDisk, VoterStorage, run_world};
use std::alloc::Global;
use std::collections::VecDeque;
use std::thread::Threads;

/// Returns the picture of these events as SVG: runs them over these files, and draws them with their results. It takes
/// all voters as fresh at first: if the files have others, the marks `durable` and `unchanged` may be wrong.
///
/// Fails with `Memory` if there is no room for the run or for the picture.
pub fn draw_run<R: Threads + Sync, S: VoterStorage<R> + Drop, F: VoterDisk<R, S> + Drop>(
    rt: &R,
    alloc: Global,
    files: F,
    events: VecDeque<Event>,
) -> Result<String, Memory>
    ensures { IfOk result (λ picture.
        DrawsRun S.service S.upkeep F.disk files events.items (string_bytes picture)) }
{
    let titles = titles_of(alloc, &events)?;
    let count = events.len();
    let report = run_world::<R, S, F>(rt, alloc, files, events)?;
    let heading = heading_of(alloc, count, &report.transcript, report.cuts.as_slice())?;
    picture_of(
        alloc,
        heading.as_str(),
        titles,
        &report.transcript,
        report.cuts.as_slice(),
    )
}

/// Returns the heading above the lines: the numbers of events and rounds, and the verdict.
fn heading_of(
    alloc: Global,
    events: usize,
    transcript: &Transcript,
    cuts: &[usize],
) -> Result<String, Memory>
    ensures { IfOk result (λ heading.
        IsHeading events transcript.now.rounds cuts.now (string_bytes heading)) }
{
    let explained = judge(alloc, transcript, cuts)?;
    let word = verdict_word(explained);
    words_of(alloc, events, transcript.rounds.len(), cuts.len(), word)
}

/// Returns the word for a verdict.
fn verdict_word(verdict: bool) -> &'static str
    ensures { result.now ≡ verdict_word verdict }
{
    if verdict { "yes" } else { "no" }
}

/// Returns the heading for these numbers of events, of rounds and of rounds that were cut off, with this word for the
/// verdict.
fn words_of(
    alloc: Global,
    events: usize,
    rounds: usize,
    cut_off: usize,
    word: &str,
) -> Result<String, Memory>
    ensures { IfOk result (λ heading. string_bytes heading ≡ heading_with events rounds cut_off word.now) }
{
    Ok(format!(in alloc; "events {events}, rounds {rounds}, cut off {cut_off}, verdict {word}")?)
}

/// Returns the picture of these events, with the results of their rounds.
fn picture_of(
    alloc: Global,
    heading: &str,
    titles: VecDeque<Line>,
    transcript: &Transcript,
    cuts: &[usize],
) -> Result<String, Memory>
    ensures { IfOk result (λ picture.
        DrawsRounds heading.now (marks_of titles.items) transcript.now.rounds cuts.now
        (string_bytes picture)) }
{
    let rounds = transcript.rounds.as_slice();
    let writes = writes_of(alloc, rounds, cuts)?;
    let lines = lines_of(alloc, titles, rounds, writes.as_slice(), cuts)?;
    svg_of(alloc, heading, lines.as_slice())
}
