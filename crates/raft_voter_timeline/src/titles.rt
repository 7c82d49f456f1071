//! The first line of each event, before its result is known.
ghost use Rattle.std.specs.Prelude.{◌≡◌, IfOk, map};
ghost use Rattle.raft_voter_timeline.specs.Marks.{event_mark, marks_of};

use crate::line::{Line, Mark};
use raft_voter_messages::Memory;
use raft_voter_world::{Event, Left};
use std::alloc::Global;
use std::collections::VecDeque;

/// Returns a line for each event, in order. The line of a round has no words: `lines_of` replaces it.
///
/// Fails with `Memory` if there is no room for them.
pub fn titles_of(alloc: Global, events: &VecDeque<Event>) -> Result<VecDeque<Line>, Memory>
    ensures { IfOk result (λ titles. marks_of titles.items ≡ map event_mark events.now.items) }
{
    let mut titles = VecDeque::new(alloc);
    for event in events.iter() {
        titles.push_back(title_of(alloc, event)?)?;
    }
    Ok(titles)
}

/// Returns the line of an event.
fn title_of(alloc: Global, event: &Event) -> Result<Line, Memory>
    ensures { IfOk result (λ title. title.mark ≡ event_mark event.now) }
{
    match event {
        Event::Round { .. } => Line::new(alloc, Mark::Round, "", ""),
        Event::Maintain => Line::new(alloc, Mark::Event, "purge", ""),
        Event::RewriteAppend => Line::new(alloc, Mark::Event, "rewrite Append", ""),
        Event::RewriteRewrite => Line::new(alloc, Mark::Event, "rewrite Rewrite", ""),
        Event::Close => Line::new(alloc, Mark::Event, "close", ""),
        Event::Open { workers } => opened(alloc, *workers),
        Event::Crash { left } => crash(alloc, left),
        Event::CrashAt { calls, left } => armed_crash(alloc, *calls, left),
        Event::Refuse { calls } => armed_refusal(alloc, *calls),
        Event::Fork { target } => copied(alloc, target.as_str()),
    }
}

/// Returns the line of an open by this many workers.
fn opened(alloc: Global, workers: u64) -> Result<Line, Memory>
    ensures { IfOk result (λ title. title.mark ≡ Mark.Event) }
{
    let noun = if workers == 1 { "worker" } else { "workers" };
    let text = format!(in alloc; "open, {workers} {noun}")?;
    Line::new(alloc, Mark::Event, text.as_str(), "")
}

/// Returns the line of a crash, with what it leaves.
fn crash(alloc: Global, left: &Left) -> Result<Line, Memory>
    ensures { IfOk result (λ title. title.mark ≡ Mark.Crash) }
{
    let outcome = left_words(alloc, left)?;
    Line::new(alloc, Mark::Crash, "crash", outcome.as_str())
}

/// Returns the line of a crash that is set for a later call.
fn armed_crash(alloc: Global, calls: u64, left: &Left) -> Result<Line, Memory>
    ensures { IfOk result (λ title. title.mark ≡ Mark.Armed) }
{
    let text = format!(in alloc; "crash at changing call {calls} from here")?;
    let outcome = left_words(alloc, left)?;
    Line::new(alloc, Mark::Armed, text.as_str(), outcome.as_str())
}

/// Returns the line of a failure that is set for a later call.
fn armed_refusal(alloc: Global, calls: u64) -> Result<Line, Memory>
    ensures { IfOk result (λ title. title.mark ≡ Mark.Armed) }
{
    let text = format!(in alloc; "refusal at changing call {calls} from here")?;
    Line::new(alloc, Mark::Armed, text.as_str(), "")
}

/// Returns the line of a copy into this directory.
fn copied(alloc: Global, target: &str) -> Result<Line, Memory>
    ensures { IfOk result (λ title. title.mark ≡ Mark.Event) }
{
    let text = format!(in alloc; "copy into {target}")?;
    Line::new(alloc, Mark::Event, text.as_str(), "")
}

/// Returns what a crash leaves of the unsynced changes, in words.
fn left_words(alloc: Global, left: &Left) -> Result<String, Memory> {
    match left {
        Left::Last => Ok(String::from_str(alloc, "left: what was synced")?),
        Left::All => Ok(String::from_str(alloc, "left: all, synced or not")?),
        Left::First { pieces, bytes } => {
            Ok(format!(in alloc;
                "left of what wasn't synced: pieces {pieces}, bytes of the next {bytes}"
            )?)
        }
    }
}
