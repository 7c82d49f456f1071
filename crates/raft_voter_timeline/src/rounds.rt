//! The lines of rounds, with their results.
ghost use Rattle.std.specs.Prelude.{◌≡◌, ◌≤◌, ◌<◌, ◌+◌, ◌^◌, ◌++◌, IfOk, OnOk, length};
ghost use Rattle.raft_voter_timeline.specs.Marks.{all_marks, cuts_behind, end_mark, fate, fates, head_mark, marks_of, round_marks, taken_up_to};

use crate::line::{Line, Mark};
use crate::requests::request_words;
use raft_voter_messages::{Memory, Outcome, Request, Round};
use std::alloc::Global;
use std::collections::VecDeque;

/// Returns the lines of a picture, from top to bottom. The line of a round's event is replaced by the lines of the next
/// round; if no round or no item of `writes` is left, it stays. `writes` says for each round whether it wrote. Each
/// round that was cut off uses the next cut.
///
/// Fails with `Memory` if there is no room for them.
pub fn lines_of(
    alloc: Global,
    mut titles: VecDeque<Line>,
    rounds: &[Round],
    writes: &[bool],
    cuts: &[usize],
) -> Result<Vec<Line>, Memory>
    ensures { IfOk result (λ lines.
        marks_of lines.items ≡ all_marks (marks_of titles.items) rounds.now writes.now cuts.now) }
{
    let mut lines = Vec::new(alloc);
    let mut rounds = rounds;
    let mut writes = writes;
    let mut cuts = cuts;
    let mut number = 0usize;
    while let Some(title) = titles.pop_front() {
        if !title.is_round() {
            lines.push(title)?;
            continue;
        }
        let Some((round, later_rounds)) = rounds.split_first() else {
            lines.push(title)?;
            continue;
        };
        let Some((wrote, later_writes)) = writes.split_first() else {
            lines.push(title)?;
            continue;
        };
        let up_to = taken_up_to(round, cuts);
        push_round(alloc, &mut lines, number, round, *wrote, up_to)?;
        rounds = later_rounds;
        writes = later_writes;
        cuts = cuts_behind(round, cuts);
        number = number.saturating_add(1);
    }
    Ok(lines)
}

/// Returns the place up to which a round was taken: all of it if it got replies, otherwise up to the first of these
/// cuts, or nothing if there is none.
pub fn taken_up_to(round: &Round, cuts: &[usize]) -> usize
    ensures { result ≡ taken_up_to round.now cuts.now }
{
    let count = round.requests.len();
    match (&round.outcome, cuts.first()) {
        (Outcome::Answered(_), _) => count,
        (Outcome::Cut, Some(cut)) => count.min(*cut),
        (Outcome::Cut, None) => 0,
    }
}

/// Returns the cuts of the rounds after this one.
pub fn cuts_behind<'a>(round: &Round, cuts: &'a [usize]) -> &'a [usize]
    ensures { result.now ≡ cuts_behind round.now cuts.now }
{
    match (&round.outcome, cuts.split_first()) {
        (Outcome::Cut, Some((_, behind))) => behind,
        _ => cuts,
    }
}

/// Appends the lines of a round: how it ended, a line for each request that was taken up to this place, their end, and
/// a line for each request after it.
fn push_round(
    alloc: Global,
    lines: &mut Vec<Line>,
    number: usize,
    round: &Round,
    wrote: bool,
    up_to: usize,
) -> Result<(), Memory>
    requires { up_to ≤ length round.now.requests }
    ensures { OnOk result (marks_of lines.new.items ≡ marks_of lines.old.items ++ round_marks round.now wrote up_to) }
{
    let (above, below) = round.requests.as_slice().split_at(up_to);
    lines.push(head_line(alloc, number, round)?)?;
    push_requests(alloc, lines, round, Mark::Taken, 0, above)?;
    lines.push(end_line(alloc, round, wrote, up_to)?)?;
    push_requests(alloc, lines, round, Mark::Lost, up_to, below)
}

/// Returns the line with which a round begins.
fn head_line(alloc: Global, number: usize, round: &Round) -> Result<Line, Memory>
    ensures { IfOk result (λ line. line.mark ≡ head_mark round.now.outcome) }
{
    let text = format!(in alloc; "round {number}")?;
    match &round.outcome {
        Outcome::Answered(_) => Line::new(alloc, Mark::Answered, text.as_str(), "answered"),
        Outcome::Cut => Line::new(alloc, Mark::CutOff, text.as_str(), "cut off: no replies"),
    }
}

/// Returns the line at which what was taken of a round ends.
fn end_line(alloc: Global, round: &Round, wrote: bool, up_to: usize) -> Result<Line, Memory>
    ensures { IfOk result (λ line. line.mark ≡ end_mark round.now.outcome wrote) }
{
    match &round.outcome {
        Outcome::Answered(_) if wrote => Line::new(alloc, Mark::Durable, "durable", ""),
        Outcome::Answered(_) => Line::new(alloc, Mark::Unchanged, "nothing to sync", ""),
        Outcome::Cut => {
            let text = format!(in alloc; "cut {up_to}: taken above, lost below")?;
            Line::new(alloc, Mark::Cut, text.as_str(), "")
        }
    }
}

/// Appends a line for each of these requests of a round; the first one's place is `from`. They have this mark, except
/// those that were refused.
fn push_requests(
    alloc: Global,
    lines: &mut Vec<Line>,
    round: &Round,
    mark: Mark,
    from: usize,
    requests: &[(u64, Request)],
) -> Result<(), Memory>
    requires { from + length requests.now < 2 ^ 64 }
    ensures { OnOk result (marks_of lines.new.items ≡ marks_of lines.old.items
        ++ fates round.now.refused mark from requests.now) }
{
    for (offset, (group, request)) in requests.iter().enumerate() {
        let words = request_words(alloc, *group, request)?;
        lines.push(request_line(alloc, round, mark, from + offset, words.as_str())?)?;
    }
    Ok(())
}

/// Returns the line of the request at a place of a round, with these words and this mark, unless it was refused.
fn request_line(
    alloc: Global,
    round: &Round,
    mark: Mark,
    place: usize,
    words: &str,
) -> Result<Line, Memory>
    ensures { IfOk result (λ line. line.mark ≡ fate round.now.refused mark place) }
{
    let outcome = outcome_words(alloc, round, place, mark)?;
    if round.refused.as_slice().contains(&place) {
        return Line::new(alloc, Mark::Refused, words, outcome.as_str());
    }
    Line::new(alloc, mark, words, outcome.as_str())
}

/// Returns the result of the request at a place: its reply or, if the round was cut off, the name of its mark.
fn outcome_words(alloc: Global, round: &Round, place: usize, mark: Mark) -> Result<String, Memory> {
    if let Outcome::Answered(replies) = &round.outcome {
        if let Some(reply) = replies.as_slice().get(place) {
            return Ok(format!(in alloc; "{reply}")?);
        }
    }
    if round.refused.as_slice().contains(&place) {
        return Ok(String::from_str(alloc, "refused")?);
    }
    Ok(String::from_str(alloc, mark.name())?)
}
