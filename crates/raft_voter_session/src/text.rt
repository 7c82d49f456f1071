//! The text of transcripts.
ghost use Rattle.std.specs.Prelude.{◌≡◌, IfOk, OnOk, OnErr, string_bytes};
ghost use Rattle.raft_voter_session.specs.Text.{Gains, GainsTranscript, spaced, spaced_all, place_text, places_text, refused_text, outcome_text, round_text, rounds_text, verdict_text, unreadable_text};

use raft_voter_messages::{Memory, Outcome, Reply, Request, Round, Transcript};
use std::alloc::Global;

/// Appends a transcript, the cuts of its rounds without replies, and the verdict on them. If memory runs out, the text
/// is unchanged.
pub fn write_transcript(
    text: &mut String,
    transcript: &Transcript,
    cuts: &[usize],
    verdict: bool,
) -> Result<(), Memory>
    ensures ok { OnOk result (GainsTranscript text.old text.new transcript.now.rounds cuts.now verdict) }
    ensures err { OnErr result (string_bytes text.new ≡ string_bytes text.old) }
{
    let mut lines = String::new(*text.allocator());
    write_all(&mut lines, transcript, cuts, verdict)?;
    add(text, lines)
}

/// Appends that the line of this number is unreadable. If memory runs out, the text is unchanged.
pub fn write_unreadable(text: &mut String, line: usize) -> Result<(), Memory>
    ensures ok { OnOk result (Gains text.old text.new (unreadable_text line)) }
    ensures err { OnErr result (string_bytes text.new ≡ string_bytes text.old) }
{
    let mut told = String::new(*text.allocator());
    write_line(&mut told, line)?;
    add(text, told)
}

/// Returns the lines of a round with this number: its outcome, and one for each request that has a reply. Fails only
/// for lack of memory.
pub fn round_lines(alloc: Global, number: usize, round: &Round) -> Result<String, Memory>
    ensures { IfOk result (λ lines. string_bytes lines ≡ round_text number round.now) }
{
    let mut lines = String::new(alloc);
    write_round(&mut lines, number, round)?;
    Ok(lines)
}

/// Appends lines to a text; an empty text takes them without a copy. If memory runs out, the text is unchanged. (A
/// `write!` that fails leaves unknown contents in a `String`, so lines are never written into the text directly.)
fn add(text: &mut String, lines: String) -> Result<(), Memory>
    ensures ok { OnOk result (Gains text.old text.new (string_bytes lines)) }
    ensures err { OnErr result (string_bytes text.new ≡ string_bytes text.old) }
{
    if text.is_empty() {
        *text = lines;
        return Ok(());
    }
    text.push_str(lines.as_str())?;
    Ok(())
}

/// Writes a transcript, its cuts and the verdict.
#[tactic(auto, unfolding(crate::specs::Text::transcript_text))]
fn write_all(
    text: &mut String,
    transcript: &Transcript,
    cuts: &[usize],
    verdict: bool,
) -> Result<(), Memory>
    ensures { OnOk result (GainsTranscript text.old text.new transcript.now.rounds cuts.now verdict) }
{
    write_rounds(text, transcript.rounds.as_slice())?;
    text.push_str("cuts")?;
    write_places(text, cuts)?;
    text.push_str("\n")?;
    write_verdict(text, verdict)
}

/// Writes a space, then a number.
#[tactic(auto, unfolding(crate::specs::Text::spaced))]
fn write_spaced(text: &mut String, number: u64) -> Result<(), Memory>
    ensures { OnOk result (Gains text.old text.new (spaced number)) }
{
    write!(text, " {number}")?;
    Ok(())
}

/// Writes places, each after a space.
fn write_places(text: &mut String, places: &[usize]) -> Result<(), Memory>
    ensures { OnOk result (Gains text.old text.new (spaced_all places.now)) }
{
    for place in places {
        write_spaced(text, *place as u64)?;
    }
    Ok(())
}

/// Writes a place, its group and its reply on a line.
#[tactic(auto, unfolding(crate::specs::Text::place_text))]
fn write_place(text: &mut String, place: usize, group: u64, reply: &Reply) -> Result<(), Memory>
    ensures { OnOk result (Gains text.old text.new (place_text place group reply.now)) }
{
    write!(text, "{place}")?;
    write_spaced(text, group)?;
    write!(text, " {reply}\n")?;
    Ok(())
}

/// Writes a line for each request that has a reply.
fn write_replies(
    text: &mut String,
    requests: &[(u64, Request)],
    replies: &[Reply],
) -> Result<(), Memory>
    ensures { OnOk result (Gains text.old text.new (places_text 0 requests.now replies.now)) }
{
    for (place, reply) in replies.iter().enumerate() {
        let Some((group, _)) = requests.get(place) else {
            return Ok(());
        };
        write_place(text, place, *group, reply)?;
    }
    Ok(())
}

/// Writes the refused places, if there are any.
fn write_refused(text: &mut String, places: &[usize]) -> Result<(), Memory>
    ensures { OnOk result (Gains text.old text.new (refused_text places.now)) }
{
    if places.is_empty() {
        return Ok(());
    }
    text.push_str(" refused")?;
    write_places(text, places)
}

/// Writes the outcome of a round.
fn write_outcome(text: &mut String, round: &Round) -> Result<(), Memory>
    ensures { OnOk result (Gains text.old text.new (outcome_text round.now round.now.outcome)) }
{
    match &round.outcome {
        Outcome::Answered(replies) => {
            text.push_str(" answered\n")?;
            write_replies(text, round.requests.as_slice(), replies.as_slice())
        }
        Outcome::Cut => {
            text.push_str(" cut")?;
            write_refused(text, round.refused.as_slice())?;
            Ok(text.push_str("\n")?)
        }
    }
}

/// Writes a round.
#[tactic(auto, unfolding(crate::specs::Text::round_text))]
fn write_round(text: &mut String, number: usize, round: &Round) -> Result<(), Memory>
    ensures { OnOk result (Gains text.old text.new (round_text number round.now)) }
{
    text.push_str("round")?;
    write_spaced(text, number as u64)?;
    write_outcome(text, round)
}

/// Writes rounds, counted from 0.
fn write_rounds(text: &mut String, rounds: &[Round]) -> Result<(), Memory>
    ensures { OnOk result (Gains text.old text.new (rounds_text 0 rounds.now)) }
{
    for (number, round) in rounds.iter().enumerate() {
        write_round(text, number, round)?;
    }
    Ok(())
}

/// Writes the verdict.
fn write_verdict(text: &mut String, verdict: bool) -> Result<(), Memory>
    ensures { OnOk result (Gains text.old text.new (verdict_text verdict)) }
{
    if verdict {
        text.push_str("verdict yes\n")?;
        return Ok(());
    }
    text.push_str("verdict no\n")?;
    Ok(())
}

/// Writes that the line of this number is unreadable.
#[tactic(auto, unfolding(crate::specs::Text::unreadable_text))]
fn write_line(text: &mut String, line: usize) -> Result<(), Memory>
    ensures { OnOk result (Gains text.old text.new (unreadable_text line)) }
{
    text.push_str("line")?;
    write_spaced(text, line as u64)?;
    text.push_str(": unreadable\n")?;
    Ok(())
}
