//! Lines written as SVG.
ghost use Rattle.std.specs.Prelude.{◌<◌, ◌^◌, IfOk, OnOk, string_bytes};
ghost use Rattle.std.specs.Fmt.{decimal};
ghost use Rattle.raft_voter_timeline.specs.Escape.{Gains};
ghost use Rattle.raft_voter_timeline.specs.Picture.{class_text, end_text, happened_text, line_text, outcome_text, ShowsLines, top_of, top_text, use_text};

use crate::escape::push_escaped;
use crate::head::{head_of, top_of};
use crate::line::{Line, Mark};
use raft_voter_messages::Memory;
use std::alloc::Global;

/// Returns the picture of these lines below a heading, from top to bottom.
///
/// Fails with `Memory` if there is no room for it.
pub fn svg_of(alloc: Global, heading: &str, lines: &[Line]) -> Result<String, Memory>
    ensures { IfOk result (λ picture. ShowsLines heading.now lines.now (string_bytes picture)) }
{
    let mut text = head_of(alloc, heading, lines.len())?;
    for (number, line) in lines.iter().enumerate() {
        push_line(&mut text, number, line)?;
    }
    text.push_str("</svg>\n")?;
    Ok(text)
}

/// Appends the line of this number.
#[tactic(auto, unfolding(crate::specs::Picture::line_text))]
fn push_line(text: &mut String, number: usize, line: &Line) -> Result<(), Memory>
    requires { top_of number < 2 ^ 64 }
    ensures { OnOk result (Gains text.old text.new (line_text number line.now)) }
{
    push_class(text, line.mark)?;
    push_top(text, top_of(number))?;
    push_use(text, line.mark)?;
    push_happened(text, line.text.as_str())?;
    push_outcome(text, line.outcome.as_str())?;
    push_end(text)?;
    Ok(())
}

/// Appends the beginning of a line of this mark.
#[tactic(auto, unfolding(crate::specs::Picture::class_text))]
fn push_class(text: &mut String, mark: Mark) -> Result<(), Memory>
    ensures { OnOk result (Gains text.old text.new (class_text mark)) }
{
    text.push_str("<g class='")?;
    text.push_str(mark.name())?;
    Ok(())
}

/// Appends how far below the top a line is.
fn push_top(text: &mut String, top: usize) -> Result<(), Memory>
    ensures { OnOk result (Gains text.old text.new (top_text top)) }
{
    text.push_str("' transform='translate(0 ")?;
    push_number(text, top)?;
    Ok(())
}

/// Appends a number.
fn push_number(text: &mut String, number: usize) -> Result<(), Memory>
    ensures { OnOk result (Gains text.old text.new (decimal number)) }
{
    write!(text, "{number}")?;
    Ok(())
}

/// Appends what is drawn for a mark.
#[tactic(auto, unfolding(crate::specs::Picture::use_text))]
fn push_use(text: &mut String, mark: Mark) -> Result<(), Memory>
    ensures { OnOk result (Gains text.old text.new (use_text mark)) }
{
    text.push_str(")'><use href='#")?;
    text.push_str(mark.name())?;
    Ok(())
}

/// Appends what happened.
fn push_happened(text: &mut String, words: &str) -> Result<(), Memory>
    ensures { OnOk result (Gains text.old text.new (happened_text words.now)) }
{
    text.push_str("'/><text x='84'>")?;
    push_escaped(text, words)?;
    Ok(())
}

/// Appends the result.
#[tactic(auto, unfolding(crate::specs::Picture::outcome_text))]
fn push_outcome(text: &mut String, words: &str) -> Result<(), Memory>
    ensures { OnOk result (Gains text.old text.new (outcome_text words.now)) }
{
    text.push_str("</text><text x='600'>")?;
    push_escaped(text, words)
}

/// Appends the end of a line.
#[tactic(auto, unfolding(crate::specs::Picture::end_text))]
fn push_end(text: &mut String) -> Result<(), Memory>
    ensures { OnOk result (Gains text.old text.new end_text) }
{
    text.push_str("</text></g>\n")?;
    Ok(())
}
