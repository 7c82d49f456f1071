//! The part of a picture before its lines: how marks are drawn, and what they mean.
ghost use Rattle.std.specs.Prelude.{◌≡◌, ◌<◌, ◌^◌, IfOk, OnOk, string_bytes};
ghost use Rattle.raft_voter_timeline.specs.Escape.{Gains};
ghost use Rattle.raft_voter_timeline.specs.Picture.{ShowsHeading, heading_text, top_of};

use crate::escape::push_escaped;
use raft_voter_messages::Memory;
use std::alloc::Global;

/// The style of texts; a line's own text has the line's class.
const STYLE: &str = "<style>
text { font: 13px 'DejaVu Sans Mono', Menlo, Consolas, 'Liberation Mono', monospace; fill: #1f2328; }
.event text, .answered text:first-of-type, .cut-off text:first-of-type { font-weight: bold; }
.event text:last-of-type, .crash text:last-of-type, .armed text:last-of-type { font-weight: normal; }
.crash text { fill: #a40e26; font-weight: bold; }
.armed text { fill: #a40e26; }
.durable text, .answered text { fill: #1a6334; }
.unchanged text { fill: #57606a; }
.cut text, .cut-off text { fill: #9a4a00; }
.lost text { fill: #8c7a68; text-decoration: line-through; }
.lost text:last-of-type { fill: #9a4a00; text-decoration: none; }
.heading { font-size: 16px; font-weight: bold; }
.legend text { font-size: 12px; fill: #57606a; }
</style>
";

/// How each mark is drawn: on the time line at 60 from the left, over the strip of its round.
const SHAPES: &str = "<defs>
<g id=\"time\"><path d=\"M60 -15v22\" stroke=\"#8c959f\" stroke-width=\"2\"/></g>
<g id=\"strip\"><rect x=\"44\" y=\"-15\" width=\"1040\" height=\"22\" fill=\"#eef5ef\"/><use href=\"#time\"/></g>
<g id=\"gone\"><rect x=\"44\" y=\"-15\" width=\"1040\" height=\"22\" fill=\"#fcf0e4\"/><use href=\"#time\"/></g>
<g id=\"event\"><use href=\"#time\"/><circle cx=\"60\" cy=\"-4\" r=\"5\" fill=\"#ffffff\" stroke=\"#57606a\" stroke-width=\"2\"/></g>
<g id=\"armed\">
<use href=\"#time\"/><circle cx=\"60\" cy=\"-4\" r=\"6\" fill=\"#ffffff\" stroke=\"#a40e26\" stroke-width=\"2\" stroke-dasharray=\"3 2\"/></g>
<g id=\"crash\">
<rect x=\"16\" y=\"-15\" width=\"1068\" height=\"22\" fill=\"#fbe3e4\"/>
<path d=\"M60 -15v3l-9 6h18l-9 6v7\" fill=\"none\" stroke=\"#a40e26\" stroke-width=\"2.5\"/></g>
<g id=\"round\"><use href=\"#strip\"/><rect x=\"53\" y=\"-11\" width=\"14\" height=\"14\" fill=\"#8c959f\"/></g>
<g id=\"answered\"><use href=\"#strip\"/><rect x=\"44\" y=\"-15\" width=\"1040\" height=\"2\" fill=\"#1a6334\"/></g>
<g id=\"cut-off\"><use href=\"#gone\"/><rect x=\"44\" y=\"-15\" width=\"1040\" height=\"2\" fill=\"#bc6a1a\"/></g>
<g id=\"taken\"><use href=\"#strip\"/><rect x=\"54\" y=\"-10\" width=\"12\" height=\"12\" fill=\"#2da44e\"/></g>
<g id=\"refused\"><use href=\"#strip\"/><rect x=\"54\" y=\"-10\" width=\"12\" height=\"12\" fill=\"#24292f\"/></g>
<g id=\"lost\">
<use href=\"#gone\"/><rect x=\"55\" y=\"-9\" width=\"10\" height=\"10\" fill=\"#ffffff\" stroke=\"#bc6a1a\" stroke-width=\"2\"/></g>
<g id=\"durable\"><use href=\"#strip\"/><rect x=\"44\" y=\"3\" width=\"1040\" height=\"4\" fill=\"#2da44e\"/></g>
<g id=\"unchanged\"><use href=\"#strip\"/><rect x=\"44\" y=\"5\" width=\"1040\" height=\"2\" fill=\"#8c959f\"/></g>
<g id=\"cut\"><use href=\"#strip\"/><path d=\"M16 5h1068\" stroke=\"#bc6a1a\" stroke-width=\"3\" stroke-dasharray=\"10 5\"/></g>
</defs>
";

/// What each mark means.
const LEGEND: &str = "<g class=\"legend\">
<circle cx=\"22\" cy=\"54\" r=\"5\" fill=\"#ffffff\" stroke=\"#57606a\" stroke-width=\"2\"/><text x=\"36\" y=\"58\">event</text>
<rect x=\"96\" y=\"48\" width=\"12\" height=\"12\" fill=\"#2da44e\"/><text x=\"116\" y=\"58\">request taken</text>
<rect x=\"235\" y=\"49\" width=\"10\" height=\"10\" fill=\"#ffffff\" stroke=\"#bc6a1a\" stroke-width=\"2\"/><text x=\"254\" y=\"58\">lost</text>
<rect x=\"310\" y=\"48\" width=\"12\" height=\"12\" fill=\"#24292f\"/><text x=\"330\" y=\"58\">refused</text>
<circle cx=\"414\" cy=\"54\" r=\"6\" fill=\"#ffffff\" stroke=\"#a40e26\" stroke-width=\"2\" stroke-dasharray=\"3 2\"/>
<text x=\"430\" y=\"58\">fault set for a later call</text>
<path d=\"M652 44v3l-9 6h18l-9 6v5\" fill=\"none\" stroke=\"#a40e26\" stroke-width=\"2.5\"/><text x=\"670\" y=\"58\">crash</text>
<rect x=\"742\" y=\"53\" width=\"40\" height=\"2\" fill=\"#8c959f\"/><text x=\"790\" y=\"58\">nothing to sync</text>
<rect x=\"16\" y=\"74\" width=\"40\" height=\"4\" fill=\"#2da44e\"/><text x=\"64\" y=\"80\">synced before the replies</text>
<path d=\"M290 76h40\" stroke=\"#bc6a1a\" stroke-width=\"3\" stroke-dasharray=\"10 5\"/>
<text x=\"338\" y=\"80\">cut: the next open finds what is above; the rest is lost</text>
<path d=\"M850 68v12m-4 -4l4 5l4 -5\" fill=\"none\" stroke=\"#8c959f\" stroke-width=\"2\"/><text x=\"864\" y=\"80\">time</text>
</g>
";

/// How high a line is.
const LINE_HEIGHT: usize = 22;

/// How far below the top the first line is.
const FIRST_LINE: usize = 122;

/// Returns how far below the top the line of this number is.
pub fn top_of(number: usize) -> usize
    requires { top_of number < 2 ^ 64 }
    ensures { result ≡ top_of number }
{
    FIRST_LINE + LINE_HEIGHT * number
}

/// Returns a picture's text up to its first line, for this many lines.
///
/// Fails with `Memory` if there is no room for it.
pub fn head_of(alloc: Global, heading: &str, count: usize) -> Result<String, Memory>
    requires { top_of count < 2 ^ 64 }
    ensures { IfOk result (λ text. ShowsHeading heading.now (string_bytes text)) }
{
    let height = top_of(count);
    let mut text = String::new(alloc);
    let begin = "<svg xmlns=\"http://www.w3.org/2000/svg\" role=\"img\" width=\"1100\"";
    write!(
        text,
        "{begin} height=\"{height}\" viewBox=\"0 0 1100 {height}\">\n"
    )?;
    text.push_str("<title>A session, from top to bottom</title>\n")?;
    text.push_str(STYLE)?;
    text.push_str(SHAPES)?;
    write!(
        text,
        "<rect width=\"1100\" height=\"{height}\" fill=\"#ffffff\"/>\n"
    )?;
    push_heading(&mut text, heading)?;
    text.push_str(LEGEND)?;
    Ok(text)
}

/// Appends the heading.
#[tactic(auto, unfolding(crate::specs::Picture::heading_text))]
fn push_heading(text: &mut String, heading: &str) -> Result<(), Memory>
    ensures { OnOk result (Gains text.old text.new (heading_text heading.now)) }
{
    text.push_str("<text class=\"heading\" x=\"16\" y=\"30\">")?;
    push_escaped(text, heading)?;
    text.push_str("</text>\n")?;
    Ok(())
}
