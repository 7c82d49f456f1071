//! Escapes text for XML.
ghost use Rattle.std.specs.Prelude.{chars, flat_map, OnOk};
ghost use Rattle.raft_voter_timeline.specs.Escape.{escaped, Gains};

use raft_voter_messages::Memory;

/// Appends a text, escaped for XML. The characters `&`, `<`, `>` and both quotes become entities. A tab, a line end and
/// a character that XML can't contain become U+FFFD. If memory runs out, a prefix may have been appended.
pub fn push_escaped(text: &mut String, part: &str) -> Result<(), Memory>
    ensures { OnOk result (Gains text.old text.new (flat_map escaped (chars part.now))) }
{
    for character in part.chars() {
        push_character(text, character)?;
    }
    Ok(())
}

/// Appends a character.
#[tactic(auto, unfolding(crate::specs::Escape::escaped))]
fn push_character(text: &mut String, character: char) -> Result<(), Memory>
    ensures { OnOk result (Gains text.old text.new (escaped character)) }
{
    match character {
        '&' => text.push_str("&amp;")?,
        '<' => text.push_str("&lt;")?,
        '>' => text.push_str("&gt;")?,
        '"' => text.push_str("&quot;")?,
        '\'' => text.push_str("&#39;")?,
        '\0'..'\u{20}' | '\u{fffe}' | '\u{ffff}' => text.push('\u{fffd}')?,
        _ => text.push(character)?,
    }
    Ok(())
}
