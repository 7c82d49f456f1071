//! Answers and verdicts as lines.
ghost use Rattle.std.specs.Prelude.{◌≡◌, IfOk, OnOk, drop, length, map, string_bytes};
ghost use Rattle.raft_log_world.specs.Reads.{all_bytes, bytes_of, pairs_of};
ghost use Rattle.raft_log_session.specs.Answers.{after_commas, answer_line, answer_text, bytes_text, found_text, Gains, index_text, list_text, pair_text, verdict_line};

use raft_log_world::Answer;
use std::alloc::AllocError;

/// Appends the line of an answer. If memory runs out, a part may follow the old text.
#[tactic(auto, unfolding(crate::specs::Answers::answer_line))]
pub fn write_answer(text: &mut String, answer: &Answer) -> Result<(), AllocError>
    ensures { OnOk result (Gains text.old text.new (answer_line answer.now)) }
{
    write_text(text, answer)?;
    text.push_str("\n")
}

/// Appends the line of a verdict.
pub fn write_verdict(text: &mut String, verdict: bool) -> Result<(), AllocError>
    ensures { OnOk result (Gains text.old text.new (verdict_line verdict)) }
{
    if verdict {
        return text.push_str("verdict yes\n");
    }
    text.push_str("verdict no\n")
}

/// Appends the text of an answer.
fn write_text(text: &mut String, answer: &Answer) -> Result<(), AllocError>
    ensures { OnOk result (Gains text.old text.new (answer_text answer.now)) }
{
    match answer {
        Answer::Done => text.push_str("ok"),
        Answer::Found(found) => write_found(text, found),
        Answer::At(index) => write_index(text, index),
        Answer::Entries(entries) => write_entries(text, entries.as_slice()),
        Answer::Keys(pairs) => write_pairs(text, pairs.as_slice()),
        Answer::Refused => text.push_str("refused"),
        Answer::Failed => text.push_str("failed"),
        Answer::Idle => text.push_str("idle"),
    }
}

/// Appends what a read of bytes returned.
fn write_found(text: &mut String, found: &Option<Vec<u8>>) -> Result<(), AllocError>
    ensures { OnOk result (Gains text.old text.new (found_text (bytes_of found.now))) }
{
    match found {
        Some(bytes) => write_bytes(text, bytes.as_slice()),
        None => text.push_str("none"),
    }
}

/// Appends an index in decimal, or `none`.
fn write_index(text: &mut String, index: &Option<u64>) -> Result<(), AllocError>
    ensures { OnOk result (Gains text.old text.new (index_text index.now)) }
{
    match index {
        Some(index) => write!(text, "{index}"),
        None => text.push_str("none"),
    }
}

/// Appends entries, separated by commas, or `none`.
fn write_entries(text: &mut String, entries: &[Vec<u8>]) -> Result<(), AllocError>
    ensures { OnOk result (Gains text.old text.new (list_text (map bytes_text (all_bytes entries.now)))) }
{
    let Some((first, more)) = entries.split_first() else {
        return text.push_str("none");
    };
    write_bytes(text, first.as_slice())?;
    write_more_entries(text, more)
}

/// Appends entries, each after a comma.
fn write_more_entries(text: &mut String, entries: &[Vec<u8>]) -> Result<(), AllocError>
    ensures { OnOk result (Gains text.old text.new (after_commas (map bytes_text (all_bytes entries.now)))) }
{
    for entry in entries {
        text.push_str(",")?;
        write_bytes(text, entry.as_slice())?;
    }
    Ok(())
}

/// Appends keys with their values, separated by commas, or `none`.
fn write_pairs(text: &mut String, pairs: &[(Vec<u8>, Vec<u8>)]) -> Result<(), AllocError>
    ensures { OnOk result (Gains text.old text.new (list_text (map pair_text (pairs_of pairs.now)))) }
{
    let Some((first, more)) = pairs.split_first() else {
        return text.push_str("none");
    };
    write_pair(text, first.0.as_slice(), first.1.as_slice())?;
    write_more_pairs(text, more)
}

/// Appends keys with their values, each after a comma.
fn write_more_pairs(text: &mut String, pairs: &[(Vec<u8>, Vec<u8>)]) -> Result<(), AllocError>
    ensures { OnOk result (Gains text.old text.new (after_commas (map pair_text (pairs_of pairs.now)))) }
{
    for pair in pairs {
        text.push_str(",")?;
        write_pair(text, pair.0.as_slice(), pair.1.as_slice())?;
    }
    Ok(())
}

/// Appends a key and its value.
#[tactic(auto, unfolding(crate::specs::Answers::pair_text))]
fn write_pair(text: &mut String, key: &[u8], value: &[u8]) -> Result<(), AllocError>
    ensures { OnOk result (Gains text.old text.new (pair_text (key.now, value.now))) }
{
    write_bytes(text, key)?;
    text.push_str("=")?;
    write_bytes(text, value)
}

/// Appends bytes in hex digits, and no bytes as `''`.
fn write_bytes(text: &mut String, bytes: &[u8]) -> Result<(), AllocError>
    ensures { OnOk result (Gains text.old text.new (bytes_text bytes.now)) }
{
    if bytes.is_empty() {
        return text.push_str("''");
    }
    let digits = hex::encode(*text.allocator(), bytes)?;
    text.push_str(digits.as_str())
}
