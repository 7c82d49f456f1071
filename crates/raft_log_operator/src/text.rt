//! The lines for the items of a log, and for the faults of its files.
use raft_log_engine::{Command, FileId, LogItem, LogItemContent, LogQueue};
use raft_log_inspection::{Damage, Gap};
use raft_log_record_items::{EntryIndexes, KeyValue, OpType};
use std::fmt;

/// The line for an item and its file.
#[derive(Clone, Copy)]
pub struct ItemLine<'a> {
    /// The file.
    pub id: FileId,
    /// The item.
    pub item: &'a LogItem,
}

impl fmt::Display for ItemLine<'_> {
    fn fmt<W: fmt::Write>(&self, f: &mut fmt::Formatter<W>) -> fmt::Result {
        let file = FileText(self.id);
        let group = self.item.raft_group_id;
        write!(f, "{file}: group {group}: ")?;
        match &self.item.content {
            LogItemContent::EntryIndexes(entries) => write_entries(f, entries),
            LogItemContent::Command(Command::Clean) => write!(f, "clean"),
            LogItemContent::Command(Command::Compact { index }) => write!(f, "compact to {index}"),
            LogItemContent::Kv(pair) => write_pair(f, pair),
        }
    }
}

/// Writes a run of entries: its first and its last index, and how many bytes it has.
fn write_entries<W: fmt::Write>(f: &mut fmt::Formatter<W>, entries: &EntryIndexes) -> fmt::Result {
    let len = entries.bytes_len();
    match (entries.as_slice().first(), entries.as_slice().last()) {
        (Some(first), Some(last)) => {
            let first = first.index;
            let last = last.index;
            write!(f, "entries {first} to {last}, {len} bytes")
        }
        _ => write!(f, "no entries"),
    }
}

/// Writes a key that is put or deleted.
fn write_pair<W: fmt::Write>(f: &mut fmt::Formatter<W>, pair: &KeyValue) -> fmt::Result {
    let key = KeyText(pair.key.as_slice());
    match pair.op_type {
        OpType::Put => {
            let len = pair.value.as_ref().map_or(0, |value| value.len());
            write!(f, "put {key}, {len} bytes")
        }
        OpType::Del => write!(f, "delete {key}"),
    }
}

/// The text for a file: its queue and its number.
#[derive(Clone, Copy)]
pub struct FileText(pub FileId);

impl fmt::Display for FileText {
    fn fmt<W: fmt::Write>(&self, f: &mut fmt::Formatter<W>) -> fmt::Result {
        let seq = self.0.seq;
        let queue = queue_word(self.0.queue);
        write!(f, "{queue} {seq}")
    }
}

/// The line for a gap between files of a queue.
#[derive(Clone, Copy)]
pub struct GapLine {
    /// The queue.
    pub queue: LogQueue,
    /// The gap.
    pub gap: Gap,
}

impl fmt::Display for GapLine {
    fn fmt<W: fmt::Write>(&self, f: &mut fmt::Formatter<W>) -> fmt::Result {
        let queue = queue_word(self.queue);
        let Gap { before, behind } = self.gap;
        if behind <= before {
            return write!(f, "{queue}: two files have the number {behind}");
        }
        let first = before.saturating_add(1);
        let last = behind.saturating_sub(1);
        if first == last {
            write!(f, "{queue}: file {first} is missing")
        } else {
            write!(f, "{queue}: files {first} to {last} are missing")
        }
    }
}

/// The line for a damaged file.
#[derive(Clone, Copy)]
pub struct DamageLine<'a>(pub &'a Damage);

impl fmt::Display for DamageLine<'_> {
    fn fmt<W: fmt::Write>(&self, f: &mut fmt::Formatter<W>) -> fmt::Result {
        let file = FileText(self.0.id);
        let offset = self.0.offset;
        let cause = &self.0.cause;
        let path = self.0.path.as_str();
        write!(f, "{file}: damaged at offset {offset}: {cause}: {path}")
    }
}

/// The word for a queue.
pub fn queue_word(queue: LogQueue) -> &'static str {
    match queue {
        LogQueue::Append => "append",
        LogQueue::Rewrite => "rewrite",
    }
}

/// The text for a key: in quotes if each byte is printable ASCII except a quote or a backslash; else in hex.
#[derive(Clone, Copy)]
pub struct KeyText<'a>(pub &'a [u8]);

impl fmt::Display for KeyText<'_> {
    fn fmt<W: fmt::Write>(&self, f: &mut fmt::Formatter<W>) -> fmt::Result {
        match std::str::from_utf8(self.0) {
            Ok(text) if is_plain(self.0) => write!(f, "\"{text}\""),
            _ => write_hex(f, self.0),
        }
    }
}

/// Whether bytes are written as text.
fn is_plain(bytes: &[u8]) -> bool {
    bytes.iter().all(|byte| matches!(byte, b' '..=b'~') && !matches!(byte, b'"' | b'\\'))
}

fn write_hex<W: fmt::Write>(f: &mut fmt::Formatter<W>, bytes: &[u8]) -> fmt::Result {
    write!(f, "0x")?;
    for byte in bytes {
        write!(f, "{byte:02x}")?;
    }
    Ok(())
}
