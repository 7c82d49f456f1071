//! Lines that fill a batch.
use crate::session::Unread;
use crate::words::Words;
use raft_lists::Bytes;
use raft_log_judge::{Change, ChangeKind};

/// Returns the change that a line adds to a batch, by its first word and its arguments; `None` if no change has this
/// word.
pub fn read_change(word: &str, words: &mut Words<'_>) -> Result<Option<Change>, Unread> {
    let change = match word {
        "append" => read_append(words)?,
        "put" => read_put(words)?,
        "delete" => read_delete(words)?,
        "clean" => Change {
            group: words.number(b" group=")?,
            kind: ChangeKind::Clean,
        },
        "compact" => Change {
            group: words.number(b" group=")?,
            kind: ChangeKind::Compact {
                index: words.number(b" index=")?,
            },
        },
        _ => return Ok(None),
    };
    Ok(Some(change))
}

/// `append group=G index=I entries=B,..`: entries of a group, from an index on. No entry may have index 2^64 - 1.
fn read_append(words: &mut Words<'_>) -> Result<Change, Unread> {
    let group = words.number(b" group=")?;
    let first = words.number(b" index=")?;
    let entries = words.list(b" entries=")?;
    if entries.len() as u64 > u64::MAX - first {
        return Err(Unread::Form);
    }
    Ok(Change {
        group,
        kind: ChangeKind::Entries { first, entries },
    })
}

/// `put group=G key=B value=B`: a key's value.
fn read_put(words: &mut Words<'_>) -> Result<Change, Unread> {
    let group = words.number(b" group=")?;
    let key = read_key(words)?;
    let value = words.bytes(b" value=")?;
    Ok(Change {
        group,
        kind: ChangeKind::Put { key, value },
    })
}

/// `delete group=G key=B`: the deletion of a key.
fn read_delete(words: &mut Words<'_>) -> Result<Change, Unread> {
    let group = words.number(b" group=")?;
    let key = read_key(words)?;
    Ok(Change {
        group,
        kind: ChangeKind::Delete { key },
    })
}

/// Reads a key that isn't one of the log's own, which begin with two underscores.
fn read_key(words: &mut Words<'_>) -> Result<Bytes, Unread> {
    let key = words.bytes(b" key=")?;
    if key.as_slice().starts_with(b"__".as_slice()) {
        return Err(Unread::Form);
    }
    Ok(key)
}
