//! Lines that are an event, except for a write.
use crate::bytes::read_bytes;
use crate::session::{SessionEvent, Unread};
use crate::words::{Words, split_at_byte};
use raft_log_fs_memory::{Piece, Remainder};
use raft_log_judge::Batch;
use raft_log_world::{Call, Event, Fault, Purge};
use std::alloc::Global;

/// Returns the event of a line, by its first word and its arguments; `None` if no event has this word.
pub fn read_event(word: &str, words: &mut Words<'_>) -> Result<Option<SessionEvent>, Unread> {
    let event = match word {
        "open" => read_open(words)?,
        "close" => Event::Close,
        "fork" => read_fork(words)?,
        "refuse" => read_refuse(words)?,
        "stop" => read_stop(words)?,
        "crash" => Event::Crash {
            left: read_remainder(words)?,
        },
        _ => match read_call(word, words)? {
            Some(call) => Event::Serve(call),
            None => return Ok(None),
        },
    };
    Ok(Some(event))
}

/// `open workers=N`, with at least one worker.
fn read_open(words: &mut Words<'_>) -> Result<SessionEvent, Unread> {
    let workers = words.number(b" workers=")?;
    if workers == 0 {
        return Err(Unread::Form);
    }
    Ok(Event::Open { workers })
}

/// `fork target=NAME`: a copy into a directory. Its name is one word, and not empty.
fn read_fork(words: &mut Words<'_>) -> Result<SessionEvent, Unread> {
    let word = words.word(b" target=")?;
    if word.is_empty() {
        return Err(Unread::Form);
    }
    let Ok(name) = std::str::from_utf8(word) else {
        return Err(Unread::Form);
    };
    let target = String::from_str(words.alloc, name)?;
    Ok(Event::Fork { target })
}

/// `refuse call=N [part=N]`: the call of this number fails. If it is a write, it writes the first `part` bytes, by
/// default none.
fn read_refuse(words: &mut Words<'_>) -> Result<SessionEvent, Unread> {
    let call = words.number(b" call=")?;
    let part = words.number_if(b" part=")?.unwrap_or(0);
    Ok(Event::Arm {
        fault: Fault::Refuse { call, part },
    })
}

/// `stop call=N [after]`: the file system stops at the call of this number, or after it.
fn read_stop(words: &mut Words<'_>) -> Result<SessionEvent, Unread> {
    let call = words.number(b" call=")?;
    let after = words.is_last(b" after");
    Ok(Event::Arm {
        fault: Fault::Stop { call, after },
    })
}

/// Returns the call of a line; `None` if no call has this word.
fn read_call(word: &str, words: &mut Words<'_>) -> Result<Option<Call<Batch>>, Unread> {
    let call = match word {
        "sync" => Call::Sync,
        "get" => Call::Get {
            group: words.number(b" group=")?,
            key: words.bytes(b" key=")?.into_vec(),
        },
        "entry" => Call::GetEntry {
            group: words.number(b" group=")?,
            index: words.number(b" index=")?,
        },
        "first-index" => Call::FirstIndex {
            group: words.number(b" group=")?,
        },
        "last-index" => Call::LastIndex {
            group: words.number(b" group=")?,
        },
        "fetch" => read_fetch(words)?,
        "scan" => Call::Scan {
            group: words.number(b" group=")?,
            start: words.bytes_if(b" from=")?,
            end: words.bytes_if(b" below=")?,
        },
        "compact-to" => Call::Compact {
            group: words.number(b" group=")?,
            index: words.number(b" index=")?,
        },
        _ => match read_purge(word, words)? {
            Some(kind) => Call::Purge(kind),
            None => return Ok(None),
        },
    };
    Ok(Some(call))
}

/// `fetch group=G from=I below=I [size=N]`.
fn read_fetch(words: &mut Words<'_>) -> Result<Call<Batch>, Unread> {
    Ok(Call::Fetch {
        group: words.number(b" group=")?,
        begin: words.number(b" from=")?,
        end: words.number(b" below=")?,
        max: words.number_if(b" size=")?,
    })
}

/// Returns the purge of a line; `None` if no purge has this word.
fn read_purge(word: &str, words: &mut Words<'_>) -> Result<Option<Purge>, Unread> {
    let kind = match word {
        "purge" => Purge::Expired,
        "purge-stale" => Purge::Stale,
        "rewrite-append" => Purge::RewriteAppend {
            watermark: words.number_if(b" watermark=")?,
            exit_after_step: words.number_if(b" exit=")?,
        },
        "rewrite-rewrite" => Purge::RewriteRewrite,
        _ => return Ok(None),
    };
    Ok(Some(kind))
}

/// `keep=R`: what a crash leaves of the changes that aren't synced:
/// - `synced`: none of them
/// - `all`: all
/// - `none`: an empty list, so none of them
/// - `first changes=N [bytes=N]`: the first changes, and the first bytes of the next one
/// - otherwise a list, separated by commas
fn read_remainder(words: &mut Words<'_>) -> Result<Remainder, Unread> {
    let alloc = words.alloc;
    let word = words.word(b" keep=")?;
    if word == b"synced".as_slice() {
        return Ok(Remainder::LastSync);
    }
    if word == b"all".as_slice() {
        return Ok(Remainder::AllWritten);
    }
    if word == b"none".as_slice() {
        return Ok(Remainder::Pieces(Vec::new(alloc)));
    }
    if word == b"first".as_slice() {
        return read_first(words);
    }
    read_pieces(alloc, word)
}

/// `changes=N [bytes=N]`: how many changes a crash leaves whole, and how many bytes of the next one.
fn read_first(words: &mut Words<'_>) -> Result<Remainder, Unread> {
    let pieces = words.number(b" changes=")?;
    let bytes = words.number_if(b" bytes=")?.unwrap_or(0);
    Ok(Remainder::First {
        pieces: pieces as usize,
        bytes: bytes as usize,
    })
}

/// Returns what a crash leaves of each change, from a list separated by commas.
fn read_pieces(alloc: Global, list: &[u8]) -> Result<Remainder, Unread> {
    let mut pieces = Vec::new(alloc);
    let mut left = list;
    while let Some((word, rest)) = split_at_byte(left, b',') {
        pieces.push(read_piece(alloc, word)?)?;
        left = rest;
    }
    pieces.push(read_piece(alloc, left)?)?;
    Ok(Remainder::Pieces(pieces))
}

/// Returns what a crash leaves of one change: `keep` all of it, `lose` nothing, and otherwise these bytes.
fn read_piece(alloc: Global, word: &[u8]) -> Result<Piece, Unread> {
    if word == b"keep".as_slice() {
        return Ok(Piece::Keep);
    }
    if word == b"lose".as_slice() {
        return Ok(Piece::Lose);
    }
    Ok(Piece::Bytes(read_bytes(alloc, word)?.into_vec()))
}
