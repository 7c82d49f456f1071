//! Reads of several entries, or of several keys.

ghost use Rattle.std.specs.Prelude.{◌≡◌, IfOk, OnOk, map};
ghost use Rattle.raft_log_engine.specs.raft_log_engine_core.specs.Reads.{shows_of, Lives};
ghost use Rattle.raft_log_engine.specs.raft_log_engine_laws.specs.Reading.{ReadsKeys};
ghost use Rattle.raft_log_world.specs.Reads.{all_bytes, bytes_of, pairs_of};
ghost use Rattle.raft_log_world_engine.specs.Calls.{HasCopied, HasCopiedKeys, ServesAs};

use crate::calls::failure;
use raft_log_engine::{LogEngine, PipeLog, Result};
use raft_log_record_items::{Bytes, RawEntries, RawMessage};
use raft_log_world::{Answer, Call};
use std::alloc::{AllocError, Global};

/// Reads the entries of a group from an index on, below another one.
pub fn fetch<P: PipeLog>(
    engine: &mut LogEngine<P>,
    alloc: Global,
    group: u64,
    begin: u64,
    end: u64,
    max: Option<u64>,
) -> Answer
    ensures { ServesAs (shows_of P.shown engine.old) (Call.Fetch group begin end max) result
        (shows_of P.shown engine.new) }
{
    let mut messages: Vec<RawMessage> = Vec::new(alloc);
    match engine.fetch_entries_to::<RawEntries>(group, begin, end, in_memory(max), &mut messages) {
        Ok(_) => told_entries(alloc, messages.as_slice()),
        Err(_) => failure(engine.is_failed()),
    }
}

/// A number of bytes as a size in memory.
fn in_memory(max: Option<u64>) -> Option<usize>
    ensures { result ≡ max }
{
    match max {
        Some(max) => Some(max as usize),
        None => None,
    }
}

/// The answer of a read that found these entries. It is `Refused` if there is no memory for them.
fn told_entries(alloc: Global, messages: &[RawMessage]) -> Answer
    ensures { HasCopied (map (λ m. m.bytes) messages.now) result }
{
    match copies(alloc, messages) {
        Ok(entries) => Answer::Entries(entries),
        Err(_) => Answer::Refused,
    }
}

/// Copies of entries. Fails only for lack of memory.
fn copies(alloc: Global, messages: &[RawMessage]) -> Result<Vec<Vec<u8>>, AllocError>
    ensures { IfOk result (λ entries. all_bytes entries.items ≡ map (λ m. m.bytes) messages.now) }
{
    let mut entries = Vec::new(alloc);
    for message in messages {
        entries.push(Bytes::from_slice(alloc, message.bytes.as_slice())?.into_vec())?;
    }
    Ok(entries)
}

/// Reads the keys of a group from one on, below another one, and their values.
pub fn scan<P: PipeLog>(
    engine: &mut LogEngine<P>,
    alloc: Global,
    group: u64,
    start: Option<Vec<u8>>,
    end: Option<Vec<u8>>,
) -> Answer
    ensures { ServesAs (shows_of P.shown engine.old) (Call.Scan group start end) result
        (shows_of P.shown engine.new) }
{
    match pairs_within(engine, group, &start, &end) {
        Ok(pairs) => told_keys(alloc, pairs.as_slice()),
        Err(_) => failure(engine.is_failed()),
    }
}

/// The keys of a group within these bounds, and their values.
fn pairs_within<P: PipeLog>(
    engine: &LogEngine<P>,
    group: u64,
    start: &Option<Vec<u8>>,
    end: &Option<Vec<u8>>,
) -> Result<Vec<(Bytes, Bytes)>>
    ensures ok { IfOk result (λ pairs. ReadsKeys (shows_of P.shown engine.now) group
        (bytes_of start.now) (bytes_of end.now) pairs.items) }
    ensures lived { OnOk result (Lives (shows_of P.shown engine.now)) }
{
    match (start, end) {
        (Some(start), Some(end)) => {
            engine.pairs_within(group, Some(start.as_slice()), Some(end.as_slice()))
        }
        (Some(start), None) => engine.pairs_within(group, Some(start.as_slice()), None),
        (None, Some(end)) => engine.pairs_within(group, None, Some(end.as_slice())),
        (None, None) => engine.pairs_within(group, None, None),
    }
}

/// The answer of a read that found these keys and values. It is `Refused` if there is no memory for them.
fn told_keys(alloc: Global, pairs: &[(Bytes, Bytes)]) -> Answer
    ensures { HasCopiedKeys pairs.now result }
{
    match key_copies(alloc, pairs) {
        Ok(keys) => Answer::Keys(keys),
        Err(_) => Answer::Refused,
    }
}

/// Copies of keys and values. Fails only for lack of memory.
fn key_copies(
    alloc: Global,
    pairs: &[(Bytes, Bytes)],
) -> Result<Vec<(Vec<u8>, Vec<u8>)>, AllocError>
    ensures { IfOk result (λ keys. pairs_of keys.items ≡ pairs.now) }
{
    let mut keys = Vec::new(alloc);
    for pair in pairs {
        let key = Bytes::from_slice(alloc, pair.0.as_slice())?.into_vec();
        let value = Bytes::from_slice(alloc, pair.1.as_slice())?.into_vec();
        keys.push((key, value))?;
    }
    Ok(keys)
}
