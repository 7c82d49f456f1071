//! Counts what a log holds.
ghost use Rattle.std.specs.Prelude.{◌≡◌, IfOk};
ghost use Rattle.raft_log_operator.specs.Sound.{HasIntactFiles};

use crate::copying::copy_log;
use crate::fault::{CommandFault, Outcome};
use crate::found_file::{FoundFile, find_files};
use crate::inspection::{inspect, write_files};
use crate::settings::kept_settings;
use crate::sizes::{Amount, QueueSize};
use log::Log;
use raft_log_command_line::Place;
use raft_log_engine::{
    Engine, Error, FileSystem, LogEngine, LogItem, LogItemContent, LogItemReader, LogQueue,
    MemoryFileSystem, PipeLog,
};
use raft_log_record_items::RawEntries;
use std::alloc::Global;
use std::io;
use std::io::Write;
use std::thread::Threads;

/// Writes what a log holds:
/// - the gaps between its files and the damaged ones, as a check does;
/// - the files of each queue, and the entries and keys of each group;
/// - how many bytes of the files are live entries, keys and values, and how many are garbage: dead, damaged, duplicate.
///
/// The groups are those of an engine that is opened, with the default settings and no recycling, over a copy in memory.
/// If opening it fails, a line says why, and then only the bytes of all files are written. Changes nothing of the log.
///
/// If it returns `Sound`, no file is damaged, and the numbers of each queue's files are consecutive. It returns
/// `Faulty` if it finds a gap or damage, or if the engine doesn't open.
///
/// Fails as `inspect` and `copy_log` do, or with `Output` if writing the output fails. Fails with `Log` if the engine
/// fails to read an entry that isn't damaged, or if memory runs out. What was written stays.
pub fn stat<R: Threads + Log + Sync, F: FileSystem, W: Write>(
    rt: &R,
    alloc: Global,
    files: &F,
    place: &Place,
    out: &mut W,
) -> Result<Outcome, CommandFault>
    ensures { IfOk result (λ outcome. outcome ≡ Outcome.Sound → HasIntactFiles place.now (F.disk files.now)) }
{
    let faults = inspect(alloc, files, place)?;
    write_files(&faults.append, out)?;
    write_files(&faults.rewrite, out)?;
    let told = tell_all(rt, alloc, files, place, out)?;
    if faults.has_clean_files() {
        return Ok(told);
    }
    Ok(Outcome::Faulty)
}

/// How many bytes a log's files have.
#[derive(Clone, Copy)]
struct Held {
    /// All bytes.
    all: u64,
    /// The bytes of entries, keys and values, live or not.
    items: u64,
}

/// Writes all but the gaps and the damage. Returns `Faulty` if opening an engine over the copy fails.
fn tell_all<R: Threads + Log + Sync, F: FileSystem, W: Write>(
    rt: &R,
    alloc: Global,
    files: &F,
    place: &Place,
    out: &mut W,
) -> Result<Outcome, CommandFault> {
    let config = kept_settings(alloc, place)?;
    let mut copy = MemoryFileSystem::new(alloc);
    let held = tell_copied(alloc, files, place, &mut copy, out)?;
    match Engine::open_with_file_system(rt, alloc, config, copy) {
        Ok(mut engine) => tell_live(&mut engine, held, out),
        Err(refused) => tell_refusal(&refused.error, held.all, out),
    }
}

/// Copies a log into memory, and writes the files of each queue. Returns how many bytes they have.
fn tell_copied<F: FileSystem, W: Write>(
    alloc: Global,
    files: &F,
    place: &Place,
    copy: &mut MemoryFileSystem,
    out: &mut W,
) -> Result<Held, CommandFault> {
    let found = find_files(alloc, files, place)?;
    copy_log(alloc, files, place, copy)?;
    let items = bytes_held(alloc, copy, found.as_slice())?;
    let append = tell_queue(alloc, copy, found.as_slice(), LogQueue::Append, out)?;
    let rewrite = tell_queue(alloc, copy, found.as_slice(), LogQueue::Rewrite, out)?;
    let all = append.saturating_add(rewrite);
    Ok(Held { all, items })
}

/// Writes what each group of an engine has, and how many of all bytes are live.
fn tell_live<P: PipeLog, W: Write>(
    engine: &mut LogEngine<P>,
    held: Held,
    out: &mut W,
) -> Result<Outcome, CommandFault> {
    let live = tell_groups(engine, out)?;
    let garbage = held.items.saturating_sub(live);
    let all = held.all;
    writeln!(out, "{all} bytes of files: {live} live, {garbage} garbage")?;
    Ok(Outcome::Sound)
}

/// Writes that opening an engine failed, and how many bytes all files have. Fails if the error is lack of memory.
fn tell_refusal<W: Write>(error: &Error, all: u64, out: &mut W) -> Result<Outcome, CommandFault> {
    if matches!(error, Error::Memory) {
        return Err(CommandFault::Log(Error::Memory));
    }
    writeln!(out, "no groups, since an open fails: {error}")?;
    writeln!(out, "{all} bytes of files")?;
    Ok(Outcome::Faulty)
}

/// Writes the files of a queue, and returns how many bytes they have.
fn tell_queue<W: Write>(
    alloc: Global,
    files: &MemoryFileSystem,
    found: &[FoundFile],
    queue: LogQueue,
    out: &mut W,
) -> Result<u64, CommandFault> {
    let measured = QueueSize::measure(alloc, files, found, queue)?;
    writeln!(out, "{measured}")?;
    Ok(measured.size.bytes)
}

/// How many bytes of entries, keys and values are in files, live or not.
fn bytes_held(
    alloc: Global,
    files: &MemoryFileSystem,
    found: &[FoundFile],
) -> Result<u64, CommandFault> {
    let mut held = 0u64;
    for file in found {
        held = held.saturating_add(bytes_in(alloc, files, file.path.as_str())?);
    }
    Ok(held)
}

/// How many bytes of entries, keys and values are in a file, up to what is broken in it.
fn bytes_in(alloc: Global, files: &MemoryFileSystem, path: &str) -> Result<u64, CommandFault> {
    let mut held = 0u64;
    let items = match LogItemReader::new_file_reader(alloc, files, path) {
        Ok(items) => items,
        Err(error) => return Err(CommandFault::at(alloc, path, error)),
    };
    for answer in items {
        match answer {
            Ok(item) => held = held.saturating_add(bytes_of(&item)),
            Err(Error::Memory) => return Err(CommandFault::Log(Error::Memory)),
            Err(_other) => {}
        }
    }
    Ok(held)
}

/// How many bytes of entries, keys and values an item has.
fn bytes_of(item: &LogItem) -> u64 {
    match &item.content {
        LogItemContent::EntryIndexes(entries) => entries.bytes_len(),
        LogItemContent::Command(_) => 0,
        LogItemContent::Kv(pair) => {
            let value = pair.value.as_ref().map_or(0, |value| value.len());
            (pair.key.len() as u64).saturating_add(value as u64)
        }
    }
}

/// Writes what each group of an engine has, and returns how many bytes all of them have.
fn tell_groups<P: PipeLog, W: Write>(
    engine: &mut LogEngine<P>,
    out: &mut W,
) -> Result<u64, CommandFault> {
    let mut live = 0u64;
    for group in engine.raft_groups()? {
        let bytes = tell_group(engine, group, out)?;
        live = live.saturating_add(bytes);
    }
    Ok(live)
}

/// Writes what a group has, and returns how many bytes that is.
fn tell_group<P: PipeLog, W: Write>(
    engine: &mut LogEngine<P>,
    group: u64,
    out: &mut W,
) -> Result<u64, CommandFault> {
    let span = span_of(engine, group)?;
    let entries = entries_of(engine, group, span)?;
    let keys = keys_of(engine, group)?;
    write_group(group, span, entries, keys, out)?;
    Ok(entries.bytes.saturating_add(keys.bytes))
}

/// The first and the last index of a group, if it has entries.
fn span_of<P: PipeLog>(engine: &LogEngine<P>, group: u64) -> Result<Option<(u64, u64)>, Error> {
    match (engine.first_index(group)?, engine.last_index(group)?) {
        (Some(first), Some(last)) => Ok(Some((first, last))),
        _ => Ok(None),
    }
}

fn write_group<W: Write>(
    group: u64,
    span: Option<(u64, u64)>,
    entries: Amount,
    keys: Amount,
    out: &mut W,
) -> io::Result<()> {
    match span {
        Some((first, last)) => {
            let Amount { count, bytes } = entries;
            write!(
                out,
                "group {group}: entries {first} to {last}: {count} entries, {bytes} bytes"
            )?;
        }
        None => write!(out, "group {group}: no entries")?,
    }
    let Amount { count, bytes } = keys;
    writeln!(out, "; {count} keys, {bytes} bytes")
}

/// Counts the entries of a group from its first index to its last, except those whose bytes are damaged.
fn entries_of<P: PipeLog>(
    engine: &mut LogEngine<P>,
    group: u64,
    span: Option<(u64, u64)>,
) -> Result<Amount, Error> {
    let mut entries = Amount::none();
    let Some((first, last)) = span else {
        return Ok(entries);
    };
    for index in first..last.saturating_add(1) {
        match engine.get_entry::<RawEntries>(group, index) {
            Ok(Some(entry)) => entries.add(entry.bytes.len()),
            Ok(None) => {}
            Err(error) => {
                if !is_damage(&error) {
                    return Err(error);
                }
            }
        }
    }
    Ok(entries)
}

/// Whether a call failed because the bytes of an entry are damaged.
fn is_damage(error: &Error) -> bool {
    matches!(error, Error::Corruption(_))
}

/// Counts the keys of a group, with their values.
fn keys_of<P: PipeLog>(engine: &LogEngine<P>, group: u64) -> Result<Amount, Error> {
    let mut keys = Amount::none();
    for (key, value) in engine.pairs_within(group, None, None)? {
        keys.add(key.len().saturating_add(value.len()));
    }
    Ok(keys)
}
