//! A node's life: appends, a conflict, a compaction, a purge, and a second open.

use crate::storage::{append, base, compact, entry, hard_state, last_index};
use crate::stored::{Base, HardState};
use log::Log;
use raft_log_engine::{Config, Engine, FileSeq, FileSystem, LogEngine, LogQueue, PipeLog};
use std::alloc::{AllocError, Global};
use std::io;
use std::io::Print;
use std::thread::Threads;

/// Prints all that a log has: hard state, base, entries, and Append's files.
fn show<R: Print + AllocGlobal, P: PipeLog>(
    rt: &R,
    engine: &mut LogEngine<P>,
    after: &str,
) -> anyhow::Result<()> {
    let state = hard_state(engine)?;
    let base = base(engine)?;
    let files = engine.file_span(LogQueue::Append)?;
    let last = last_index(engine)?;
    print_state(rt, after, state, base, files)?;
    for index in base.index.saturating_add(1)..last.saturating_add(1) {
        if let Some((term, data)) = entry(rt.alloc(), engine, index)? {
            println!(rt; "  {index} of term {term}: {data}")?;
        }
    }
    Ok(())
}

/// Prints a hard state, a base, and the first and the last of Append's files.
fn print_state<R: Print>(
    rt: &R,
    after: &str,
    state: HardState,
    base: Base,
    files: (FileSeq, FileSeq),
) -> io::Result<()> {
    let HardState { term, vote, commit } = state;
    let (first, last) = files;
    println!(rt;
        "after {after}: term {term}, vote {vote}, commit {commit}; files {first} to {last}"
    )?;
    println!(rt; "  base: {} of term {}", base.index, base.term)
}

/// A leader appends three entries. Then the leader of the next term replaces the last two of them by one.
fn conflict<R: Log + Print + AllocGlobal, P: PipeLog>(
    rt: &R,
    engine: &mut LogEngine<P>,
) -> anyhow::Result<()> {
    let state = hard_state(engine)?;
    let next = last_index(engine)?.saturating_add(1);
    let old = HardState {
        term: state.term.saturating_add(1),
        vote: 2,
        commit: next,
    };
    append(
        rt,
        rt.alloc(),
        engine,
        next,
        &["set x 1", "set y 2", "set z 3"],
        &old,
    )?;
    show(rt, engine, "three entries")?;
    let new = HardState {
        term: old.term.saturating_add(1),
        vote: 0,
        commit: next,
    };
    append(
        rt,
        rt.alloc(),
        engine,
        next.saturating_add(1),
        &["set y 4"],
        &new,
    )?;
    show(rt, engine, "a conflict")
}

/// A leader appends entries, each by itself. Each of them is committed.
fn fill<R: Log + AllocGlobal, P: PipeLog>(rt: &R, engine: &mut LogEngine<P>) -> anyhow::Result<()> {
    for _ in 0..8 {
        let next = last_index(engine)?.saturating_add(1);
        let state = HardState {
            commit: next,
            ..hard_state(engine)?
        };
        append(rt, rt.alloc(), engine, next, &["set x 5"], &state)?;
    }
    Ok(())
}

/// A snapshot covers all entries but the last two. Drops those that it covers, and purges the log.
fn snapshot<R: Log + AllocGlobal, P: PipeLog>(
    rt: &R,
    engine: &mut LogEngine<P>,
) -> anyhow::Result<()> {
    let index = last_index(engine)?.saturating_sub(2);
    if let Some((term, _)) = entry(rt.alloc(), engine, index)? {
        compact(rt, rt.alloc(), engine, &Base { index, term })?;
    }
    engine.purge_expired_files(rt)?;
    Ok(())
}

/// Which open of the log it is.
#[derive(Clone, Copy)]
enum Open {
    /// The first one.
    First,
    /// The one after the close.
    Second,
}

/// What a node does between an open of its log and the close.
fn live<R: Log + Print + AllocGlobal, P: PipeLog>(
    rt: &R,
    engine: &mut LogEngine<P>,
    which: Open,
) -> anyhow::Result<()> {
    if matches!(which, Open::Second) {
        return show(rt, engine, "a second open");
    }
    show(rt, engine, "an open")?;
    conflict(rt, engine)?;
    fill(rt, engine)?;
    show(rt, engine, "eight entries")?;
    snapshot(rt, engine)?;
    show(rt, engine, "a snapshot and a purge")
}

/// Settings for a log in a directory, with small files, so that few entries fill several.
fn settings(alloc: Global, directory: &str) -> Result<Config, AllocError> {
    let dir = String::from_str(alloc, directory)?;
    let mut config = Config::default(alloc);
    config.dir = dir;
    config.target_file_size.0 = 256;
    config.purge_threshold.0 = 512;
    Ok(config)
}

/// Opens the log of these settings over these files, does what the node does, and closes it. Returns the files.
fn open_and_live<R: Threads + Log + Sync + Print + AllocGlobal, F: FileSystem + Sync + Drop>(
    rt: &R,
    config: Config,
    files: F,
    which: Open,
) -> anyhow::Result<F> {
    let mut engine = match Engine::open_with_file_system(rt, rt.alloc(), config, files) {
        Ok(engine) => engine,
        Err(refused) => return Err(refused.error.into()),
    };
    live(rt, &mut engine, which)?;
    let closed = engine.close(rt);
    closed.result?;
    Ok(closed.files)
}

/// Plays the life of a node on the log in a directory, over these files. The log is opened twice.
pub fn live_twice<R: Threads + Log + Sync + Print + AllocGlobal, F: FileSystem + Sync + Drop>(
    rt: &R,
    directory: &str,
    files: F,
) -> anyhow::Result<()> {
    let first = settings(rt.alloc(), directory)?;
    let second = settings(rt.alloc(), directory)?;
    let left = open_and_live(rt, first, files, Open::First)?;
    open_and_live(rt, second, left, Open::Second)?;
    Ok(())
}
