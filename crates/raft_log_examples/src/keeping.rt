//! Keeps lines of standard input in a log, and confirms each line after no crash can lose it.
use crate::appending::{GROUP, append};
use log::Log;
use raft_log_engine::{Config, Engine, FileSystem, LogEngine, PipeLog};
use raft_log_record_items::RawEntries;
use std::io::{Input, Print};
use std::thread::Threads;

/// Prints each entry of a log.
fn tell<R: Print + AllocGlobal, P: PipeLog>(
    rt: &R,
    engine: &mut LogEngine<P>,
) -> anyhow::Result<()> {
    let first = engine.first_index(GROUP)?.unwrap_or(1);
    let last = engine.last_index(GROUP)?.unwrap_or(0);
    for index in first..last.saturating_add(1) {
        if let Some(entry) = engine.get_entry::<RawEntries>(GROUP, index)? {
            print_entry(rt, index, entry.bytes.as_slice())?;
        }
    }
    Ok(())
}

/// Prints an entry.
fn print_entry<R: Print + AllocGlobal>(rt: &R, index: u64, bytes: &[u8]) -> anyhow::Result<()> {
    let text = String::from_utf8_lossy(rt.alloc(), bytes)?;
    println!(rt; "{index} is kept: {text}")?;
    Ok(())
}

/// Prints the entries of a log, and appends each line that is read.
fn keep<R: Log + Input + Print + AllocGlobal, P: PipeLog>(
    rt: &R,
    engine: &mut LogEngine<P>,
) -> anyhow::Result<()> {
    tell(rt, engine)?;
    for line in rt.lines(rt.alloc()) {
        let line = line?;
        let index = append(rt, rt.alloc(), engine, line.as_bytes())?;
        println!(rt; "{index} is kept")?;
    }
    Ok(())
}

/// Opens the log in a directory over these files, and prints the lines that are in it. Appends each line of standard
/// input, and confirms it after a sync. Closes the log at the end of the input.
pub fn keep_lines<
    R: Threads + Log + Sync + Input + Print + AllocGlobal,
    F: FileSystem + Sync + Drop,
>(rt: &R, directory: &str, files: F) -> anyhow::Result<()> {
    let dir = String::from_str(rt.alloc(), directory)?;
    let mut config = Config::default(rt.alloc());
    config.dir = dir;
    let mut engine = match Engine::open_with_file_system(rt, rt.alloc(), config, files) {
        Ok(engine) => engine,
        Err(refused) => return Err(refused.error.into()),
    };
    keep(rt, &mut engine)?;
    engine.close(rt).result?;
    Ok(())
}
