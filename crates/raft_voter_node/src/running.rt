//! Runs a node.
use crate::asking::{Asked, read_asked};
use crate::node::Node;
use anyhow::bail;
use log::Log;
use raft_log_engine::{Config, FileSystem, Result};
use std::alloc::Global;
use std::io::{BufRead, Write};
use std::thread::Threads;
use std::time::Clock;

/// Runs a node over these files. It writes the stored voters, and then `ready`. It does what each line or round
/// requests, and then writes its lines, or `unreadable` if it isn't an event. The lines of a round are written after
/// its sync. At the end of the input it closes the store, and returns the files.
///
/// Fails if the open, the log, the input or the output fails, or if memory runs out; then it doesn't close the store.
/// Also fails if the close does. It writes the lines of the event in which the log fails.
pub fn run<R: Threads + Log + Sync + Clock, F: FileSystem + Sync + Drop, I: BufRead, W: Write>(
    rt: &R,
    alloc: Global,
    config: Config,
    files: F,
    input: &mut I,
    output: &mut W,
) -> anyhow::Result<F> {
    let (mut node, standing) = Node::open(rt, alloc, config, files)?;
    serve(rt, alloc, &mut node, standing.as_str(), input, output)?;
    let closed = node.close(rt);
    check_closed(&closed.result)?;
    Ok(closed.files)
}

/// Serves requests until the input ends, after it has written the stored voters.
fn serve<R: Log, F: FileSystem + Sync + Drop, I: BufRead, W: Write>(
    rt: &R,
    alloc: Global,
    node: &mut Node<F>,
    standing: &str,
    input: &mut I,
    output: &mut W,
) -> anyhow::Result<()> {
    tell(output, standing)?;
    tell(output, "ready\n")?;
    for _ in 0..u64::MAX {
        match read_asked(alloc, input)? {
            Asked::Event(event) => {
                let lines = node.answer(rt, event)?;
                tell(output, lines.as_str())?;
            }
            Asked::Unreadable => tell(output, "unreadable\n")?,
            Asked::End => return Ok(()),
        }
        if node.has_failed() {
            bail!("the log failed");
        }
    }
    Ok(())
}

/// Fails if a log wasn't closed cleanly.
fn check_closed(closed: &Result<()>) -> anyhow::Result<()> {
    match closed {
        Ok(()) => Ok(()),
        Err(error) => bail!("the log was not closed cleanly: {error}"),
    }
}

/// Writes lines, and flushes them.
fn tell<W: Write>(output: &mut W, lines: &str) -> anyhow::Result<()> {
    output.write_all(lines.as_bytes())?;
    output.flush()?;
    Ok(())
}
