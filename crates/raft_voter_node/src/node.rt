//! An open store of voters in a node.
use crate::found::{Found, found_by};
use crate::rounds::serve_round;
use log::{Log, info};
use raft_log_engine::{Closed, Config, FileSeq, FileSystem, LogQueue, Nobody, PipeLog, Result};
use raft_voter::{Request, RoundService, Voter};
use raft_voter_store::{LogVoterStore, VoterStore};
use raft_voter_world::Event;
use std::alloc::Global;
use std::io;
use std::thread::Threads;
use std::time::{Clock, Instant};

/// An open store of voters, and how many rounds it was given.
#[derive(Drop)]
pub struct Node<F> {
    alloc: Global,
    store: VoterStore<F>,
    rounds: usize,
}

impl<F: FileSystem + Sync + Drop> Node<F> {
    /// Opens the store whose log these settings name. Returns it with a line for each stored voter: its group and its
    /// status, sorted by group. Logs a line:
    /// - how many files, bytes and groups were found
    /// - how many milliseconds passed until the store was open; the voters are read after that
    /// - which files the log has now
    ///
    /// Fails if the open or a read of the voters fails, or if memory runs out; then it drops the files.
    pub fn open<R: Threads + Log + Sync + Clock>(
        rt: &R,
        alloc: Global,
        config: Config,
        files: F,
    ) -> anyhow::Result<(Node<F>, String)> {
        let start = Instant::now(rt);
        let found = found_by(&files, alloc, &config);
        let mut store = match VoterStore::open(rt, alloc, config, files, Nobody) {
            Ok(store) => store,
            Err(refused) => return Err(refused.cause.into()),
        };
        let millis = millis_since(rt, start);
        let lines = standing(rt, alloc, &mut store, found, millis)?;
        let node = Node {
            alloc,
            store,
            rounds: 0,
        };
        Ok((node, lines))
    }

    /// Does what an event of a session requests, and returns its lines: those of a round (`serve_round`), `purged`, or
    /// why a purge failed. For any other event it does nothing, and returns `not here`. Fails only for lack of memory,
    /// perhaps after the event was done.
    pub fn answer<R: Log>(&mut self, rt: &R, event: Event) -> anyhow::Result<String> {
        match event {
            Event::Round { requests } => {
                let number = self.rounds;
                self.rounds = number.saturating_add(1);
                Ok(serve_round(rt, self.alloc, &mut self.store, number, requests)?)
            }
            event => match purge(rt, &mut self.store, &event) {
                Some(purged) => purge_line(self.alloc, purged),
                None => Ok(String::from_str(self.alloc, "not here\n")?),
            },
        }
    }

    /// Whether the log has failed.
    pub fn has_failed(&self) -> bool {
        self.store.is_failed()
    }

    /// Closes the store, as `VoterStore::close` does.
    pub fn close<R: Log>(self, rt: &R) -> Closed<F> {
        self.store.close(rt)
    }
}

/// Reads the voters, logs what an open found, and returns a line for each stored voter. `millis` is how long the open
/// took.
fn standing<R: Log, P: PipeLog>(
    rt: &R,
    alloc: Global,
    store: &mut LogVoterStore<P>,
    found: Found,
    millis: u128,
) -> anyhow::Result<String> {
    let append = store.file_span(LogQueue::Append)?;
    let rewrite = store.file_span(LogQueue::Rewrite)?;
    let voters = store.voters()?;
    log_opening(rt, found, voters.len(), millis, append, rewrite);
    voter_lines(alloc, voters)
}

/// Logs what an open found, how long it took until the store was open, and which files the log has now.
fn log_opening<R: Log>(
    rt: &R,
    found: Found,
    groups: usize,
    millis: u128,
    append: (FileSeq, FileSeq),
    rewrite: (FileSeq, FileSeq),
) {
    info!(
        rt;
        "found {} files of {} bytes and {groups} groups, opened in {millis} ms: append files {} to {}, rewrite files {} to {}",
        found.files, found.bytes, append.0, append.1, rewrite.0, rewrite.1
    );
}

/// Does the purge that an event requests. Returns its result, or `None` if the event requests none.
fn purge<R: Log, P: PipeLog>(
    rt: &R,
    store: &mut LogVoterStore<P>,
    event: &Event,
) -> Option<Result<()>> {
    match event {
        Event::Maintain => match store.maintain(rt) {
            Ok(_groups) => Some(Ok(())),
            Err(error) => Some(Err(error)),
        },
        Event::RewriteAppend => Some(store.must_rewrite_append_queue(rt, None, None)),
        Event::RewriteRewrite => Some(store.must_rewrite_rewrite_queue(rt)),
        _ => None,
    }
}

/// The line for a purge.
fn purge_line(alloc: Global, purged: Result<()>) -> anyhow::Result<String> {
    match purged {
        Ok(()) => Ok(String::from_str(alloc, "purged\n")?),
        Err(error) => Ok(format!(in alloc; "purge failed: {error}\n")?),
    }
}

/// A line for each voter: its group and its status.
fn voter_lines(alloc: Global, voters: Vec<(u64, Voter)>) -> anyhow::Result<String> {
    let mut lines = String::new(alloc);
    let mut voters = voters;
    for (group, voter) in voters.iter_mut() {
        let status = voter.step(&Request::Status)?;
        write!(lines, "voter {group} {status}\n")?;
    }
    Ok(lines)
}

/// How many milliseconds have passed since `start`; 0 if the clock fails.
fn millis_since<R: Clock>(rt: &R, start: io::Result<Instant>) -> u128 {
    match start.and_then(|start| start.elapsed(rt)) {
        Ok(passed) => passed.as_millis(),
        Err(_) => 0,
    }
}
