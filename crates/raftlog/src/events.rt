//! Events with the engine's batches.
ghost use Rattle.std.specs.Prelude.{◌≡◌, IfOk};
ghost use Rattle.raft_log_world.specs.Reads.{bytes_of};
ghost use Rattle.raftlog.specs.Same.{SameCall, SameEvent, SameEvents};

use crate::batches::log_batch;
use raft_lists::Bytes;
use raft_log_engine::{LogBatch, Piece, Remainder, Result};
use raft_log_judge::Batch;
use raft_log_session::SessionEvent;
use raft_log_world::{Call, Event, Fault, Purge};
use std::alloc::{AllocError, Global};
use std::collections::VecDeque;

/// What happens to a log of the engine.
pub type EngineEvent = Event<LogBatch, Remainder>;

/// Returns the same events with the engine's batches. Fails as `log_batch` does.
pub fn engine_events(alloc: Global, events: &[SessionEvent]) -> Result<VecDeque<EngineEvent>>
    ensures { IfOk result (λ played. SameEvents events.now played.items) }
{
    let mut copies = VecDeque::new(alloc);
    for event in events {
        copies.push_back(engine_event(alloc, event)?)?;
    }
    Ok(copies)
}

/// Returns the same event with the engine's batch.
fn engine_event(alloc: Global, event: &SessionEvent) -> Result<EngineEvent>
    ensures { IfOk result (SameEvent event.now) }
{
    match event {
        Event::Open { workers } => Ok(Event::Open { workers: *workers }),
        Event::Serve(call) => Ok(Event::Serve(engine_call(alloc, call)?)),
        Event::Close => Ok(Event::Close),
        Event::Fork { target } => Ok(Event::Fork {
            target: target.clone()?,
        }),
        Event::Arm { fault } => Ok(Event::Arm {
            fault: copied_fault(fault),
        }),
        Event::Crash { left } => Ok(Event::Crash {
            left: copied_remainder(alloc, left)?,
        }),
    }
}

/// Returns the same call with the engine's batch.
fn engine_call(alloc: Global, call: &Call<Batch>) -> Result<Call<LogBatch>>
    ensures { IfOk result (SameCall call.now) }
{
    match call {
        Call::Write { batch, sync } => Ok(Call::Write {
            batch: log_batch(alloc, batch.as_slice())?,
            sync: *sync,
        }),
        Call::Sync => Ok(Call::Sync),
        Call::Get { group, key } => Ok(Call::Get {
            group: *group,
            key: copied_bytes(alloc, key)?,
        }),
        Call::GetEntry { group, index } => Ok(Call::GetEntry {
            group: *group,
            index: *index,
        }),
        Call::FirstIndex { group } => Ok(Call::FirstIndex { group: *group }),
        Call::LastIndex { group } => Ok(Call::LastIndex { group: *group }),
        Call::Fetch {
            group,
            begin,
            end,
            max,
        } => Ok(Call::Fetch {
            group: *group,
            begin: *begin,
            end: *end,
            max: *max,
        }),
        Call::Scan { group, start, end } => Ok(Call::Scan {
            group: *group,
            start: copied_bound(alloc, start)?,
            end: copied_bound(alloc, end)?,
        }),
        Call::Compact { group, index } => Ok(Call::Compact {
            group: *group,
            index: *index,
        }),
        Call::Purge(kind) => Ok(Call::Purge(copied_purge(kind))),
    }
}

/// Copies bytes.
fn copied_bytes(alloc: Global, bytes: &Vec<u8>) -> Result<Vec<u8>, AllocError>
    ensures { IfOk result (λ copy. copy.items ≡ bytes.now.items) }
{
    Ok(Bytes::from_slice(alloc, bytes.as_slice())?.into_vec())
}

/// Copies a bound of a scan.
fn copied_bound(alloc: Global, bound: &Option<Vec<u8>>) -> Result<Option<Vec<u8>>, AllocError>
    ensures { IfOk result (λ copy. bytes_of copy ≡ bytes_of bound.now) }
{
    match bound {
        Some(bytes) => Ok(Some(copied_bytes(alloc, bytes)?)),
        None => Ok(None),
    }
}

/// Copies the kind of a purge.
fn copied_purge(kind: &Purge) -> Purge
    ensures { result ≡ kind.now }
{
    match kind {
        Purge::Expired => Purge::Expired,
        Purge::Stale => Purge::Stale,
        Purge::RewriteAppend {
            watermark,
            exit_after_step,
        } => Purge::RewriteAppend {
            watermark: *watermark,
            exit_after_step: *exit_after_step,
        },
        Purge::RewriteRewrite => Purge::RewriteRewrite,
    }
}

/// Copies a fault.
fn copied_fault(fault: &Fault) -> Fault
    ensures { result ≡ fault.now }
{
    match fault {
        Fault::Refuse { call, part } => Fault::Refuse {
            call: *call,
            part: *part,
        },
        Fault::Stop { call, after } => Fault::Stop {
            call: *call,
            after: *after,
        },
    }
}

/// Copies what a crash leaves.
fn copied_remainder(alloc: Global, left: &Remainder) -> Result<Remainder, AllocError> {
    match left {
        Remainder::LastSync => Ok(Remainder::LastSync),
        Remainder::AllWritten => Ok(Remainder::AllWritten),
        Remainder::First { pieces, bytes } => Ok(Remainder::First {
            pieces: *pieces,
            bytes: *bytes,
        }),
        Remainder::Pieces(pieces) => {
            let mut copies = Vec::with_capacity(alloc, pieces.len())?;
            for piece in pieces.iter() {
                copies.push(copied_piece(alloc, piece)?)?;
            }
            Ok(Remainder::Pieces(copies))
        }
    }
}

/// Copies what a crash leaves of one change.
fn copied_piece(alloc: Global, piece: &Piece) -> Result<Piece, AllocError> {
    match piece {
        Piece::Keep => Ok(Piece::Keep),
        Piece::Lose => Ok(Piece::Lose),
        Piece::Bytes(bytes) => Ok(Piece::Bytes(copied_bytes(alloc, bytes)?)),
    }
}
