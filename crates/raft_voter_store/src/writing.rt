//! Writes changes.
ghost use Rattle.std.specs.Prelude.{◌≡◌, false, IfErr, OnErr, OnOk};
ghost use Rattle.raft_log_engine.specs.raft_log_engine_core.specs.Reads.{shows_of};
ghost use Rattle.raft_log_engine.specs.raft_log_engine_laws.specs.EngineState.{has_failed};
ghost use Rattle.raft_voter_outline.specs.Decisions.{OutlineBecomes};
ghost use Rattle.raft_voter_outline.specs.Outlines.{ChangesEach};
ghost use Rattle.raft_voter_durability_laws.specs.Laws.{IsBare};
ghost use Rattle.raft_voter_store.specs.Writing.{FailsToWriteChange, WritesChange};

use crate::saying::encode_change;
use log::Log;
use raft_log_engine::{Error, LogBatch, LogEngine, PipeLog, Result};
use raft_voter_outline::{Change, Outline, Request};
use std::alloc::Global;

/// Writes what was decided for a request of a group in this batch, and its outline makes the change. If it fails, the
/// outline is unchanged: out of memory, or the engine failed to write the batch.
pub fn write_change<P: PipeLog, R: Log>(
    rt: &R,
    alloc: Global,
    engine: &mut LogEngine<P>,
    batch: &mut LogBatch,
    outline: &mut Outline,
    group: u64,
    change: &Change,
    request: &Request,
) -> Result<()>
    requires bare { IsBare outline.old.voter }
    requires decided { ChangesEach outline.old.voter request.now change.now }
    ensures ok { OnOk result (WritesChange (group, request.now) change.now
        (shows_of P.shown engine.old) (shows_of P.shown engine.new)) }
    ensures becomes { OnOk result (OutlineBecomes outline.old.voter request.now outline.new.voter) }
    ensures err { IfErr result (λ error. FailsToWriteChange (group, request.now) change.now error
        (shows_of P.shown engine.old) (shows_of P.shown engine.new)) }
    ensures same { OnErr result (outline.new.voter ≡ outline.old.voter) }
{
    match encode_change(batch, alloc, outline, group, change, request) {
        Ok(()) => {}
        Err(error) => return Err(error),
    }
    let Ok(()) = outline.reserve(change, request) else {
        return Err(Error::Memory);
    };
    match engine.write(rt, batch, false) {
        Ok(_) => {
            outline.apply(change, request);
            Ok(())
        }
        Err(error) => Err(error),
    }
}
