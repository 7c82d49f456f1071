//! Encodes changes as batches.
ghost use Rattle.std.specs.Prelude.{◌≡◌, ◌^◌, ◌<◌, IfErr, OnOk};
ghost use Rattle.raft_log_engine.specs.raft_log_record_base.specs.declared.errors.Error.TheVariants as errors;
ghost use Rattle.raft_log_record_frames.specs.Record.{record_len};
ghost use Rattle.raft_voter_outline.specs.Outlines.{ChangesEach};
ghost use Rattle.raft_voter_durability_laws.specs.Laws.{IsBare};
ghost use Rattle.raft_voter_durability_laws.specs.Requests.{SaysChange};

use raft_log_engine::{LogBatch, Result};
use raft_voter_outline::{Change, Outline, Request};
use raft_voter_records::fill_change;
use std::alloc::Global;

/// Clears the batch and encodes the change that the outline decided on for this request. Fails only for lack of memory.
pub fn encode_change(
    batch: &mut LogBatch,
    alloc: Global,
    outline: &Outline,
    group: u64,
    change: &Change,
    request: &Request,
) -> Result<()>
    requires bare { IsBare outline.now.voter }
    requires decided { ChangesEach outline.now.voter request.now change.now }
    ensures says { OnOk result (SaysChange group request.now change.now batch.new) }
    ensures short { OnOk result (record_len batch.new.items batch.new.entries < 2 ^ 56) }
    ensures errors { IfErr result (λ e. e ≡ errors.Memory) }
{
    batch.clear();
    fill_change(batch, alloc, group, outline, change, request)
}
