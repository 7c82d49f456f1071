//! Syncs Rewrite after each 512 KiB that a purge writes there.

ghost use Rattle.std.specs.Prelude.{◌≡◌, ◌≤◌, true, IfErr, OnErr, OnOk};
ghost use Rattle.raft_log_record_base.specs.declared.errors.Error.TheVariants as errors;
ghost use Rattle.raft_log_machine_laws.specs.Calls.Which.{InRewrite};
ghost use Rattle.raft_log_fs.specs.Causes.{IsLater};
ghost use Rattle.raft_log_dual_pipes.specs.Calls.{FailsToSyncQueue};
ghost use Rattle.raft_log_dual_pipes.specs.Pipes.{is_failed};
ghost use Rattle.raft_log_purge_copy.specs.Syncing.{max_unsynced, MaySync, StaysAlive, SyncsIfDue};

use log::Log;
use raft_log_dual_pipes::PipeLog;
use raft_log_record_base::{LogQueue, Result};

/// After so many bytes of unsynced records, Rewrite is synced before the next record is written.
const MAX_UNSYNCED_LEN: u64 = 524_288;

/// Syncs Rewrite if `unsynced` is 512 KiB or more, and sets it to 0 then. If it fails, the error is `Failed`, the pipes
/// have failed, and `unsynced` stays.
pub fn sync_if_due<P: PipeLog, L: Log>(rt: &L, pipes: &mut P, unsynced: &mut u64) -> Result<()>
    ensures ok { OnOk result (MaySync (P.shown pipes.old) (P.shown pipes.new)) }
    ensures due { OnOk result
        (SyncsIfDue unsynced.old unsynced.new (P.shown pipes.old) (P.shown pipes.new)) }
    ensures early { OnErr result ((max_unsynced ≤ unsynced.old) × (unsynced.new ≡ unsynced.old)) }
    ensures stays { OnOk result (StaysAlive (P.shown pipes.old) (P.shown pipes.new)) }
    ensures err { OnErr result (FailsToSyncQueue InRewrite (P.shown pipes.old) (P.shown pipes.new)) }
    ensures error { IfErr result (λ error. error ≡ errors.Failed) }
    ensures failed { OnErr result (is_failed (P.shown pipes.new) ≡ true) }
    ensures later { IsLater (P.shown pipes.old).disk (P.shown pipes.new).disk }
{
    if *unsynced < MAX_UNSYNCED_LEN {
        return Ok(());
    }
    pipes.sync(rt, LogQueue::Rewrite)?;
    *unsynced = 0;
    Ok(())
}
