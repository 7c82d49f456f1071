//! A caller of `raft_log_recovery`: reads a log's files without opening a pipe.

ghost use Rattle.std.specs.Prelude.{IfOk};
ghost use Rattle.raft_examples.specs.Builder.{ReadsInto};

use log::Log;
use raft_log_file_settings::Config;
use raft_log_fs::FileSystem;
use raft_log_record_base::Result;
use raft_log_recovery::DualPipesBuilder;
use raft_log_replay::{Factory, ReplayMachine};
use std::alloc::Global;
use std::marker::Send;
use std::thread::Threads;

/// Reads the log of these settings into two machines, one for Append and one for Rewrite.
pub fn read_into<
    R: Threads + Log + Sync,
    F: FileSystem + Sync,
    M: ReplayMachine + Send,
    A: Factory<M>,
>(rt: &R, alloc: Global, config: Config, file_system: &mut F, factory: &A) -> Result<(M, M)>
    ensures ok { IfOk result (λ both. ReadsInto M.reads config both.0 both.1
        (F.disk file_system.old) (F.disk file_system.new)) }
{
    let mut builder = DualPipesBuilder::new(alloc, config);
    builder.scan(alloc, rt, file_system)?;
    let both = builder.recover(rt, alloc, file_system, factory)?;
    Ok(both)
}
