//! Runs a task.
ghost use Rattle.std.specs.Prelude.{◌≡◌, IfErr, IfOk, OnOk};
ghost use Rattle.raft_log_operator.specs.Sound.{IsSoundFor};
ghost use Rattle.raft_log_operator.specs.Tasks.{Does, FailsToDo};

use crate::checking::check;
use crate::dumping::dump;
use crate::fault::{CommandFault, Outcome};
use crate::forking::fork_into;
use crate::statistics::stat;
use crate::unpadding::unpad_log;
use log::Log;
use raft_log_command_line::{Place, Task};
use raft_log_engine::FileSystem;
use std::alloc::Global;
use std::io::Write;
use std::thread::Threads;

/// Runs a task on a log in a file system, and writes its output to `out`. Only `Fork` and `Unpad` change the disk.
///
/// Fails with `Output` if writing to `out` fails, after `Fork` and `Unpad` have done their work. Else it fails with
/// `File` or `Log`, as `CommandFault` says. Output that was written before stays.
///
/// If `Check` returns `Sound`, the log is intact: no file is damaged, the numbers of each queue's files are
/// consecutive, and no group has a hole in one queue's records. If `Stat` returns `Sound`, all but the last is true.
pub fn run<R: Threads + Log + Sync, F: FileSystem, W: Write>(
    rt: &R,
    alloc: Global,
    files: &mut F,
    place: &Place,
    task: &Task,
    out: &mut W,
) -> Result<Outcome, CommandFault>
    ensures ok { OnOk result (Does place.now task.now (F.disk files.old) (F.disk files.new)) }
    ensures err { IfErr result (λ fault.
        FailsToDo place.now task.now fault (F.disk files.old) (F.disk files.new)) }
    ensures sound { IfOk result (λ outcome. outcome ≡ Outcome.Sound
        → IsSoundFor place.now task.now (F.disk files.old)) }
{
    match task {
        Task::Dump(group) => dump(alloc, files, place, *group, out),
        Task::Check => check(alloc, files, place, out),
        Task::Stat => stat(rt, alloc, files, place, out),
        Task::Fork(target) => fork_into(rt, alloc, files, place, target, out),
        Task::Unpad => unpad_log(alloc, files, place, out),
    }
}
