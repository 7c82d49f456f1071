//! The files of a queue are inspected.

ghost use Rattle.std.specs.Prelude.{◌<◌, All, IfOk, IsTrue, length, map};
ghost use Rattle.std.specs.String.{string_bytes};
ghost use Rattle.raft_log_fs.specs.Receipts.{Collects};
ghost use Rattle.raft_log_inspection.specs.Intact.{InspectsQueue};
ghost use Rattle.raft_log_inspection.specs.Steps.{HandsFiles};

use crate::damage::Damage;
use crate::fault::InspectFault;
use crate::gap::{Gap, gaps_of};
use crate::listing::find_queue;
use crate::newest::newest_of;
use crate::one_file::read_one;
use raft_log_file_reader::LogItemBatchFileReader;
use raft_log_fs::{FileSystem, Receipt};
use raft_log_record_base::{FileSeq, LogQueue};
use raft_log_recovery_scan::scanning::found::FoundFile;
use raft_log_replay::ReplayMachine;
use std::alloc::Global;

/// How many bytes of a file are read at a time.
const BLOCK: usize = 1 << 16;

/// What is wrong with the files of a queue.
#[derive(Debug, Drop)]
pub struct QueueInspection {
    /// The gaps in their numbers, from the lowest up.
    pub gaps: Vec<Gap>,
    /// The damaged ones, in the order of their numbers.
    pub damages: Vec<Damage>,
}

/// Reads all log files of a queue in these directories, in the order of their numbers. Hands a machine their records,
/// and returns what is wrong with them. Changes nothing.
///
/// A file is damaged if it doesn't begin with a header, or if what follows its last whole record isn't one.
/// - Each file in which an open would find damage is damaged, except for zeros as below.
/// - A file with a broken entry block is damaged. An open checks these only in a queue's last file and at the end of
///   the others.
/// - Only zeros at the end of a queue's last file are no damage, since a log grows its files ahead of its records. An
///   empty last file isn't damaged either.
/// - A header with an alignment and no record after it counts as torn.
///
/// The machine is handed the records before the damage. The contract says only what no gap and no damage in the result
/// mean, and only if all reads were honest. It adds its reads to `receipts`.
///
/// Fails with `Path`:
/// - if a directory isn't listed, or a file isn't opened or read
/// - if a foreign record follows a file's last good one: an open fails on it too
/// - if the machine declines a record
/// - with `Memory`, if memory runs out while a file is read
///
/// Fails with `Log`:
/// - if a file's name begins with a number and isn't that number's
/// - if memory runs out elsewhere
pub fn inspect_queue<F: FileSystem, M: ReplayMachine>(
    alloc: Global,
    files: &F,
    queue: LogQueue,
    paths: &[String],
    machine: &mut M,
    receipts: &mut Receipt,
) -> Result<QueueInspection, InspectFault>
    ensures ok { IfOk result (λ inspection. IsTrue receipts.new.honest
        → InspectsQueue (M.reads queue) queue (map string_bytes paths.now)
        (F.disk files.now) machine.old machine.new inspection) }
    ensures receipts { Collects F.tells_truth receipts.old.honest receipts.new.honest }
{
    let found = find_queue(alloc, files, queue, paths)?;
    let gaps = gaps_of(alloc, found.as_slice())?;
    let newest = newest_of(found.as_slice());
    let damages = read_files(
        alloc,
        files,
        queue,
        paths,
        found.as_slice(),
        newest,
        machine,
        receipts,
    )?;
    Ok(QueueInspection { gaps, damages })
}

/// Reads these files, hands a machine their records, and returns the damaged ones. Adds its reads to `receipts`.
fn read_files<F: FileSystem, M: ReplayMachine>(
    alloc: Global,
    files: &F,
    queue: LogQueue,
    paths: &[String],
    found: &[FoundFile],
    newest: FileSeq,
    machine: &mut M,
    receipts: &mut Receipt,
) -> Result<Vec<Damage>, InspectFault>
    requires { All (λ file. file.path_id < length paths.now) found.now }
    ensures ok { IfOk result (λ damages. IsTrue receipts.new.honest
        → HandsFiles (M.reads queue) queue (map string_bytes paths.now)
        (F.disk files.now) newest found.now machine.old machine.new damages.items) }
    ensures receipts { Collects F.tells_truth receipts.old.honest receipts.new.honest }
{
    let mut reader = LogItemBatchFileReader::new(alloc, BLOCK);
    let mut damages = Vec::new(alloc);
    for file in found {
        let damage = read_one(
            alloc,
            files,
            &mut reader,
            queue,
            paths,
            *file,
            newest,
            machine,
            receipts,
        )?;
        if let Some(damage) = damage {
            damages.push(damage)?;
        }
    }
    Ok(damages)
}
