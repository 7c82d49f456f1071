//! Which damage of a log file is tolerated.

ghost use Rattle.std.specs.Prelude.{◌≡◌, false, Some, IfOk, IfErr, IsTrue};
ghost use Rattle.raft_log_record_base.specs.declared.errors.Error.{Error};
ghost use Rattle.raft_log_file_reader.specs.Reader.{honest_of};
ghost use Rattle.raft_log_recovery_read.specs.Handed.{WasHanded};
ghost use Rattle.raft_log_recovery_read.specs.Naming.{NamesDamage};
ghost use Rattle.raft_log_recovery_read.specs.Reading.{FileReading};
ghost use Rattle.raft_log_recovery_read.specs.Tolerance.{FailsToReadFound, IsTolerated, ReadsFound, tolerates};

use crate::found_file::{FoundFile, ListedFile};
use crate::naming::named_damage;
use crate::reading::read_file;
use raft_log_file_reader::LogItemBatchFileReader;
use raft_log_file_settings::RecoveryMode;
use raft_log_fs::FileSystem;
use raft_log_record_base::Result;
use raft_log_replay::ReplayMachine;
use std::alloc::Global;

/// Whether a recovery continues after a damaged file, which is the last one of its queue or not.
pub fn tolerates(mode: RecoveryMode, is_last: bool) -> bool
    ensures { result ≡ tolerates mode is_last }
{
    match mode {
        RecoveryMode::AbsoluteConsistency => false,
        RecoveryMode::TolerateTailCorruption => is_last,
        RecoveryMode::TolerateAnyCorruption => true,
    }
}

/// Reads a log file as `read_file` does, and hands a machine its records up to its end, or to the first damaged one.
///
/// - `Io`: a read failed, which is never reported as damage.
/// - `Corruption`: a foreign record follows the last good one; no mode tolerates that.
/// - `Corruption`: the file is damaged, and `mode` doesn't tolerate it (`tolerates`). The error names the queue, the
///   file's number, the offset of the damage, and what is wrong.
/// - `Memory`: memory ran out.
///
/// If it fails, the machine may have been handed records. An error of the machine is returned in `declined`.
pub fn read_found<F: FileSystem, M: ReplayMachine>(
    alloc: Global,
    file_system: &F,
    reader: &mut LogItemBatchFileReader,
    mode: RecoveryMode,
    file: ListedFile,
    machine: &mut M,
) -> Result<FoundFile>
    ensures ok { IfOk result (λ found. IsTrue (honest_of reader.new) → (reading : FileReading)
        × ReadsFound mode file.is_last file.id file.handle (F.disk file_system.now) reading
        × WasHanded (M.reads file.id.queue) (M.declines file.id.queue) file.id machine.old machine.new reading
        found) }
    ensures err { IfErr result (λ error. IsTrue (honest_of reader.new)
        → FailsToReadFound mode file.is_last file.id file.handle (F.disk file_system.now) error) }
    ensures receipts { F.tells_truth → IsTrue (honest_of reader.new) }
{
    let found = read_file(alloc, file_system, reader, file, machine)?;
    accept(alloc, mode, file, found)
}

/// Returns what was found of a file, if it isn't damaged or that is tolerated; else fails with the file's name and its
/// damage, or with `Memory`.
fn accept(
    alloc: Global,
    mode: RecoveryMode,
    file: ListedFile,
    found: FoundFile,
) -> Result<FoundFile>
    ensures ok { IfOk result (λ same. (same ≡ found) × IsTolerated mode file.is_last found.fault) }
    ensures err { IfErr result (λ error. (fault : Error) × (found.fault ≡ Some fault)
        × NamesDamage file.id found.end fault error × (tolerates mode file.is_last ≡ false)) }
{
    if tolerates(mode, file.is_last) {
        return Ok(found);
    }
    let FoundFile {
        format,
        end,
        fault,
        declined,
    } = found;
    match fault {
        Some(fault) => Err(named_damage(alloc, file.id, end, fault)),
        None => Ok(FoundFile {
            format,
            end,
            fault: None,
            declined,
        }),
    }
}
