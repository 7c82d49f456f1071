//! The log in a directory is checked for holes.

ghost use Rattle.std.specs.Prelude.{◌≡◌, ◌↔◌, false, IfErr, IfOk, IsTrue, OnOk};
ghost use Rattle.raft_log_record_base.specs.declared.errors.Error.TheVariants.{Memory};
ghost use Rattle.raft_log_file_settings.specs.Settings.{settings_of};
ghost use Rattle.raft_log_offline.specs.Directory.{ChecksDirectory, FailsToCheckDirectory, HasPath, TellsAbsence, checked_settings};
ghost use Rattle.raft_log_recovery_scan.specs.Opened.{FailsToLook};

use crate::checker::Finding;
use crate::checking::check_log;
use log::Log;
use raft_log_file_settings::{Config, RecoveryMode};
use raft_log_fs::FileSystem;
use raft_log_record_base::{Error, Result};
use std::alloc::Global;
use std::io::ErrorKind;
use std::thread::Threads;

/// Checks the log in a directory for holes, as `check_log` does with the usual settings, under `TolerateAnyCorruption`.
/// Changes no file.
///
/// Fails with `InvalidArgument` if neither a directory nor a file has the path, and then nothing is done. Else it fails
/// as `check_log` does.
pub fn consistency_check_with_file_system<R: Threads + Log + Sync, F: FileSystem + Sync>(
    rt: &R,
    alloc: Global,
    path: &str,
    file_system: &mut F,
) -> Result<Vec<Finding>>
    ensures ok { IfOk result (λ findings. ChecksDirectory path.now findings.items
        (F.disk file_system.old) (F.disk file_system.new)) }
    ensures err { IfErr result (λ error. FailsToCheckDirectory path.now error
        (F.disk file_system.old) (F.disk file_system.new)) }
    ensures memory { IfErr result (λ error. error ≡ Memory → (F.disk file_system.old).stopped ≡ false) }
{
    match exists(file_system, path) {
        Ok(true) => {}
        Ok(false) => return Err(absent(alloc, path)),
        Err(error) => return Err(error),
    }
    let config = match settings(alloc, path) {
        Ok(config) => config,
        Err(error) => return Err(error),
    };
    match check_log(rt, alloc, config, file_system) {
        Ok(findings) => Ok(findings),
        Err(error) => Err(error),
    }
}

/// Whether a directory or a file has the path.
fn exists<F: FileSystem>(file_system: &F, path: &str) -> Result<bool>
    ensures ok { IfOk result (λ there. IsTrue there ↔ HasPath path.now (F.disk file_system.now)) }
    ensures runs { OnOk result ((F.disk file_system.now).stopped ≡ false) }
    ensures memory { IfErr result (λ error. error ≡ Memory → (F.disk file_system.now).stopped ≡ false) }
    ensures err { IfErr result (FailsToLook (F.disk file_system.now)) }
{
    let kind = match file_system.list(path) {
        Ok(_names) => return Ok(true),
        Err(kind) => kind,
    };
    if file_system.has_stopped() {
        return Err(Error::Io(kind));
    }
    if kind == ErrorKind::OutOfMemory {
        return Err(Error::Memory);
    }
    Ok(kind == ErrorKind::InvalidInput)
}

/// The error for a path that nothing has: `InvalidArgument`, or `Memory` if there is no memory for its text.
fn absent(alloc: Global, path: &str) -> Error
    ensures { TellsAbsence path.now result }
{
    match format!(in alloc; "No such directory: {path}") {
        Ok(text) => Error::InvalidArgument(text),
        Err(_) => Error::Memory,
    }
}

/// The settings for a check of the log in a directory. Fails only with `Memory`.
fn settings(alloc: Global, path: &str) -> Result<Config>
    ensures ok { IfOk result (λ config. settings_of config ≡ checked_settings path.now) }
    ensures err { IfErr result (λ error. error ≡ Memory) }
{
    let mut config = Config::default(alloc);
    config.dir = String::from_str(alloc, path)?;
    config.recovery_mode = RecoveryMode::TolerateAnyCorruption;
    Ok(config)
}
