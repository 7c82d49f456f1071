//! Whether a log may be copied into a directory.

ghost use Rattle.std.specs.Prelude.{◌≡◌, ◌↔◌, codes, map, option_map, IsTrue, OnOk, IfOk, IfErr};
ghost use Rattle.raft_log_record_base.specs.declared.errors.Error.TheVariants.{Memory};
ghost use Rattle.std.specs.String.{string_bytes};
ghost use Rattle.raft_log_file_settings.specs.Settings.{directories_of, settings_of};
ghost use Rattle.raft_log_file_settings.specs.Sanitized.{IsFileName, HasNoFault};
ghost use Rattle.raft_log_offline.specs.Forks.{AllowsFork, HoldsLogFile, IsForkRefusal, LiesInOne, LiesWithin, MayBeCopied};
ghost use Rattle.raft_log_offline.specs.Telling.{HasFileName, TellsWords};
ghost use Rattle.raft_log_recovery_scan.specs.Opened.{FailsToLook};

use log::Log;
use raft_log_file_format::{FileNameExt, parse_reserved_file_name};
use raft_log_file_settings::{Config, RecoveryMode};
use raft_log_fs::FileSystem;
use raft_log_record_base::{Error, FileId, Result};
use std::alloc::Global;
use std::io::ErrorKind;

/// Checks whether a log with these settings may be copied into `target`. Changes nothing. `paths` are the log's
/// directories. Fails with `InvalidArgument`:
/// - if files are recycled
/// - if damaged files that aren't the last may be truncated (`TolerateAnyCorruption`)
/// - if the target is one of the log's directories or inside one
/// - if the target has files with names of log files or of reserved ones
///
/// Then fails with `Other` if the settings have a fault. Also fails with `Io` if the file system has stopped, or with
/// `Memory`.
pub fn permit<F: FileSystem, L: Log>(
    rt: &L,
    alloc: Global,
    config: &Config,
    paths: &[String],
    file_system: &F,
    target: &str,
) -> Result<()>
    requires { map string_bytes paths.now ≡ directories_of (settings_of config.now) }
    ensures ok { OnOk result (AllowsFork (settings_of config.now) target.now (F.disk file_system.now)) }
    ensures err { IfErr result (IsForkRefusal (settings_of config.now) target.now (F.disk file_system.now)) }
{
    if config.enable_log_recycle {
        return Err(invalid(alloc, "enable_log_recycle should be false"));
    }
    if config.recovery_mode == RecoveryMode::TolerateAnyCorruption {
        return Err(invalid(alloc, "recovery_mode shouldn't be TolerateAnyCorruption"));
    }
    if lies_in_one(paths, target) {
        return Err(invalid(alloc, "the target is inside the log's own directory"));
    }
    if holds_log_file(file_system, target)? {
        return Err(invalid(alloc, "the target holds log files"));
    }
    let mut settings = copy_of(alloc, config)?;
    settings.sanitize(rt, alloc)?;
    Ok(())
}

/// Whether a path is that of one of these directories, or of something in one.
fn lies_in_one(directories: &[String], path: &str) -> bool
    ensures { IsTrue result ↔ LiesInOne (map string_bytes directories.now) path.now }
{
    for directory in directories {
        if lies_within(directory.as_str(), path) {
            return true;
        }
    }
    false
}

/// Whether a path is a directory's, or that of something in it.
fn lies_within(directory: &str, path: &str) -> bool
    ensures { IsTrue result ↔ LiesWithin directory.now path.now }
{
    let Some(rest) = path.strip_prefix(directory) else {
        return false;
    };
    rest.is_empty() || rest.starts_with('/')
}

/// Whether a directory has a file under the name of a log file, or of a reserved one; false if there is no such
/// directory.
fn holds_log_file<F: FileSystem>(file_system: &F, directory: &str) -> Result<bool>
    ensures ok { IfOk result (λ holds.
        IsTrue holds ↔ HoldsLogFile directory.now (F.disk file_system.now)) }
    ensures err { IfErr result (FailsToLook (F.disk file_system.now)) }
{
    let kind = match file_system.list(directory) {
        Ok(names) => return Ok(has_file_name(names.as_slice())),
        Err(kind) => kind,
    };
    if file_system.has_stopped() {
        return Err(Error::Io(kind));
    }
    if kind == ErrorKind::OutOfMemory {
        return Err(Error::Memory);
    }
    Ok(false)
}

/// Whether one of these names is a log file's, or a reserved file's.
fn has_file_name(names: &[String]) -> bool
    ensures { IsTrue result ↔ HasFileName (map string_bytes names.now) }
{
    for name in names {
        if is_file_name(name.as_str()) {
            return true;
        }
    }
    false
}

/// Whether a name is a log file's, or a reserved file's.
fn is_file_name(name: &str) -> bool
    ensures { IsTrue result ↔ IsFileName name.now }
{
    FileId::parse_file_name(name).is_some() || parse_reserved_file_name(name).is_some()
}

/// A copy of the settings. Fails only with `Memory`.
fn copy_of(alloc: Global, config: &Config) -> Result<Config>
    ensures ok { IfOk result (λ copy. settings_of copy ≡ settings_of config.now) }
    ensures err { IfErr result (λ error. error ≡ Memory) }
{
    let dir = String::from_str(alloc, config.dir.as_str())?;
    let spill_dir = copy_of_spill_dir(alloc, config)?;
    Ok(Config {
        dir,
        dir_limit: config.dir_limit,
        spill_dir,
        spill_dir_limit: config.spill_dir_limit,
        recovery_mode: config.recovery_mode,
        recovery_read_block_size: config.recovery_read_block_size,
        recovery_threads: config.recovery_threads,
        bytes_per_sync: config.bytes_per_sync,
        format_version: config.format_version,
        target_file_size: config.target_file_size,
        purge_threshold: config.purge_threshold,
        purge_rewrite_threshold: config.purge_rewrite_threshold,
        purge_rewrite_garbage_ratio: config.purge_rewrite_garbage_ratio,
        memory_limit: config.memory_limit,
        enable_log_recycle: config.enable_log_recycle,
        prefill_for_recycle: config.prefill_for_recycle,
        prefill_limit: config.prefill_limit,
    })
}

/// A copy of the path of the spill directory, if the settings have one. Fails only with `Memory`.
fn copy_of_spill_dir(alloc: Global, config: &Config) -> Result<Option<String>>
    ensures ok { IfOk result (λ spill. option_map string_bytes spill ≡ (settings_of config.now).spill_dir) }
    ensures err { IfErr result (λ error. error ≡ Memory) }
{
    match &config.spill_dir {
        Some(spill) => {
            let copy = String::from_str(alloc, spill.as_str())?;
            Ok(Some(copy))
        }
        None => Ok(None),
    }
}

/// `InvalidArgument` with these words, or `Memory` if there is no memory for them.
fn invalid(alloc: Global, words: &str) -> Error
    ensures { TellsWords words.now result }
{
    match String::from_str(alloc, words) {
        Ok(text) => Error::InvalidArgument(text),
        Err(_) => Error::Memory,
    }
}
