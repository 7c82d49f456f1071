//! The settings of a log, their checks, and the values derived from them.
ghost use Rattle.std.specs.Prelude.{◌≡◌, ◌↔◌, IsTrue, IfNone, IfSome, IfOk, IfErr, OnOk, OnErr, List, length};
ghost use Rattle.std.specs.String.{string_bytes};
ghost use Rattle.raft_log_file_settings.specs.Sanitized.{IsFileName, IsFileIn, Clash, files_within};

use super::fault::ConfigFault;
use super::printing::to_table;
use super::reading::{dropped_in, from_table, no_toml};
use super::recovery_mode::RecoveryMode;
use log::{Log, info, warn};
use raft_log_file_format::{FileNameExt, parse_reserved_file_name};
use raft_log_record_base::{Error, FileId, ReadableSize, Result, Version};
use std::alloc::{AllocError, Global};

/// The least block that a recovery reads at a time.
const MIN_RECOVERY_READ_BLOCK_SIZE: u64 = 512;

/// The most files that an open prefills.
const MAX_PREFILLED_FILES: usize = 65_536;

/// The settings of a log. `default` returns the usual ones; `sanitize` rejects faulty ones and completes the rest.
#[derive(Clone, Debug, Drop, PartialEq, Eq)]
pub struct Config {
    /// The main directory of log files; an open makes it if it doesn't exist.
    pub dir: String,
    /// How many bytes the files of `dir` may have in all, new ones included, before new files go to `spill_dir`. No
    /// limit if it is absent.
    pub dir_limit: Option<ReadableSize>,
    /// A second directory, for new files if the main one has no space.
    pub spill_dir: Option<String>,
    /// The same for `spill_dir`. If both directories reach their limit, new files go to `dir`.
    pub spill_dir_limit: Option<ReadableSize>,
    /// How an open handles damaged files.
    pub recovery_mode: RecoveryMode,
    /// How many bytes of a file an open reads at a time; `sanitize` makes it at least 512.
    pub recovery_read_block_size: ReadableSize,
    /// How many workers read files at an open; `sanitize` makes it at least one.
    pub recovery_threads: usize,
    /// Without effect.
    pub bytes_per_sync: Option<ReadableSize>,
    /// The format of new files.
    pub format_version: Version,
    /// The size in bytes at which a file is full.
    pub target_file_size: ReadableSize,
    /// The size of Append above which a purge takes files from it.
    pub purge_threshold: ReadableSize,
    /// The size of Rewrite above which a purge may rewrite it. By default a tenth of `purge_threshold`, but at least
    /// `target_file_size`.
    pub purge_rewrite_threshold: Option<ReadableSize>,
    /// The share of garbage, in thousandths, above which a purge rewrites Rewrite.
    pub purge_rewrite_garbage_ratio: u64,
    /// Without effect.
    pub memory_limit: Option<ReadableSize>,
    /// Whether files that are purged from Append are kept for recycling.
    pub enable_log_recycle: bool,
    /// Whether an open prefills files with zeros for later use.
    pub prefill_for_recycle: bool,
    /// Limits how many such files there are: one and a half times as many as fit into this many bytes. By default
    /// `purge_threshold`.
    pub prefill_limit: Option<ReadableSize>,
}

impl Config {
    ghost use Rattle.raft_log_file_settings.specs.Settings.{settings_of, default_settings};
    ghost use Rattle.raft_log_file_settings.specs.Reading.{GivesSettingsOf, SaysSettings, GivesDroppedKeys};
    ghost use Rattle.raft_log_file_settings.specs.Printing.{rows_of, SaysRows, IsUnprintable};
    ghost use Rattle.raft_log_file_settings.specs.Sanitized.{IsFirstFault, HasNoFault, sanitized, IsRefusedFor, recycle_capacity, prefill_capacity};

    /// The usual settings: an empty `dir`, files of 128 MiB, a purge from 10 GiB on, four workers.
    pub fn default(alloc: Global) -> Config
        ensures { settings_of result ≡ default_settings }
    {
        Config {
            dir: String::new(alloc),
            dir_limit: None,
            spill_dir: None,
            spill_dir_limit: None,
            recovery_mode: RecoveryMode::TolerateTailCorruption,
            recovery_read_block_size: ReadableSize::kb(16),
            recovery_threads: 4,
            bytes_per_sync: None,
            format_version: Version::V2,
            target_file_size: ReadableSize::mb(128),
            purge_threshold: ReadableSize::gb(10),
            purge_rewrite_threshold: None,
            purge_rewrite_garbage_ratio: 600,
            memory_limit: None,
            enable_log_recycle: true,
            prefill_for_recycle: false,
            prefill_limit: None,
        }
    }

    /// The settings in a TOML text; an absent key has its usual value, and unknown keys are ignored (`dropped_keys`). A
    /// size is a number of bytes or a text as `ReadableSize` reads it. The garbage ratio is a number of thousandths, or
    /// a fraction from 0.0 to 1.0 of at most three decimals.
    ///
    /// Fails with `InvalidArgument` if the text isn't TOML. If values are wrong, the `InvalidArgument` names the first
    /// such key, in the order of the fields. Also fails with `Memory`.
    pub fn from_toml(alloc: Global, text: &str) -> Result<Config>
        ensures { GivesSettingsOf result text.now }
    {
        match toml::table_from_str(alloc, text) {
            Ok(table) => from_table(alloc, &table),
            Err(error) if error.is_memory() => Err(Error::Memory),
            Err(_) => Err(no_toml(alloc)),
        }
    }

    /// The keys of a TOML text that `from_toml` ignores, in the order of their bytes: those of raft-engine that this
    /// log doesn't have, and others, such as misspelled ones. Fails with `InvalidArgument` if the text isn't TOML, or
    /// with `Memory`.
    pub fn dropped_keys(alloc: Global, text: &str) -> Result<Vec<String>>
        ensures { GivesDroppedKeys result text.now }
    {
        match toml::table_from_str(alloc, text) {
            Ok(table) => Ok(dropped_in(alloc, &table)?),
            Err(error) if error.is_memory() => Err(Error::Memory),
            Err(_) => Err(no_toml(alloc)),
        }
    }

    /// The settings as TOML, which `from_toml` reads as the same settings: each key that has a value. A size of 2^63 or
    /// more, for which TOML has no number, is a text. Any other such number fails with `InvalidArgument`, which names
    /// its key. Also fails with `Memory`.
    pub fn to_toml(&self, alloc: Global) -> Result<String>
        ensures ok { IfOk result (λ text. SaysSettings (string_bytes text) (settings_of self.now)) }
        ensures rows { IfOk result (λ text. SaysRows (string_bytes text) (rows_of (settings_of self.now))) }
        ensures err { IfErr result (λ error. IsUnprintable (rows_of (settings_of self.now)) error) }
    {
        let table = to_table(alloc, self)?;
        match toml::table_to_string(alloc, &table) {
            Ok(text) => Ok(text),
            Err(_) => Err(Error::Memory),
        }
    }

    /// Completes sound settings, and warns of settings without effect. Fails with `Other` for the first fault, in the
    /// order of `ConfigFault`, or with `Memory` if there is no memory for that error. Then the settings are unchanged.
    pub fn sanitize<L: Log>(&mut self, rt: &L, alloc: Global) -> Result<()>
        ensures ok { OnOk result (HasNoFault (settings_of self.old)) }
        ensures whole { OnOk result (settings_of self.new ≡ sanitized (settings_of self.old)) }
        ensures err { OnErr result (settings_of self.new ≡ settings_of self.old) }
        ensures errors { IfErr result (λ error. IsRefusedFor (settings_of self.old) error) }
    {
        if let Some(fault) = self.fault() {
            return Err(Error::other(alloc, anyhow::Error::msg(fault)));
        }
        self.warn_of_ignored(rt);
        self.make_whole();
        Ok(())
    }

    /// How many files Append may have if a purge keeps one for recycling: its live files and the kept ones together. 0
    /// if files can't be recycled, or if `purge_threshold` is below `target_file_size`.
    pub fn recycle_capacity(&self) -> usize
        ensures { result ≡ recycle_capacity (settings_of self.now) }
    {
        if self.can_recycle() && self.purge_threshold.0 >= self.target_file_size.0 {
            files_within(self.purge_threshold.0, self.target_file_size.0)
        } else {
            0
        }
    }

    /// How many files an open prefills with zeros, at most. 0 if it may not prefill, or if `prefill_limit` is absent or
    /// below `target_file_size`.
    pub fn prefill_capacity(&self) -> usize
        ensures { result ≡ prefill_capacity (settings_of self.now) }
    {
        let limit = self.prefill_limit.unwrap_or(ReadableSize(0));
        if self.can_recycle() && self.prefill_for_recycle && limit.0 >= self.target_file_size.0 {
            files_within(limit.0, self.target_file_size.0)
        } else {
            0
        }
    }
}

impl Config {
    ghost use Rattle.raft_log_file_settings.specs.Settings.{settings_of};
    ghost use Rattle.raft_log_file_settings.specs.Sanitized.{HasFault, IsFirstFault, HasNoFault, sanitized, can_recycle, prefill_capacity};
    ghost use Rattle.raft_log_file_settings.specs.declared.fault.ConfigFault.TheVariants.{DirectoriesClash};

    /// The first fault.
    fn fault(&self) -> Option<ConfigFault>
        ensures some { IfSome result (IsFirstFault (settings_of self.now)) }
        ensures none { IfNone result (HasNoFault (settings_of self.now)) }
    {
        if self.has(ConfigFault::PurgeBelowTarget) {
            return Some(ConfigFault::PurgeBelowTarget);
        }
        if self.has(ConfigFault::NoTargetSize) {
            return Some(ConfigFault::NoTargetSize);
        }
        if self.has(ConfigFault::DirectoriesClash) {
            return Some(ConfigFault::DirectoriesClash);
        }
        if self.has(ConfigFault::RecycleUnsigned) {
            return Some(ConfigFault::RecycleUnsigned);
        }
        if self.has(ConfigFault::PrefillWithoutRecycle) {
            return Some(ConfigFault::PrefillWithoutRecycle);
        }
        if self.has(ConfigFault::TooManyPrefilled) {
            return Some(ConfigFault::TooManyPrefilled);
        }
        None
    }

    /// Whether the settings have this fault.
    fn has(&self, fault: ConfigFault) -> bool
        ensures { IsTrue result ↔ HasFault (settings_of self.now) fault }
    {
        match fault {
            ConfigFault::PurgeBelowTarget => self.purge_threshold.0 < self.target_file_size.0,
            ConfigFault::NoTargetSize => self.target_file_size.0 == 0,
            ConfigFault::DirectoriesClash => self.directories_clash(),
            ConfigFault::RecycleUnsigned => {
                self.enable_log_recycle && !self.format_version.has_log_signing()
            }
            ConfigFault::PrefillWithoutRecycle => {
                self.prefill_for_recycle && !self.enable_log_recycle
            }
            ConfigFault::TooManyPrefilled => self.files_to_prefill() > MAX_PREFILLED_FILES,
        }
    }

    /// Whether the spill directory clashes with the main one.
    fn directories_clash(&self) -> bool
        ensures { IsTrue result ↔ HasFault (settings_of self.now) DirectoriesClash }
    {
        match &self.spill_dir {
            Some(spill) => clash(self.dir.as_str(), spill.as_str()),
            None => false,
        }
    }

    /// How many files an open prefills with zeros, at most, once the settings are complete.
    fn files_to_prefill(&self) -> usize
        ensures { result ≡ prefill_capacity (sanitized (settings_of self.now)) }
    {
        let limit = self.prefill_limit.unwrap_or(self.purge_threshold);
        if self.can_recycle() && self.prefill_for_recycle && limit.0 >= self.target_file_size.0 {
            files_within(limit.0, self.target_file_size.0)
        } else {
            0
        }
    }

    /// Warns of settings without effect.
    fn warn_of_ignored<L: Log>(&self, rt: &L) {
        if self.spill_dir_limit.is_some() && self.spill_dir.is_none() {
            warn!(rt; "spill-dir-limit has no effect without spill-dir");
        }
        if self.bytes_per_sync.is_some() {
            warn!(rt; "bytes-per-sync has no effect");
        }
        if self.memory_limit.is_some() {
            warn!(rt; "memory-limit has no effect");
        }
        if self.prefill_limit.is_some() && !self.prefill_for_recycle {
            warn!(rt; "prefill-limit has no effect without prefill-for-recycle");
        }
    }

    /// Sets what is unset, and raises what is too small.
    fn make_whole(&mut self)
        ensures { settings_of self.new ≡ sanitized (settings_of self.old) }
    {
        self.purge_rewrite_threshold = Some(ReadableSize(self.rewrite_threshold()));
        self.recovery_read_block_size = ReadableSize(
            self.recovery_read_block_size
                .0
                .max(MIN_RECOVERY_READ_BLOCK_SIZE),
        );
        self.recovery_threads = self.recovery_threads.max(1);
        if !self.prefill_for_recycle {
            self.prefill_limit = None;
        } else if self.prefill_limit.is_none() {
            self.prefill_limit = Some(self.purge_threshold);
        }
    }

    /// The size of Rewrite, in bytes, above which a purge may rewrite it. Without a setting, a tenth of Append's
    /// threshold, but at least the target size of a file.
    pub fn rewrite_threshold(&self) -> u64
        ensures { Some result ≡ (sanitized (settings_of self.now)).purge_rewrite_threshold }
    {
        match self.purge_rewrite_threshold {
            Some(size) => size.0,
            None => (self.purge_threshold.0 / 10).max(self.target_file_size.0),
        }
    }

    /// Whether purged files may be recycled.
    fn can_recycle(&self) -> bool
        ensures { result ≡ can_recycle (settings_of self.now) }
    {
        self.enable_log_recycle && self.format_version.has_log_signing()
    }
}

/// One and a half times as many files as fit into so many bytes, at most 2^32 - 1.
fn files_within(limit: u64, target: u64) -> usize
    ensures { result ≡ files_within limit target }
{
    let files = limit.checked_div(target).unwrap_or(0) as u128;
    (files * 3 / 2).min(u32::MAX as u128) as usize
}

/// Whether two directories are the same, or one has the path of a log file in the other.
fn clash(dir: &str, spill: &str) -> bool
    ensures { IsTrue result ↔ Clash dir.now spill.now }
{
    dir == spill || is_file_in(dir, spill) || is_file_in(spill, dir)
}

/// Whether a path is one that a file of the log in this directory may have.
fn is_file_in(directory: &str, path: &str) -> bool
    ensures { IsTrue result ↔ IsFileIn directory.now path.now }
{
    let Some(rest) = path.strip_prefix(directory) else {
        return false;
    };
    let Some(name) = rest.strip_prefix('/') else {
        return false;
    };
    is_file_name(name)
}

/// Whether a name is a log file's, or that of a file that is kept for recycling.
fn is_file_name(name: &str) -> bool
    ensures { IsTrue result ↔ IsFileName name.now }
{
    FileId::parse_file_name(name).is_some() || parse_reserved_file_name(name).is_some()
}
