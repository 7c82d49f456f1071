//! Settings read from TOML.
ghost use Rattle.std.specs.Prelude.{◌≡◌, IfOk};
ghost use Rattle.std.specs.Option.{option_map};
ghost use Rattle.std.specs.String.{string_bytes};
ghost use Rattle.toml.specs.Data.{get_member, as_str, as_bool};
ghost use Rattle.toml.specs.View.{view, table_view};
ghost use Rattle.raft_log_file_settings.specs.Settings.{settings_of};
ghost use Rattle.raft_log_file_settings.specs.Reading.{at, ok_or, maybe, size_of, number_of, ratio_of, thousandths_up_to, version_of, mode_of, mode_word, GivesAt, GivesText, GivesTextIfAny, GivesKeys, GivesSettings, settings_in, settings_over, recycling_in, purging_in, recovery_in, files_in, directories_in, GivesDirectories, NamesKey, SaysWrongValue, IsNote, SaysNoToml, is_setting, dropped_keys, texts_of};

use super::config::Config;
use super::recovery_mode::RecoveryMode;
use raft_log_record_base::{Error, ReadableSize, Result, Version};
use std::alloc::{AllocError, Global};
use toml::{Table, Value};

/// The keys of settings.
const SETTINGS: [&str; 17] = [
    "dir",
    "dir-limit",
    "spill-dir",
    "spill-dir-limit",
    "recovery-mode",
    "recovery-read-block-size",
    "recovery-threads",
    "bytes-per-sync",
    "format-version",
    "target-file-size",
    "purge-threshold",
    "purge-rewrite-threshold",
    "purge-rewrite-garbage-ratio",
    "memory-limit",
    "enable-log-recycle",
    "prefill-for-recycle",
    "prefill-limit",
];

/// The number in a value.
fn number_of(value: &Value) -> Option<u64>
    ensures { result ≡ number_of (view value.now) }
{
    match value.as_integer() {
        Some(number) => u64::try_from(number).ok(),
        None => None,
    }
}

/// The size in a value.
fn size_of(value: &Value) -> Option<u64>
    ensures { result ≡ size_of (view value.now) }
{
    match value {
        Value::String(text) => match text.as_str().parse::<ReadableSize>() {
            Ok(size) => Some(size.0),
            Err(_) => None,
        },
        _ => number_of(value),
    }
}

/// The thousandths in a value: their number, or a fraction.
fn ratio_of(value: &Value) -> Option<u64>
    ensures { result ≡ ratio_of (view value.now) }
{
    match value {
        Value::Float(fraction) => thousandths_in(*fraction),
        _ => number_of(value),
    }
}

/// How many thousandths a fraction has, if it is the float nearest to that number of them, from 0 to 1,000.
fn thousandths_in(fraction: f64) -> Option<u64>
    ensures { result ≡ thousandths_up_to 1000 fraction }
{
    for count in 0..1001u32 {
        if fraction == f64::from(count) / f64::from(1000u32) {
            return Some(count as u64);
        }
    }
    None
}

/// The version in a value.
fn version_of(value: &Value) -> Option<Version>
    ensures { result ≡ version_of (view value.now) }
{
    match number_of(value) {
        Some(1) => Some(Version::V1),
        Some(2) => Some(Version::V2),
        _ => None,
    }
}

/// The recovery mode that a value names.
fn mode_of(value: &Value) -> Option<RecoveryMode>
    ensures { result ≡ mode_of (view value.now) }
{
    match value.as_str() {
        Some(word) => mode_word(word),
        None => None,
    }
}

/// The recovery mode for this word.
fn mode_word(word: &str) -> Option<RecoveryMode>
    ensures { result ≡ mode_word word.now }
{
    if word == "absolute-consistency" {
        Some(RecoveryMode::AbsoluteConsistency)
    } else if word == "tolerate-tail-corruption" || word == "tolerate-corrupted-tail-records" {
        Some(RecoveryMode::TolerateTailCorruption)
    } else if word == "tolerate-any-corruption" {
        Some(RecoveryMode::TolerateAnyCorruption)
    } else {
        None
    }
}

/// The value of a key, if there is one.
fn member<'a>(table: &'a Table, key: &str) -> Option<&'a Value>
    ensures { option_map (λ v. view v.now) result ≡ get_member key.now (table_view table.now) }
{
    table.get(key)
}

/// What was read of a key's value, or the error that names the key.
fn read_or_wrong<T: Drop>(
    alloc: Global,
    key: &'static str,
    value: &Value,
    read: Option<T>,
) -> Result<T>
    ensures { GivesAt result key.now (ok_or read key.now) }
{
    match read {
        Some(read) => Ok(read),
        None => Err(wrong_value(alloc, key, value)),
    }
}

/// The size at a key.
fn size_at(alloc: Global, table: &Table, key: &'static str, absent: ReadableSize) -> Result<u64>
    ensures { GivesAt result key.now (at key.now size_of absent.0 (table_view table.now)) }
{
    match member(table, key) {
        None => Ok(absent.0),
        Some(value) => read_or_wrong(alloc, key, value, size_of(value)),
    }
}

/// The size at an optional key.
fn maybe_size_at(
    alloc: Global,
    table: &Table,
    key: &'static str,
    absent: Option<u64>,
) -> Result<Option<u64>>
    ensures { GivesAt result key.now (at key.now (maybe size_of) absent (table_view table.now)) }
{
    match member(table, key) {
        None => Ok(absent),
        Some(value) => Ok(Some(read_or_wrong(alloc, key, value, size_of(value))?)),
    }
}

/// The number at a key.
fn number_at(alloc: Global, table: &Table, key: &'static str, absent: u64) -> Result<u64>
    ensures { GivesAt result key.now (at key.now number_of absent (table_view table.now)) }
{
    match member(table, key) {
        None => Ok(absent),
        Some(value) => read_or_wrong(alloc, key, value, number_of(value)),
    }
}

/// The thousandths at a key.
fn ratio_at(alloc: Global, table: &Table, key: &'static str, absent: u64) -> Result<u64>
    ensures { GivesAt result key.now (at key.now ratio_of absent (table_view table.now)) }
{
    match member(table, key) {
        None => Ok(absent),
        Some(value) => read_or_wrong(alloc, key, value, ratio_of(value)),
    }
}

/// The boolean at a key.
fn bool_at(alloc: Global, table: &Table, key: &'static str, absent: bool) -> Result<bool>
    ensures { GivesAt result key.now (at key.now as_bool absent (table_view table.now)) }
{
    match member(table, key) {
        None => Ok(absent),
        Some(value) => read_or_wrong(alloc, key, value, value.as_bool()),
    }
}

/// The version at a key.
fn version_at(alloc: Global, table: &Table, key: &'static str, absent: Version) -> Result<Version>
    ensures { GivesAt result key.now (at key.now version_of absent (table_view table.now)) }
{
    match member(table, key) {
        None => Ok(absent),
        Some(value) => read_or_wrong(alloc, key, value, version_of(value)),
    }
}

/// The recovery mode at a key.
fn mode_at(
    alloc: Global,
    table: &Table,
    key: &'static str,
    absent: RecoveryMode,
) -> Result<RecoveryMode>
    ensures { GivesAt result key.now (at key.now mode_of absent (table_view table.now)) }
{
    match member(table, key) {
        None => Ok(absent),
        Some(value) => read_or_wrong(alloc, key, value, mode_of(value)),
    }
}

/// The text at a key.
fn text_at<'a>(
    alloc: Global,
    table: &'a Table,
    key: &'static str,
    absent: &'a str,
) -> Result<&'a str>
    ensures { GivesText result key.now (at key.now as_str absent.now (table_view table.now)) }
{
    match member(table, key) {
        None => Ok(absent),
        Some(value) => read_or_wrong(alloc, key, value, value.as_str()),
    }
}

/// The text at an optional key.
fn maybe_text_at<'a>(
    alloc: Global,
    table: &'a Table,
    key: &'static str,
    absent: Option<&'a str>,
) -> Result<Option<&'a str>>
    ensures { GivesTextIfAny result key.now
        (at key.now (maybe as_str) (option_map (λ t. t.now) absent.entry) (table_view table.now)) }
{
    match member(table, key) {
        None => Ok(absent),
        Some(value) => Ok(Some(read_or_wrong(alloc, key, value, value.as_str())?)),
    }
}

/// The error that names a key, or `Memory`. For the garbage ratio its text also has the value.
fn wrong_value(alloc: Global, key: &str, value: &Value) -> Error
    ensures { NamesKey result key.now }
{
    match wrong_value_text(alloc, key, value) {
        Ok(text) => Error::InvalidArgument(text),
        Err(_) => Error::Memory,
    }
}

/// The text of the error for a wrong value.
fn wrong_value_text(
    alloc: Global,
    key: &str,
    value: &Value,
) -> std::result::Result<String, AllocError>
    ensures { IfOk result (λ text. SaysWrongValue key.now (string_bytes text)) }
{
    let note = note_of(alloc, key, value)?;
    format!(in alloc; "wrong value of {key}{note}")
}

/// What the error for a wrong value says after the key.
fn note_of(alloc: Global, key: &str, value: &Value) -> std::result::Result<String, AllocError>
    ensures { IfOk result (λ note. IsNote key.now (string_bytes note)) }
{
    if key == "purge-rewrite-garbage-ratio" {
        let shown = format!(in alloc; "{value}")?;
        format!(in alloc;
            ": {shown} is neither a number of thousandths nor one from 0.0 to 1.0 with three decimals"
        )
    } else {
        Ok(String::new(alloc))
    }
}

/// The error for a text that isn't TOML, or `Memory`.
pub fn no_toml(alloc: Global) -> Error
    ensures { SaysNoToml result }
{
    match format!(in alloc; "settings are no TOML") {
        Ok(text) => Error::InvalidArgument(text),
        Err(_) => Error::Memory,
    }
}

/// The keys of a table that aren't those of settings, in its order.
pub fn dropped_in(alloc: Global, table: &Table) -> std::result::Result<Vec<String>, AllocError>
    ensures { IfOk result (λ keys. texts_of keys ≡ dropped_keys (table_view table.now)) }
{
    let mut dropped = Vec::new(alloc);
    for key in table.keys() {
        if !is_setting(key.as_str()) {
            dropped.push(String::from_str(alloc, key.as_str())?)?;
        }
    }
    Ok(dropped)
}

/// Whether this is the key of a setting.
fn is_setting(key: &str) -> bool
    ensures { result ≡ is_setting key.now }
{
    SETTINGS.iter().any(|&setting| key == setting)
}

/// What a table sets for recycling.
#[tactic(auto, unfolding(crate::specs::Reading::recycling_in))]
fn recycling_in(alloc: Global, table: &Table, usual: &Config) -> Result<(bool, bool, Option<u64>)>
    ensures { GivesKeys result (recycling_in (settings_of usual.now) (table_view table.now)) }
{
    let enable = bool_at(alloc, table, "enable-log-recycle", usual.enable_log_recycle)?;
    let prefill = bool_at(
        alloc,
        table,
        "prefill-for-recycle",
        usual.prefill_for_recycle,
    )?;
    let limit = maybe_size_at(alloc, table, "prefill-limit", bytes_of(usual.prefill_limit))?;
    Ok((enable, prefill, limit))
}

/// What a table sets for purges.
#[tactic(auto, unfolding(crate::specs::Reading::purging_in))]
fn purging_in(alloc: Global, table: &Table, usual: &Config) -> Result<(u64, Option<u64>, u64)>
    ensures { GivesKeys result (purging_in (settings_of usual.now) (table_view table.now)) }
{
    let threshold = size_at(alloc, table, "purge-threshold", usual.purge_threshold)?;
    let usual_rewrite = bytes_of(usual.purge_rewrite_threshold);
    let rewrite = maybe_size_at(alloc, table, "purge-rewrite-threshold", usual_rewrite)?;
    let usual_ratio = usual.purge_rewrite_garbage_ratio;
    let ratio = ratio_at(alloc, table, "purge-rewrite-garbage-ratio", usual_ratio)?;
    Ok((threshold, rewrite, ratio))
}

/// What a table sets for a recovery.
#[tactic(auto, unfolding(crate::specs::Reading::recovery_in))]
fn recovery_in(alloc: Global, table: &Table, usual: &Config) -> Result<(RecoveryMode, u64, u64)>
    ensures { GivesKeys result (recovery_in (settings_of usual.now) (table_view table.now)) }
{
    let mode = mode_at(alloc, table, "recovery-mode", usual.recovery_mode)?;
    let usual_block = usual.recovery_read_block_size;
    let block = size_at(alloc, table, "recovery-read-block-size", usual_block)?;
    let threads = number_at(
        alloc,
        table,
        "recovery-threads",
        usual.recovery_threads as u64,
    )?;
    Ok((mode, block, threads))
}

/// What a table sets for new files.
#[tactic(auto, unfolding(crate::specs::Reading::files_in))]
fn files_in(alloc: Global, table: &Table, usual: &Config) -> Result<(Option<u64>, Version, u64)>
    ensures { GivesKeys result (files_in (settings_of usual.now) (table_view table.now)) }
{
    let per_sync = maybe_size_at(
        alloc,
        table,
        "bytes-per-sync",
        bytes_of(usual.bytes_per_sync),
    )?;
    let format_version = version_at(alloc, table, "format-version", usual.format_version)?;
    let target = size_at(alloc, table, "target-file-size", usual.target_file_size)?;
    Ok((per_sync, format_version, target))
}

/// What a table sets for the directories.
#[tactic(auto, unfolding(crate::specs::Reading::directories_in))]
fn directories_in<'a>(
    alloc: Global,
    table: &'a Table,
    usual: &'a Config,
) -> Result<(&'a str, Option<u64>, Option<&'a str>, Option<u64>)>
    ensures { GivesDirectories result (directories_in (settings_of usual.now) (table_view table.now)) }
{
    let dir = text_at(alloc, table, "dir", usual.dir.as_str())?;
    let dir_limit = maybe_size_at(alloc, table, "dir-limit", bytes_of(usual.dir_limit))?;
    let spill_dir = maybe_text_at(alloc, table, "spill-dir", text_of(&usual.spill_dir))?;
    let usual_limit = bytes_of(usual.spill_dir_limit);
    let spill_limit = maybe_size_at(alloc, table, "spill-dir-limit", usual_limit)?;
    Ok((dir, dir_limit, spill_dir, spill_limit))
}

/// The settings that a table states; keys that it leaves out have their usual values.
pub fn from_table(alloc: Global, table: &Table) -> Result<Config>
    ensures { GivesSettings result (settings_in (table_view table.now)) }
{
    settings_over(alloc, table, &Config::default(alloc))
}

/// The usual settings, overridden by a table's.
#[tactic(auto, unfolding(crate::specs::Reading::settings_over))]
fn settings_over(alloc: Global, table: &Table, usual: &Config) -> Result<Config>
    ensures { GivesSettings result (settings_over (settings_of usual.now) (table_view table.now)) }
{
    let (dir, dir_limit, spill_dir, spill_limit) = directories_in(alloc, table, usual)?;
    let (recovery_mode, block, threads) = recovery_in(alloc, table, usual)?;
    let (per_sync, format_version, target) = files_in(alloc, table, usual)?;
    let (threshold, rewrite_threshold, garbage_ratio) = purging_in(alloc, table, usual)?;
    let memory_limit = maybe_size_at(alloc, table, "memory-limit", bytes_of(usual.memory_limit))?;
    let (enable_log_recycle, prefill_for_recycle, limit) = recycling_in(alloc, table, usual)?;
    Ok(Config {
        dir: String::from_str(alloc, dir)?,
        dir_limit: sized(dir_limit),
        spill_dir: copied(alloc, spill_dir)?,
        spill_dir_limit: sized(spill_limit),
        recovery_mode,
        recovery_read_block_size: ReadableSize(block),
        recovery_threads: threads as usize,
        bytes_per_sync: sized(per_sync),
        format_version,
        target_file_size: ReadableSize(target),
        purge_threshold: ReadableSize(threshold),
        purge_rewrite_threshold: sized(rewrite_threshold),
        purge_rewrite_garbage_ratio: garbage_ratio,
        memory_limit: sized(memory_limit),
        enable_log_recycle,
        prefill_for_recycle,
        prefill_limit: sized(limit),
    })
}

/// A borrowed text, if there is one.
pub fn text_of(text: &Option<String>) -> Option<&str>
    ensures { option_map (λ t. t.now) result ≡ option_map string_bytes text.now }
{
    match text {
        Some(text) => Some(text.as_str()),
        None => None,
    }
}

/// The bytes of a size, if there is one.
fn bytes_of(size: Option<ReadableSize>) -> Option<u64>
    ensures { result ≡ option_map (λ size. size.0) size }
{
    match size {
        Some(size) => Some(size.0),
        None => None,
    }
}

/// A size of so many bytes, if there is one.
fn sized(bytes: Option<u64>) -> Option<ReadableSize>
    ensures { option_map (λ size. size.0) result ≡ bytes }
{
    match bytes {
        Some(bytes) => Some(ReadableSize(bytes)),
        None => None,
    }
}

/// An owned copy of a text, if there is one.
fn copied(alloc: Global, text: Option<&str>) -> std::result::Result<Option<String>, AllocError>
    ensures { IfOk result (λ copy. option_map string_bytes copy ≡ option_map (λ t. t.now) text.entry) }
{
    match text {
        Some(text) => Ok(Some(String::from_str(alloc, text)?)),
        None => Ok(None),
    }
}
