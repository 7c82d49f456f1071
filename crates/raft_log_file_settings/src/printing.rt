//! Settings printed as TOML.
ghost use Rattle.std.specs.Prelude.{◌≡◌, [], ◌∷◌, map, Some, false, OnOk, IfOk, IfErr};
ghost use Rattle.std.specs.Option.{option_map};
ghost use Rattle.std.specs.String.{string_bytes};
ghost use Rattle.toml.specs.View.{view, table_view};
ghost use Rattle.toml.specs.Data.Data.{string};
ghost use Rattle.raft_log_record_base.specs.declared.errors.Error.TheVariants.{Memory};
ghost use Rattle.raft_log_file_settings.specs.Settings.{settings_of};
ghost use Rattle.raft_log_file_settings.specs.Printing.{SizeFits, SizesFit, word_of, size_data, data_of, row_of, rows_of, is_unsaid, HasRows, PutsAt, PutsRow, IsUnprintable, SaysTooLarge};

use super::config::Config;
use super::reading::text_of;
use super::recovery_mode::RecoveryMode;
use raft_log_record_base::{Error, ReadableSize, Result};
use std::alloc::{AllocError, Global};
use toml::{Table, Value};

/// The value of a key.
#[derive(Clone, Copy)]
pub enum Entry<'a> {
    Text(&'a str),
    Size(ReadableSize),
    Number(u64),
    Switch(bool),
}

/// The settings as a table. Fails with `InvalidArgument` for a number of 2^63 or more, which names its key, or with
/// `Memory`.
pub fn to_table(alloc: Global, config: &Config) -> Result<Table>
    ensures ok { IfOk result (λ table. HasRows (rows_of (settings_of config.now)) (table_view table)) }
    ensures fits { SizesFit (settings_of config.now) }
    ensures err { IfErr result (λ error. IsUnprintable (rows_of (settings_of config.now)) error) }
{
    let rows = [
        ("dir", Some(Entry::Text(config.dir.as_str()))),
        ("dir-limit", size_entry(config.dir_limit)),
        ("spill-dir", text_entry(text_of(&config.spill_dir))),
        ("spill-dir-limit", size_entry(config.spill_dir_limit)),
        (
            "recovery-mode",
            Some(Entry::Text(word_of(config.recovery_mode))),
        ),
        (
            "recovery-read-block-size",
            size_entry(Some(config.recovery_read_block_size)),
        ),
        (
            "recovery-threads",
            Some(Entry::Number(config.recovery_threads as u64)),
        ),
        ("bytes-per-sync", size_entry(config.bytes_per_sync)),
        (
            "format-version",
            Some(Entry::Number(config.format_version.to_u64())),
        ),
        (
            "target-file-size",
            size_entry(Some(config.target_file_size)),
        ),
        ("purge-threshold", size_entry(Some(config.purge_threshold))),
        (
            "purge-rewrite-threshold",
            size_entry(config.purge_rewrite_threshold),
        ),
        (
            "purge-rewrite-garbage-ratio",
            Some(Entry::Number(config.purge_rewrite_garbage_ratio)),
        ),
        ("memory-limit", size_entry(config.memory_limit)),
        (
            "enable-log-recycle",
            Some(Entry::Switch(config.enable_log_recycle)),
        ),
        (
            "prefill-for-recycle",
            Some(Entry::Switch(config.prefill_for_recycle)),
        ),
        ("prefill-limit", size_entry(config.prefill_limit)),
    ];
    table_of(alloc, &rows)
}

/// The word of a recovery mode.
fn word_of(mode: RecoveryMode) -> &'static str
    ensures { result.now ≡ word_of mode }
{
    match mode {
        RecoveryMode::AbsoluteConsistency => "absolute-consistency",
        RecoveryMode::TolerateTailCorruption => "tolerate-corrupted-tail-records",
        RecoveryMode::TolerateAnyCorruption => "tolerate-any-corruption",
    }
}

/// A text, if there is one.
fn text_entry(text: Option<&str>) -> Option<Entry<'_>>
    ensures { option_map data_of result ≡ option_map (λ t. string t.now) text.entry }
{
    match text {
        Some(text) => Some(Entry::Text(text)),
        None => None,
    }
}

/// A size, if there is one.
fn size_entry(size: Option<ReadableSize>) -> Option<Entry<'static>>
    ensures value { option_map data_of result ≡ option_map (λ size. size_data size.0) size }
    ensures fits { SizeFits (option_map (λ size. size.0) size) }
{
    match size {
        Some(size) => Some(Entry::Size(size)),
        None => None,
    }
}

/// The table of rows, which are added one after another.
fn table_of(alloc: Global, rows: &[(&str, Option<Entry<'_>>)]) -> Result<Table>
    ensures ok { IfOk result (λ table. HasRows (map row_of rows.now) (table_view table)) }
    ensures err { IfErr result (λ error. IsUnprintable (map row_of rows.now) error) }
{
    let mut table = Table::new(alloc);
    for row in rows.iter() {
        put_row(alloc, &mut table, row)?;
    }
    Ok(table)
}

/// Adds a row to a table, unless it has no value.
fn put_row(alloc: Global, table: &mut Table, row: &(&str, Option<Entry<'_>>)) -> Result<()>
    ensures ok { OnOk result (PutsRow (row_of row.now) (table_view table.old) (table_view table.new)) }
    ensures said { OnOk result (is_unsaid (row_of row.now).1 ≡ false) }
    ensures err { IfErr result (λ error. IsUnprintable (row_of row.now ∷ []) error) }
{
    match row.1 {
        Some(entry) => put(alloc, table, row.0, value_of(alloc, row.0, entry)?),
        None => Ok(()),
    }
}

/// The value of an entry, as TOML has it.
fn value_of(alloc: Global, key: &str, entry: Entry<'_>) -> Result<Value>
    ensures ok { IfOk result (λ value. view value ≡ data_of entry.entry) }
    ensures said { OnOk result (is_unsaid (Some (data_of entry.entry)) ≡ false) }
    ensures err { IfErr result (λ error. IsUnprintable ((key.now, Some (data_of entry.entry)) ∷ []) error) }
{
    match entry {
        Entry::Text(text) => Ok(Value::string(alloc, text)?),
        Entry::Size(size) => Ok(size_value(alloc, size)?),
        Entry::Switch(on) => Ok(Value::from(on)),
        Entry::Number(number) => match i64::try_from(number) {
            Ok(number) => Ok(Value::from(number)),
            Err(_) => Err(too_large(alloc, key)),
        },
    }
}

/// The value of a size: a number of bytes, or a text if TOML has no such number.
fn size_value(alloc: Global, size: ReadableSize) -> std::result::Result<Value, AllocError>
    ensures { IfOk result (λ value. view value ≡ size_data size.0) }
{
    match i64::try_from(size.0) {
        Ok(bytes) => Ok(Value::from(bytes)),
        Err(_) => Ok(Value::from(format!(in alloc; "{size}")?)),
    }
}

/// The error for a number that TOML can't express, with its key, or `Memory`.
fn too_large(alloc: Global, key: &str) -> Error
    ensures { SaysTooLarge key.now result }
{
    match format!(in alloc; "number past the range of TOML at {key}") {
        Ok(text) => Error::InvalidArgument(text),
        Err(_) => Error::Memory,
    }
}

/// Adds a value to a table at a key.
fn put(alloc: Global, table: &mut Table, key: &str, value: Value) -> Result<()>
    ensures ok { OnOk result (PutsAt key.now (view value) (table_view table.old) (table_view table.new)) }
    ensures err { IfErr result (λ error. error ≡ Memory) }
{
    let name = String::from_str(alloc, key)?;
    match table.insert(name, value) {
        Ok(_) => Ok(()),
        Err(_) => Err(Error::Memory),
    }
}
