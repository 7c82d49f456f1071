//! The line of the settings.
use crate::session::Unread;
use crate::words::{end_of_word, split_at_byte};
use raft_log_file_settings::Config;
use raft_log_record_base::Error;
use std::alloc::{AllocError, Global};

/// The directory of the log.
const DIRECTORY: &str = "log";

/// The keys whose values are numbers, `true` or `false`; TOML has these without quotes.
const PLAIN: [&str; 9] = [
    "recovery-read-block-size",
    "format-version",
    "target-file-size",
    "purge-threshold",
    "purge-rewrite-threshold",
    "purge-rewrite-garbage-ratio",
    "enable-log-recycle",
    "prefill-for-recycle",
    "prefill-limit",
];

/// Returns the usual settings, for a log in the directory `log`.
pub fn usual_settings(alloc: Global) -> Result<Config, AllocError> {
    let dir = String::from_str(alloc, DIRECTORY)?;
    let mut config = Config::default(alloc);
    config.dir = dir;
    Ok(config)
}

/// Returns the settings of a line: the words `KEY=VALUE` after its first one, and the usual settings for all other
/// keys. Fails with `Form` for a key that sessions don't set, or for a wrong value.
pub fn read_settings(alloc: Global, text: &[u8]) -> Result<Config, Unread> {
    let mut lines = format!(in alloc; "dir = \"{DIRECTORY}\"\n")?;
    let mut left = text;
    while let Some((_empty, rest)) = split_at_byte(left, b' ') {
        let (word, later) = rest.split_at(end_of_word(rest));
        add_setting(&mut lines, word)?;
        left = later;
    }
    match Config::from_toml(alloc, lines.as_str()) {
        Ok(config) => Ok(config),
        Err(Error::Memory) => Err(Unread::Memory),
        Err(_) => Err(Unread::Form),
    }
}

/// Appends a setting as a line of TOML.
fn add_setting(lines: &mut String, word: &[u8]) -> Result<(), Unread> {
    let Some((key, value)) = split_at_byte(word, b'=') else {
        return Err(Unread::Form);
    };
    let (Ok(key), Ok(value)) = (std::str::from_utf8(key), std::str::from_utf8(value)) else {
        return Err(Unread::Form);
    };
    if key == "recovery-mode" {
        write!(lines, "{key} = \"{value}\"\n")?;
        return Ok(());
    }
    if !PLAIN.iter().any(|name| *name == key) {
        return Err(Unread::Form);
    }
    write!(lines, "{key} = {value}\n")?;
    Ok(())
}
