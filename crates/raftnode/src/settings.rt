//! The settings of the log.
use crate::refusal::Refusal;
use log::{LevelFilter, Log, Logged, warn};
use raft_log_engine::{Config, Error};
use std::fs;
use std::fs::File;
use std::rt::Files;

/// The settings of this file, or the default ones if there is none, for a log in this directory. The file's own `dir`
/// is ignored. Warns of each key of the file that settings don't have. Fails with `Unread` if the file can't be read,
/// with `Settings` if its settings are wrong, or for lack of memory.
pub fn settings<R: Files<File = File> + Log + AllocGlobal>(
    rt: &R,
    directory: String,
    file: Option<String>,
) -> Result<Config, Refusal> {
    let Some(path) = file else {
        let mut config = Config::default(rt.alloc());
        config.dir = directory;
        return Ok(config);
    };
    let text = match fs::read_to_string(rt, path.as_str()) {
        Ok(text) => text,
        Err(error) => return Err(Refusal::Unread { path, error }),
    };
    match parsed(rt, directory, path.as_str(), text.as_str()) {
        Ok(config) => Ok(config),
        Err(error) => Err(Refusal::Settings { path, error }),
    }
}

/// The settings of this text of a file, for a log in this directory. Warns of each key that settings don't have. Fails
/// if the text isn't TOML, if its settings are wrong, or for lack of memory.
fn parsed<R: Log + AllocGlobal>(
    rt: &R,
    directory: String,
    path: &str,
    text: &str,
) -> Result<Config, Error> {
    let mut config = Config::from_toml(rt.alloc(), text)?;
    config.dir = directory;
    // The open of the log sanitizes them again, and warns of what has no effect.
    let silent = Logged::new(rt, LevelFilter::Off, rt);
    config.clone()?.sanitize(&silent, rt.alloc())?;
    for key in Config::dropped_keys(rt.alloc(), text)? {
        warn!(rt; "settings {path}: key {key} is not used");
    }
    Ok(config)
}
