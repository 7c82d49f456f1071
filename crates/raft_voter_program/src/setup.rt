//! The files at the start of a session.
ghost use Rattle.std.specs.Prelude.{◌≡◌, IfErr, IfOk};
ghost use Rattle.std.specs.Option.{option_map};
ghost use Rattle.std.specs.String.{string_bytes};
ghost use Rattle.raft_log_file_settings.specs.Settings.{settings_of};
ghost use Rattle.raft_voter_program.specs.Setup.{IsUnset, log_setup, refusal_of, TellsSettings, usual_settings};

use crate::store_setup::{NoFiles, StoreSetup};
use log::Log;
use raft_log_engine::{Config, Error};
use raft_voter_log::{LogFiles, LogVoters};
use std::alloc::{AllocError, Global};

/// The directory of the log if a session has no settings.
pub(crate) const USUAL_DIRECTORY: &str = "raft";

/// Makes the files of a log that doesn't exist yet: an empty file system in memory, and the session's settings with
/// defaults filled in. Without settings it has the defaults and the directory `raft`.
#[derive(Clone, Copy, Debug, PartialEq, Eq)]
pub struct LogSetup {}

impl<R: Log> StoreSetup<R, LogVoters, LogFiles> for LogSetup {
    ghost setup = { log_setup };

    fn files(&self, rt: &R, alloc: Global, settings: &Option<String>) -> Result<LogFiles, NoFiles> {
        let mut config = config_of(alloc, settings)?;
        match config.sanitize(rt, alloc) {
            Ok(()) => Ok(LogFiles::new(alloc, config)),
            Err(Error::Memory) => Err(NoFiles::Memory),
            Err(_) => Err(NoFiles::Settings),
        }
    }
}

/// The settings in this text; if there is none, the default ones with the directory `raft`.
fn config_of(alloc: Global, settings: &Option<String>) -> Result<Config, NoFiles>
    ensures ok { IfOk result (λ config.
        TellsSettings (option_map string_bytes settings.now) (settings_of config)) }
    ensures err { IfErr result (IsUnset (option_map string_bytes settings.now)) }
{
    let Some(text) = settings else {
        let Ok(config) = usual_config(alloc) else {
            return Err(NoFiles::Memory);
        };
        return Ok(config);
    };
    match Config::from_toml(alloc, text.as_str()) {
        Ok(config) => Ok(config),
        Err(error) => Err(refusal_of(error)),
    }
}

/// The default settings, with the directory `raft`.
pub(crate) fn usual_config(alloc: Global) -> Result<Config, AllocError>
    ensures { IfOk result (λ config. settings_of config ≡ usual_settings) }
{
    let dir = String::from_str(alloc, USUAL_DIRECTORY)?;
    let mut config = Config::default(alloc);
    config.dir = dir;
    Ok(config)
}

/// Why there are no settings: out of memory, or else they are rejected.
fn refusal_of(error: Error) -> NoFiles
    ensures { result ≡ refusal_of error }
{
    match error {
        Error::Memory => NoFiles::Memory,
        _ => NoFiles::Settings,
    }
}
