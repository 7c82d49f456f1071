//! A caller of `raft_log_file_settings`: reads settings from a text, and completes them.
ghost use Rattle.std.specs.Prelude.{◌≡◌, Some, Ok, IfOk};
ghost use Rattle.toml.specs.Data.{Members};
ghost use Rattle.toml.specs.Parse.{parse_document};
ghost use Rattle.raft_log_file_settings.specs.Reading.{settings_in};
ghost use Rattle.raft_log_file_settings.specs.Sanitized.{HasNoFault, sanitized};
ghost use Rattle.raft_log_file_settings.specs.Settings.{Settings, settings_of};

use log::Log;
use raft_log_file_settings::Config;
use raft_log_record_base::Result;
use std::alloc::Global;

/// Reads settings from a text, and returns them completed. The settings in the text have no fault.
pub fn settings_from<L: Log>(rt: &L, alloc: Global, text: &str) -> Result<Config>
    ensures { IfOk result (λ config. (table : Members) × (s : Settings)
        × (parse_document text.now ≡ Some table) × (settings_in table ≡ Ok s)
        × HasNoFault s × (settings_of config ≡ sanitized s)) }
{
    let mut config = Config::from_toml(alloc, text)?;
    config.sanitize(rt, alloc)?;
    Ok(config)
}
