//! The settings for a log that another program owns.
ghost use Rattle.std.specs.Prelude.{◌≡◌, IfOk};
ghost use Rattle.raft_log_file_settings.specs.Settings.{settings_of};
ghost use Rattle.raft_log_operator.specs.Purging.{purge_settings};
ghost use Rattle.raft_log_operator.specs.Tasks.{kept_settings};

use raft_log_command_line::Place;
use raft_log_engine::Config;
use std::alloc::{AllocError, Global};

/// The default settings for a log in these directories, except that no file is recycled.
pub fn kept_settings(alloc: Global, place: &Place) -> Result<Config, AllocError>
    ensures { IfOk result (λ config. settings_of config ≡ kept_settings place.now) }
{
    let dir = String::from_str(alloc, place.directory.as_str())?;
    let spill_dir = match &place.spill_directory {
        Some(spill) => Some(String::from_str(alloc, spill.as_str())?),
        None => None,
    };
    let mut config = Config::default(alloc);
    config.dir = dir;
    config.spill_dir = spill_dir;
    config.enable_log_recycle = false;
    Ok(config)
}

/// The settings for a purge: those of `kept_settings`, except that Append is past its threshold once it has a second
/// file.
pub fn purge_settings(alloc: Global, place: &Place) -> Result<Config, AllocError>
    ensures { IfOk result (λ config. settings_of config ≡ purge_settings place.now) }
{
    let mut config = kept_settings(alloc, place)?;
    config.purge_threshold = config.target_file_size;
    Ok(config)
}
