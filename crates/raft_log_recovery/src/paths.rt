//! The directories of a log.

ghost use Rattle.std.specs.Prelude.{◌≡◌, map, IfOk, IfErr};
ghost use Rattle.std.specs.String.{string_bytes};
ghost use Rattle.raft_log_record_base.specs.declared.errors.Error.TheVariants.{Memory};
ghost use Rattle.raft_log_recovery.specs.Directories.{paths_of};

use raft_log_active_file::Paths;
use raft_log_file_settings::Config;
use raft_log_record_base::Result;
use std::alloc::Global;

/// The log's directories, the main one first. Fails only with `Memory`.
pub fn paths(alloc: Global, config: &Config) -> Result<Paths>
    ensures ok { IfOk result (λ paths. map string_bytes paths.items ≡ paths_of config.now) }
    ensures err { IfErr result (λ error. error ≡ Memory) }
{
    let mut paths = Vec::new(alloc);
    paths.push(String::from_str(alloc, config.dir.as_str())?)?;
    if let Some(spill) = &config.spill_dir {
        paths.push(String::from_str(alloc, spill.as_str())?)?;
    }
    Ok(paths)
}
