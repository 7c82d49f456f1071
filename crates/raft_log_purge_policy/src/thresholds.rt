//! The settings of a log's purges.

ghost use Rattle.std.specs.Prelude.{◌≡◌};
ghost use Rattle.raft_log_file_settings.specs.Sanitized.{sanitized};
ghost use Rattle.raft_log_file_settings.specs.Settings.{settings_of};
ghost use Rattle.raft_log_purge_policy.specs.Thresholds.{thresholds_of};

use raft_log_file_settings::Config;

/// Above which size, and for Rewrite above which share of garbage, a purge collects the queues of a
/// log. A queue's size in bytes counts each of its files with the target size.
#[derive(Clone, Copy, Debug, PartialEq, Eq)]
pub struct Thresholds {
    /// Append is purged if it is larger than this.
    pub append: u64,
    /// Rewrite is rewritten only if it is larger than this; without it, never.
    pub rewrite: Option<u64>,
    /// Rewrite is rewritten only if more than so many thousandths of the entries and values written
    /// to it are garbage.
    pub garbage_ratio: u64,
}

impl Thresholds {
    /// The thresholds in these settings, as `sanitize` leaves them; it needn't have been called.
    pub fn of(config: &Config) -> Thresholds
        ensures { result ≡ thresholds_of (sanitized (settings_of config.now)) }
    {
        Thresholds {
            append: config.purge_threshold.0,
            rewrite: Some(config.rewrite_threshold()),
            garbage_ratio: config.purge_rewrite_garbage_ratio,
        }
    }
}
