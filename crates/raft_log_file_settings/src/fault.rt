//! What may be wrong with settings.
ghost use Rattle.std.specs.Prelude.{◌≡◌, Some};

use std::fmt;

/// What may be wrong with settings, in the order in which it is reported.
#[derive(Clone, Copy, Debug, PartialEq, Eq)]
pub enum ConfigFault {
    /// The threshold of a purge is below the target size of a file.
    PurgeBelowTarget,
    /// The target size of a file is 0.
    NoTargetSize,
    /// The spill directory is the main one, or one of the two has the path of a log file in the other.
    DirectoriesClash,
    /// Files of a format without signatures can't be recycled.
    RecycleUnsigned,
    /// Files are prefilled for recycling, but recycling is off.
    PrefillWithoutRecycle,
    /// An open would be allowed to prefill more than 65,536 files.
    TooManyPrefilled,
}

impl ConfigFault {
    ghost use Rattle.raft_log_file_settings.specs.Text.{fault_text};

    /// The text of the fault.
    pub fn text(self) -> &'static str
        ensures { result.now ≡ fault_text self }
    {
        match self {
            ConfigFault::PurgeBelowTarget => "purge-threshold < target-file-size",
            ConfigFault::NoTargetSize => "target-file-size is 0",
            ConfigFault::DirectoriesClash => {
                "spill-dir is dir, or one of the two is a log file of the other"
            }
            ConfigFault::RecycleUnsigned => {
                "format version 1 doesn't support log recycle, use 2 or above"
            }
            ConfigFault::PrefillWithoutRecycle => {
                "prefill is not allowed when log recycle is disabled"
            }
            ConfigFault::TooManyPrefilled => {
                "prefill would make over 65536 files: raise target-file-size or lower purge-threshold or prefill-limit"
            }
        }
    }
}

impl fmt::Display for ConfigFault {
    ghost use Rattle.raft_log_file_settings.specs.Text.{fault_text};

    ghost output = { λ fault. Some (fault_text fault) };

    fn fmt<W: fmt::Write>(&self, f: &mut fmt::Formatter<W>) -> fmt::Result {
        f.write_str(self.text())
    }
}
