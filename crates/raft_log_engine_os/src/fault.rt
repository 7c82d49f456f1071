//! Why a log in real directories wasn't opened.
ghost use Rattle.std.specs.Prelude.{◌≡◌};
ghost use Rattle.raft_log_engine_os.specs.declared.fault.OpenFault.TheVariants.{Directory};

use raft_log_engine::Error as LogError;
use raft_log_fs_os::DirectoryFault;
use thiserror::Error;

/// Why a log in real directories wasn't opened.
#[derive(Debug, Drop, Error)]
pub enum OpenFault {
    /// A directory wasn't made or opened, or there was no memory for its limit.
    #[error("{0}")]
    Directory(DirectoryFault),
    /// The directories were opened, but not the log in them.
    #[error("{0}")]
    Log(LogError),
}

impl From<DirectoryFault> for OpenFault {
    ghost from_gives = { λ fault refusal. refusal ≡ Directory fault };

    fn from(fault: DirectoryFault) -> OpenFault {
        OpenFault::Directory(fault)
    }
}
