//! Files with an alignment, which the log's pipes don't support.

ghost use Rattle.std.specs.Prelude.{◌↔◌, IsTrue};
ghost use Rattle.raft_log_recovery.specs.Unaligned.{AreUnaligned, TellsAligned};

use raft_log_record_base::Error;
use raft_log_recovery_read::FileEnding;
use std::alloc::Global;

/// Whether none of the files has an alignment.
pub(crate) fn have_no_padding(endings: &[FileEnding]) -> bool
    ensures { IsTrue result ↔ AreUnaligned endings.now }
{
    for ending in endings {
        if ending.format.alignment != 0 {
            return false;
        }
    }
    true
}

/// The error if a file has an alignment: `InvalidArgument`, or `Memory` if there is no memory for its text.
pub(crate) fn aligned(alloc: Global) -> Error
    ensures { TellsAligned result }
{
    match format!(in alloc; "a file of the log has an alignment, which this log doesn't take") {
        Ok(text) => Error::InvalidArgument(text),
        Err(_) => Error::Memory,
    }
}
