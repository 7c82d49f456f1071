//! The headers that a pipe writes: records of its files follow one another, without an alignment.

ghost use Rattle.std.specs.Prelude.{◌≡◌, IfErr, IfOk};
ghost use Rattle.raft_log_file_format.specs.Header.{header_bytes};
ghost use Rattle.raft_log_file_pipe.specs.Headers.{IsAlignmentRefusal};
ghost use Rattle.raft_log_active_file.specs.Layout.{IsUnaligned};

use raft_log_file_format::LogFileFormat;
use raft_log_record_base::{Error, Result};
use std::alloc::Global;

/// The header of a file in this format. Fails with `InvalidArgument` if the format has an alignment, or with `Memory`.
pub(crate) fn encode_header(alloc: Global, format: LogFileFormat) -> Result<Vec<u8>>
    ensures ok { IfOk result (λ header. IsUnaligned format × (header.items ≡ header_bytes format)) }
    ensures err { IfErr result (IsAlignmentRefusal format) }
{
    if format.alignment != 0 {
        let told = format!(in alloc; "the files of a pipe have no alignment")?;
        return Err(Error::InvalidArgument(told));
    }
    let mut header = Vec::new(alloc);
    format.encode(alloc, &mut header)?;
    Ok(header)
}
