//! A caller of `raft_log_record_frames`: from record to record of a file's bytes.
ghost use Rattle.std.specs.Prelude.{IfOk};
ghost use Rattle.raft_examples.specs.Chain.{RecordBefore};

use raft_log_record_frames::decode_record;
use raft_log_record_items::Result;
use std::alloc::Global;

/// The bytes after the record at the start of these bytes.
pub fn behind_record(alloc: Global, bytes: &[u8], signature: Option<u32>) -> Result<&[u8]>
    ensures { IfOk result (λ rest. RecordBefore signature bytes.now rest.now) }
{
    let (len, _, _) = decode_record(alloc, bytes, signature)?;
    let (_, rest) = bytes.split_at(len);
    Ok(rest)
}
