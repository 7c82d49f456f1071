//! The bytes of a key or a value in an item: a length, and that many bytes.
ghost use Rattle.std.specs.Prelude.{◌≡◌, ◌++◌, OnOk, OnErr};
ghost use Rattle.raft_log_record_base.specs.Fault.{ReadsOrMemory};
ghost use Rattle.raft_log_record_items.specs.Items.{IsBytes};
ghost use Rattle.raft_log_record_items.specs.Reading.{bytes_at};
ghost use Rattle.raft_log_record_items.specs.Writing.{bytes_bytes, KeepsFront};

use raft_lists::Bytes;
use raft_log_record_base::codec::{BytesSlice, append_var_u64, decode_var_u64};
use raft_log_record_base::{Error, Result, codec};
use std::alloc::{AllocError, Global};

/// Reads a length and that many bytes. If it fails, it consumes nothing.
#[tactic(auto, unfolding(crate::specs::Reading::bytes_at))]
pub(crate) fn split_bytes(alloc: Global, source: &mut BytesSlice<'_>) -> Result<Bytes>
    ensures { ReadsOrMemory result source.old.now source.new.now (bytes_at source.old.now) }
{
    let mut rest: &[u8] = *source;
    let len = decode_var_u64(&mut rest)?;
    if (rest.len() as u64) < len {
        return Err(Error::Codec(codec::Error::unexpected_eof()));
    }
    let (front, back) = rest.split_at(len as usize);
    let bytes = Bytes::from_slice(alloc, front)?;
    *source = back;
    Ok(bytes)
}

/// Appends a length and that many bytes. If it fails, a part may follow the old bytes.
#[tactic(auto, unfolding(crate::specs::Writing::bytes_bytes))]
pub(crate) fn append_bytes(out: &mut Vec<u8>, bytes: &[u8]) -> Result<(), AllocError>
    ensures ok { OnOk result (out.new.items ≡ out.old.items ++ bytes_bytes bytes.now) }
    ensures err { OnErr result (KeepsFront out.old.items out.new.items) }
    ensures spelled { OnOk result (IsBytes (bytes_bytes bytes.now) bytes.now) }
{
    append_var_u64(out, bytes.len() as u64)?;
    out.extend_from_slice(bytes)?;
    Ok(())
}
