//! A caller of `raft_log_record_base`: the term and the index that a snapshot covers, as bytes both ways.
ghost use Rattle.std.specs.Prelude.{◌≡◌, ◌++◌, OnOk, OnErr};
ghost use Rattle.raft_log_record_base.specs.Grammar.{ReadsAs};
ghost use Rattle.raft_examples.specs.Cover.{cover_bytes, cover_at};

use raft_log_record_base::codec;
use raft_log_record_base::codec::{BytesSlice, append_var_u64, decode_var_u64, or_cut_back};
use std::alloc::AllocError;

/// Appends the term and the index. If it fails, the buffer's bytes are unchanged.
pub fn append_cover(out: &mut Vec<u8>, term: u64, index: u64) -> Result<(), AllocError>
    ensures ok { OnOk result (out.new.items ≡ out.old.items ++ cover_bytes term index) }
    ensures err { OnErr result (out.new.items ≡ out.old.items) }
{
    let start = out.len();
    append_var_u64(out, term)?;
    or_cut_back(append_var_u64(out, index), out, start)
}

/// Reads the term and the index. If it fails, it consumes nothing.
pub fn decode_cover(source: &mut BytesSlice<'_>) -> codec::Result<(u64, u64)>
    ensures { ReadsAs result source.old.now source.new.now (cover_at source.old.now) }
{
    let mut rest: &[u8] = *source;
    let term = decode_var_u64(&mut rest)?;
    let index = decode_var_u64(&mut rest)?;
    *source = rest;
    Ok((term, index))
}
