//! Appends numbers to a buffer of the caller. If memory runs out, the buffer's bytes are unchanged.

ghost use Rattle.std.specs.Prelude.{◌≡◌, ◌++◌, ◌+◌, ◌≤◌, take, vec_len, vec_capacity, OnOk, OnErr};
ghost use Rattle.raft_log_record_base.specs.Number.{
  IsU64,
  IsU32Le,
  IsVarU64,
  IsShortest,
  u64_bytes,
  u32_le_bytes,
  var_u64_bytes,
};

use super::variable::{CONTINUES, MAX_VAR_U64_LEN};
use std::alloc::AllocError;

/// Appends what `encode_u64` writes.
#[tactic(auto, unfolding(crate::specs::Number::u64_bytes))]
#[inline]
pub fn append_u64(out: &mut Vec<u8>, number: u64) -> Result<(), AllocError>
    ensures ok { OnOk result (out.new.items ≡ out.old.items ++ u64_bytes number) }
    ensures err { OnErr result (out.new.items ≡ out.old.items) }
    ensures spelled { IsU64 (u64_bytes number) number }
{
    out.extend_from_slice(&number.to_be_bytes())
}

/// Appends what `encode_u32_le` writes.
#[tactic(auto, unfolding(crate::specs::Number::u32_le_bytes))]
#[inline]
pub fn append_u32_le(out: &mut Vec<u8>, number: u32) -> Result<(), AllocError>
    ensures ok { OnOk result (out.new.items ≡ out.old.items ++ u32_le_bytes number) }
    ensures err { OnErr result (out.new.items ≡ out.old.items) }
    ensures spelled { IsU32Le (u32_le_bytes number) number }
{
    out.extend_from_slice(&number.to_le_bytes())
}

/// Appends the shortest spelling of the number. The buffer must have room for it.
fn push_digits(out: &mut Vec<u8>, number: u64)
    requires { vec_len out.old + 10 ≤ vec_capacity out.old }
    ensures { out.new.items ≡ out.old.items ++ var_u64_bytes number }
{
    let mut rest = number;
    while rest >= CONTINUES as u64 {
        out.push_reserved((rest & 0x7f) as u8 | CONTINUES);
        rest >>= 7;
    }
    out.push_reserved(rest as u8);
}

/// Appends what `encode_var_u64` writes.
#[inline]
pub fn append_var_u64(out: &mut Vec<u8>, number: u64) -> Result<(), AllocError>
    ensures ok { OnOk result (out.new.items ≡ out.old.items ++ var_u64_bytes number) }
    ensures err { OnErr result (out.new.items ≡ out.old.items) }
    ensures spelled { IsShortest IsVarU64 (var_u64_bytes number) number }
{
    if number < CONTINUES as u64 {
        out.push(number as u8)?;
        return Ok(());
    }
    out.reserve(MAX_VAR_U64_LEN)?;
    push_digits(out, number);
    Ok(())
}

/// Returns the result of an addition to the buffer. If it is an error, the buffer is truncated to the first `len`
/// bytes: if the addition left these unchanged, the buffer's bytes are as before. Its capacity stays.
#[inline]
pub fn or_cut_back<E>(appended: Result<(), E>, out: &mut Vec<u8>, len: usize) -> Result<(), E>
    ensures value { result ≡ appended }
    ensures ok { OnOk appended (out.new ≡ out.old) }
    ensures err { OnErr appended (out.new.items ≡ take len out.old.items) }
    ensures room { vec_capacity out.new ≡ vec_capacity out.old }
{
    if appended.is_err() {
        out.truncate(len);
    }
    appended
}
