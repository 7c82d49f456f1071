//! Numbers of variable length: seven bits a byte, the lowest first, with the top bit set on all bytes but the last.

ghost use Rattle.std.specs.Prelude.{◌≡◌, ◌≤◌, ◌↔◌, take};
ghost use Rattle.raft_log_record_base.specs.Grammar.{ReadsAs, Decodes};
ghost use Rattle.raft_log_record_base.specs.Number.{
  IsVarU64,
  IsVarI64,
  IsShortest,
  IsShort,
  IsInvalid,
  FindsNumber,
  EndsFirst,
  RunsOver,
  var_u64_at,
  var_i64_at,
  var_u64_bytes,
};

use super::error::{BytesSlice, Error, Result};
use super::signed::from_zigzag;
use std::io::ErrorKind;

/// The greatest length of a number in bytes.
pub const MAX_VAR_U64_LEN: usize = 10;

/// How many bytes with the top bit set a number may begin with.
const GOING_ON: usize = MAX_VAR_U64_LEN - 1;

/// A byte of at least this value has more bytes after it.
pub const CONTINUES: u8 = 0x80;

/// The greatest tenth byte: nine bytes hold 63 bits.
const GREATEST_LAST: u8 = 1;

/// Reads what `encode_var_u64` writes, and longer spellings of at most ten bytes. Fails with `InvalidData` if the first
/// nine bytes have the top bit set and the tenth is above 1. Fails with `UnexpectedEof` if the bytes end before the
/// number does. If it fails, it consumes nothing.
#[inline(always)]
pub fn decode_var_u64(source: &mut BytesSlice<'_>) -> Result<u64>
    ensures decodes { Decodes IsVarU64 result source.old.now source.new.now }
    ensures short { IsShort result ↔ EndsFirst source.old.now }
    ensures invalid { IsInvalid result ↔ RunsOver source.old.now }
    ensures exact { ReadsAs result source.old.now source.new.now (var_u64_at source.old.now) }
{
    split_var_u64(source)
}

/// Splits the number off the front; if it fails, nothing is taken. Numbers of one and two bytes are read in place.
#[inline(always)]
fn split_var_u64(source: &mut BytesSlice<'_>) -> Result<u64>
    ensures { ReadsAs result source.old.now source.new.now (var_u64_at source.old.now) }
{
    match *source {
        [byte, rest @ ..] if *byte < CONTINUES => {
            *source = rest;
            Ok(*byte as u64)
        }
        [low, high, rest @ ..] if *low >= CONTINUES && *high < CONTINUES => {
            *source = rest;
            Ok((*low - CONTINUES) as u64 + *high as u64 * CONTINUES as u64)
        }
        bytes => {
            let (number, len) = var_u64_front(bytes)?;
            *source = &bytes[len..];
            Ok(number)
        }
    }
}

/// The number at the front, and how many bytes it takes.
#[inline(never)]
fn var_u64_front(bytes: &[u8]) -> Result<(u64, usize)>
    ensures { FindsNumber result bytes.now (var_u64_at bytes.now) }
{
    let mut number: u64 = 0;
    for i in 0..GOING_ON {
        if bytes.len() <= i {
            return Err(Error::unexpected_eof());
        }
        let byte = bytes[i];
        number += ((byte & 0x7f) as u64) << (7 * i);
        if byte < CONTINUES {
            return Ok((number, i + 1));
        }
    }
    if bytes.len() <= GOING_ON {
        return Err(Error::unexpected_eof());
    }
    let last = bytes[GOING_ON];
    if last > GREATEST_LAST {
        return Err(Error::Io(ErrorKind::InvalidData));
    }
    Ok((number + ((last as u64) << 63), MAX_VAR_U64_LEN))
}

/// Reads what `encode_var_i64` writes. Fails as `decode_var_u64` does.
#[tactic(auto, unfolding(crate::specs::Number::var_i64_at))]
#[inline]
pub fn decode_var_i64(source: &mut BytesSlice<'_>) -> Result<i64>
    ensures decodes { Decodes IsVarI64 result source.old.now source.new.now }
    ensures short { IsShort result ↔ EndsFirst source.old.now }
    ensures invalid { IsInvalid result ↔ RunsOver source.old.now }
    ensures exact { ReadsAs result source.old.now source.new.now (var_i64_at source.old.now) }
{
    Ok(from_zigzag(decode_var_u64(source)?))
}

/// The shortest spelling of the number, at the front of the array, and how many bytes it takes.
#[inline]
pub fn spell_var_u64(number: u64) -> ([u8; MAX_VAR_U64_LEN], usize)
    ensures within { result.1 ≤ 10 }
    ensures bytes { take result.1 result.0 ≡ var_u64_bytes number }
    ensures spelled { IsShortest IsVarU64 (var_u64_bytes number) number }
{
    let mut bytes = [0; MAX_VAR_U64_LEN];
    let mut len = 0;
    let mut rest = number;
    while rest >= CONTINUES as u64 {
        bytes[len] = (rest & 0x7f) as u8 | CONTINUES;
        rest >>= 7;
        len += 1;
    }
    bytes[len] = rest as u8;
    (bytes, len + 1)
}
