//! Reads fixed numbers from the front of bytes.
//!
//! Each function consumes the bytes of its number. If there are too few bytes, it fails with `UnexpectedEof` and
//! consumes none.

ghost use Rattle.std.specs.Prelude.{◌≡◌, ◌<◌, ◌↔◌, [], length, Err};
ghost use Rattle.std.specs.Int.{w16, w32, w64};
ghost use Rattle.raft_log_record_base.specs.Grammar.{ReadsAs, Decodes};
ghost use Rattle.raft_log_record_base.specs.Number.{
  IsByte,
  IsU16,
  IsU16Le,
  IsU32,
  IsU32Le,
  IsU64,
  IsU64Le,
  IsU64Desc,
  IsI64,
  IsI64Desc,
  IsI64Le,
  IsI32Le,
  IsShort,
  above_least,
  front_at,
  byte_at_front,
  high_first_at,
  low_first_at,
  u64_desc_at,
  i64_at,
  i64_desc_at,
  i64_le_at,
  i32_le_at,
};

use super::error::{BytesSlice, Error, Result};
use super::signed::from_order;

/// The next bytes, as many as the array holds.
#[inline]
fn split_front<const N: usize>(source: &mut BytesSlice<'_>) -> Result<[u8; N]>
    ensures { ReadsAs result source.old.now source.new.now (front_at N source.old.now) }
{
    match source.split_first_chunk::<N>() {
        Some((front, rest)) => {
            let front = *front;
            *source = rest;
            Ok(front)
        }
        None => Err(Error::unexpected_eof()),
    }
}

/// Reads one byte.
#[inline]
pub fn read_u8(source: &mut BytesSlice<'_>) -> Result<u8>
    ensures decodes { Decodes IsByte result source.old.now source.new.now }
    ensures short { IsShort result ↔ (length source.old.now < 1) }
    ensures exact { ReadsAs result source.old.now source.new.now (byte_at_front source.old.now) }
{
    match *source {
        [byte, rest @ ..] => {
            *source = rest;
            Ok(*byte)
        }
        [] => Err(Error::unexpected_eof()),
    }
}

/// Reads a number of eight bytes, the highest first.
#[inline]
pub fn decode_u64(source: &mut BytesSlice<'_>) -> Result<u64>
    ensures decodes { Decodes IsU64 result source.old.now source.new.now }
    ensures short { IsShort result ↔ (length source.old.now < 8) }
    ensures exact { ReadsAs result source.old.now source.new.now (high_first_at w64 source.old.now) }
{
    Ok(u64::from_be_bytes(split_front(source)?))
}

/// Reads what `encode_u64_desc` writes: the complement of every bit.
#[inline]
pub fn decode_u64_desc(source: &mut BytesSlice<'_>) -> Result<u64>
    ensures decodes { Decodes IsU64Desc result source.old.now source.new.now }
    ensures short { IsShort result ↔ (length source.old.now < 8) }
    ensures exact { ReadsAs result source.old.now source.new.now (u64_desc_at source.old.now) }
{
    Ok(!decode_u64(source)?)
}

/// Reads what `encode_i64` writes: the sign bit is flipped, so that the order of bytes is the order of
/// numbers.
#[inline]
pub fn decode_i64(source: &mut BytesSlice<'_>) -> Result<i64>
    ensures decodes { Decodes IsI64 result source.old.now source.new.now }
    ensures short { IsShort result ↔ (length source.old.now < 8) }
    ensures exact { ReadsAs result source.old.now source.new.now (i64_at source.old.now) }
{
    Ok(from_order(decode_u64(source)?))
}

/// Reads what `encode_i64_desc` writes: the complement of `encode_i64`.
#[inline]
pub fn decode_i64_desc(source: &mut BytesSlice<'_>) -> Result<i64>
    ensures decodes { Decodes IsI64Desc result source.old.now source.new.now }
    ensures short { IsShort result ↔ (length source.old.now < 8) }
    ensures exact { ReadsAs result source.old.now source.new.now (i64_desc_at source.old.now) }
{
    Ok(from_order(decode_u64_desc(source)?))
}

/// Reads a number of four bytes, the highest first.
#[inline]
pub fn decode_u32(source: &mut BytesSlice<'_>) -> Result<u32>
    ensures decodes { Decodes IsU32 result source.old.now source.new.now }
    ensures short { IsShort result ↔ (length source.old.now < 4) }
    ensures exact { ReadsAs result source.old.now source.new.now (high_first_at w32 source.old.now) }
{
    Ok(u32::from_be_bytes(split_front(source)?))
}

/// Reads a number of two bytes, the highest first.
#[inline]
pub fn decode_u16(source: &mut BytesSlice<'_>) -> Result<u16>
    ensures decodes { Decodes IsU16 result source.old.now source.new.now }
    ensures short { IsShort result ↔ (length source.old.now < 2) }
    ensures exact { ReadsAs result source.old.now source.new.now (high_first_at w16 source.old.now) }
{
    Ok(u16::from_be_bytes(split_front(source)?))
}

/// Reads a number of eight bytes, the lowest first.
#[inline]
pub fn decode_u64_le(source: &mut BytesSlice<'_>) -> Result<u64>
    ensures decodes { Decodes IsU64Le result source.old.now source.new.now }
    ensures short { IsShort result ↔ (length source.old.now < 8) }
    ensures exact { ReadsAs result source.old.now source.new.now (low_first_at w64 source.old.now) }
{
    Ok(u64::from_le_bytes(split_front(source)?))
}

/// Reads a number of four bytes, the lowest first.
#[inline]
pub fn decode_u32_le(source: &mut BytesSlice<'_>) -> Result<u32>
    ensures decodes { Decodes IsU32Le result source.old.now source.new.now }
    ensures short { IsShort result ↔ (length source.old.now < 4) }
    ensures exact { ReadsAs result source.old.now source.new.now (low_first_at w32 source.old.now) }
{
    Ok(u32::from_le_bytes(split_front(source)?))
}

/// Reads a number of two bytes, the lowest first.
#[inline]
pub fn decode_u16_le(source: &mut BytesSlice<'_>) -> Result<u16>
    ensures decodes { Decodes IsU16Le result source.old.now source.new.now }
    ensures short { IsShort result ↔ (length source.old.now < 2) }
    ensures exact { ReadsAs result source.old.now source.new.now (low_first_at w16 source.old.now) }
{
    Ok(u16::from_le_bytes(split_front(source)?))
}

/// Reads a signed number of eight bytes in two's complement, the lowest first.
#[inline]
pub fn decode_i64_le(source: &mut BytesSlice<'_>) -> Result<i64>
    ensures decodes { Decodes IsI64Le result source.old.now source.new.now }
    ensures short { IsShort result ↔ (length source.old.now < 8) }
    ensures exact { ReadsAs result source.old.now source.new.now (i64_le_at source.old.now) }
{
    Ok(decode_u64_le(source)?.cast_signed())
}

/// Reads a signed number of four bytes in two's complement, the lowest first.
#[inline]
pub fn decode_i32_le(source: &mut BytesSlice<'_>) -> Result<i32>
    ensures decodes { Decodes IsI32Le result source.old.now source.new.now }
    ensures short { IsShort result ↔ (length source.old.now < 4) }
    ensures exact { ReadsAs result source.old.now source.new.now (i32_le_at source.old.now) }
{
    Ok(decode_u32_le(source)?.cast_signed())
}
