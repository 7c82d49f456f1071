//! Writes numbers to any writer.

ghost use Rattle.std.specs.Prelude.{IfErr};
ghost use Rattle.raft_log_record_base.specs.Number.{
  IsU16,
  IsU16Le,
  IsU32,
  IsU32Le,
  IsU64,
  IsU64Le,
  IsU64Desc,
  IsI64,
  IsI64Desc,
  IsI64Le,
  IsI32Le,
  IsVarU64,
  IsVarI64,
  IsShortest,
  IsWriteFault,
  AddsTheseBytes,
  u16_bytes,
  u16_le_bytes,
  u32_bytes,
  u32_le_bytes,
  u64_bytes,
  u64_le_bytes,
  u64_desc_bytes,
  i64_bytes,
  i64_desc_bytes,
  i64_le_bytes,
  i32_le_bytes,
  var_u64_bytes,
  var_i64_bytes,
};

use super::error::Result;
use super::signed::{to_order, to_zigzag};
use super::variable::spell_var_u64;
use std::io::Write;

/// Writes numbers to any writer. The only errors are the writer's; if a call fails, a part of the number may be
/// written.
pub trait NumberEncoder: Write {
    /// Writes eight bytes with the sign bit flipped, the highest first: bytes compare as the numbers do.
    #[tactic(auto, unfolding(crate::specs::Number::u64_bytes))]
    final fn encode_i64(&mut self, v: i64) -> Result<()>
    where
        Self: Sized,
        ensures ok { AddsTheseBytes result (Self.contents self.old) (Self.contents self.new) (i64_bytes v) }
        ensures err { IfErr result IsWriteFault }
        ensures spelled { IsI64 (i64_bytes v) v }
    {
        self.write_all(&to_order(v).to_be_bytes())?;
        Ok(())
    }

    /// Writes the complement of `encode_i64`: greater numbers come first.
    #[tactic(auto, unfolding(crate::specs::Number::u64_bytes))]
    final fn encode_i64_desc(&mut self, v: i64) -> Result<()>
    where
        Self: Sized,
        ensures ok { AddsTheseBytes result (Self.contents self.old) (Self.contents self.new) (i64_desc_bytes v) }
        ensures err { IfErr result IsWriteFault }
        ensures spelled { IsI64Desc (i64_desc_bytes v) v }
    {
        self.write_all(&(!to_order(v)).to_be_bytes())?;
        Ok(())
    }

    /// Writes eight bytes, the highest first.
    #[tactic(auto, unfolding(crate::specs::Number::u64_bytes))]
    final fn encode_u64(&mut self, v: u64) -> Result<()>
    where
        Self: Sized,
        ensures ok { AddsTheseBytes result (Self.contents self.old) (Self.contents self.new) (u64_bytes v) }
        ensures err { IfErr result IsWriteFault }
        ensures spelled { IsU64 (u64_bytes v) v }
    {
        self.write_all(&v.to_be_bytes())?;
        Ok(())
    }

    /// Writes the complement of `encode_u64`: greater numbers come first.
    #[tactic(auto, unfolding(crate::specs::Number::u64_bytes))]
    final fn encode_u64_desc(&mut self, v: u64) -> Result<()>
    where
        Self: Sized,
        ensures ok { AddsTheseBytes result (Self.contents self.old) (Self.contents self.new) (u64_desc_bytes v) }
        ensures err { IfErr result IsWriteFault }
        ensures spelled { IsU64Desc (u64_desc_bytes v) v }
    {
        self.write_all(&(!v).to_be_bytes())?;
        Ok(())
    }

    /// Writes four bytes, the highest first.
    #[tactic(auto, unfolding(crate::specs::Number::u32_bytes))]
    final fn encode_u32(&mut self, v: u32) -> Result<()>
    where
        Self: Sized,
        ensures ok { AddsTheseBytes result (Self.contents self.old) (Self.contents self.new) (u32_bytes v) }
        ensures err { IfErr result IsWriteFault }
        ensures spelled { IsU32 (u32_bytes v) v }
    {
        self.write_all(&v.to_be_bytes())?;
        Ok(())
    }

    /// Writes two bytes, the highest first.
    #[tactic(auto, unfolding(crate::specs::Number::u16_bytes))]
    final fn encode_u16(&mut self, v: u16) -> Result<()>
    where
        Self: Sized,
        ensures ok { AddsTheseBytes result (Self.contents self.old) (Self.contents self.new) (u16_bytes v) }
        ensures err { IfErr result IsWriteFault }
        ensures spelled { IsU16 (u16_bytes v) v }
    {
        self.write_all(&v.to_be_bytes())?;
        Ok(())
    }

    /// Writes two bytes, the lowest first.
    #[tactic(auto, unfolding(crate::specs::Number::u16_le_bytes))]
    final fn encode_u16_le(&mut self, v: u16) -> Result<()>
    where
        Self: Sized,
        ensures ok { AddsTheseBytes result (Self.contents self.old) (Self.contents self.new) (u16_le_bytes v) }
        ensures err { IfErr result IsWriteFault }
        ensures spelled { IsU16Le (u16_le_bytes v) v }
    {
        self.write_all(&v.to_le_bytes())?;
        Ok(())
    }

    /// Writes four bytes, the lowest first.
    #[tactic(auto, unfolding(crate::specs::Number::u32_le_bytes))]
    final fn encode_u32_le(&mut self, v: u32) -> Result<()>
    where
        Self: Sized,
        ensures ok { AddsTheseBytes result (Self.contents self.old) (Self.contents self.new) (u32_le_bytes v) }
        ensures err { IfErr result IsWriteFault }
        ensures spelled { IsU32Le (u32_le_bytes v) v }
    {
        self.write_all(&v.to_le_bytes())?;
        Ok(())
    }

    /// Writes four bytes in two's complement, the lowest first.
    #[tactic(auto, unfolding(crate::specs::Number::u32_le_bytes))]
    final fn encode_i32_le(&mut self, v: i32) -> Result<()>
    where
        Self: Sized,
        ensures ok { AddsTheseBytes result (Self.contents self.old) (Self.contents self.new) (i32_le_bytes v) }
        ensures err { IfErr result IsWriteFault }
        ensures spelled { IsI32Le (i32_le_bytes v) v }
    {
        self.write_all(&v.cast_unsigned().to_le_bytes())?;
        Ok(())
    }

    /// Writes eight bytes in two's complement, the lowest first.
    #[tactic(auto, unfolding(crate::specs::Number::u64_le_bytes))]
    final fn encode_i64_le(&mut self, v: i64) -> Result<()>
    where
        Self: Sized,
        ensures ok { AddsTheseBytes result (Self.contents self.old) (Self.contents self.new) (i64_le_bytes v) }
        ensures err { IfErr result IsWriteFault }
        ensures spelled { IsI64Le (i64_le_bytes v) v }
    {
        self.write_all(&v.cast_unsigned().to_le_bytes())?;
        Ok(())
    }

    /// Writes eight bytes, the lowest first.
    #[tactic(auto, unfolding(crate::specs::Number::u64_le_bytes))]
    final fn encode_u64_le(&mut self, v: u64) -> Result<()>
    where
        Self: Sized,
        ensures ok { AddsTheseBytes result (Self.contents self.old) (Self.contents self.new) (u64_le_bytes v) }
        ensures err { IfErr result IsWriteFault }
        ensures spelled { IsU64Le (u64_le_bytes v) v }
    {
        self.write_all(&v.to_le_bytes())?;
        Ok(())
    }

    /// Writes seven bits a byte, the lowest first, with the top bit set on all bytes but the last.
    final fn encode_var_u64(&mut self, v: u64) -> Result<()>
    where
        Self: Sized,
        ensures ok { AddsTheseBytes result (Self.contents self.old) (Self.contents self.new) (var_u64_bytes v) }
        ensures err { IfErr result IsWriteFault }
        ensures spelled { IsShortest IsVarU64 (var_u64_bytes v) v }
    {
        let (bytes, len) = spell_var_u64(v);
        self.write_all(&bytes[..len])?;
        Ok(())
    }

    /// Writes `2v` if `v` is at least 0, else `-2v - 1`, as `encode_var_u64` does.
    final fn encode_var_i64(&mut self, v: i64) -> Result<()>
    where
        Self: Sized,
        ensures ok { AddsTheseBytes result (Self.contents self.old) (Self.contents self.new) (var_i64_bytes v) }
        ensures err { IfErr result IsWriteFault }
        ensures spelled { IsShortest IsVarI64 (var_i64_bytes v) v }
    {
        self.encode_var_u64(to_zigzag(v))
    }
}

impl<W: Write> NumberEncoder for W {}
