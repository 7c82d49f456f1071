//! Sizes in bytes, with units that are powers of 1,024.

ghost use Rattle.std.specs.Prelude.{◌≡◌, ◌*◌, ◌/◌, ◌^◌, ◌<◌, Some};
ghost use Rattle.raft_log_record_base.specs.declared.size.ReadableSize.{ReadableSize};

mod text;

use std::fmt;
use std::ops::{Div, Mul};
use std::str::FromStr;

/// One byte.
pub const B: u64 = 1;

/// 1,024 bytes.
pub const KIB: u64 = 1024;

/// 1,024 KiB.
pub const MIB: u64 = 1024 * KIB;

/// 1,024 MiB.
pub const GIB: u64 = 1024 * MIB;

/// 1,024 GiB.
pub const TIB: u64 = 1024 * GIB;

/// 1,024 TiB.
pub const PIB: u64 = 1024 * TIB;

/// A size in bytes. It prints as a number of the greatest unit of `PiB`, `TiB`, `GiB`, `MiB` and `KiB` that divides it,
/// else with `B`; 0 prints as `0KiB`. It is read from a whole number, directly followed by a unit: nothing, `B`, `K`,
/// `KB`, `KiB`, and the same three forms of `M`, `G`, `T` and `P`. White space before and after is skipped.
#[derive(Clone, Copy, Debug, PartialEq, Eq, PartialOrd, Ord)]
pub struct ReadableSize(pub u64);

/// Why a text is no size.
#[derive(Clone, Copy, Debug, PartialEq, Eq)]
pub enum ParseSizeError {
    /// The text doesn't begin with a digit.
    NoNumber,
    /// What follows the digits is no unit.
    UnknownUnit,
    /// The size doesn't fit 64 bits.
    TooLarge,
}

impl ReadableSize {
    /// `count` times 1,024 bytes, which must be below 2^64.
    pub const fn kb(count: u64) -> ReadableSize
        requires { count * 2 ^ 10 < 2 ^ 64 }
        ensures { result.0 ≡ count * 2 ^ 10 }
    {
        ReadableSize(count * KIB)
    }

    /// `count` times 1,024 KiB, which must be below 2^64 bytes.
    pub const fn mb(count: u64) -> ReadableSize
        requires { count * 2 ^ 20 < 2 ^ 64 }
        ensures { result.0 ≡ count * 2 ^ 20 }
    {
        ReadableSize(count * MIB)
    }

    /// `count` times 1,024 MiB, which must be below 2^64 bytes.
    pub const fn gb(count: u64) -> ReadableSize
        requires { count * 2 ^ 30 < 2 ^ 64 }
        ensures { result.0 ≡ count * 2 ^ 30 }
    {
        ReadableSize(count * GIB)
    }

    /// The size in MiB, rounded down.
    pub const fn as_mb(self) -> u64
        ensures { result ≡ self.0 / 2 ^ 20 }
    {
        self.0 / MIB
    }
}

impl Div<u64> for ReadableSize {
    type Output = ReadableSize;

    ghost can_div = { λ _ n. 0 < n };

    ghost div_gives = { λ s n r. r.0 ≡ s.0 / n };

    fn div(self, rhs: u64) -> ReadableSize {
        ReadableSize(self.0 / rhs)
    }
}

impl Div<ReadableSize> for ReadableSize {
    type Output = u64;

    ghost can_div = { λ _ t. 0 < t.0 };

    ghost div_gives = { λ s t r. r ≡ s.0 / t.0 };

    fn div(self, rhs: ReadableSize) -> u64 {
        self.0 / rhs.0
    }
}

impl Mul<u64> for ReadableSize {
    type Output = ReadableSize;

    ghost can_mul = { λ s n. s.0 * n < 2 ^ 64 };

    ghost mul_gives = { λ s n r. r.0 ≡ s.0 * n };

    fn mul(self, rhs: u64) -> ReadableSize {
        ReadableSize(self.0 * rhs)
    }
}

impl fmt::Display for ReadableSize {
    ghost use Rattle.raft_log_record_base.specs.Size.{size_text};

    ghost output = { λ s. Some (size_text s.0) };

    #[tactic(auto, unfolding(crate::specs::Size::size_text))]
    fn fmt<W: fmt::Write>(&self, f: &mut fmt::Formatter<W>) -> fmt::Result {
        let size = self.0;
        if size == 0 {
            write!(f, "0KiB")
        } else if size % PIB == 0 {
            write!(f, "{}PiB", size / PIB)
        } else if size % TIB == 0 {
            write!(f, "{}TiB", size / TIB)
        } else if size % GIB == 0 {
            write!(f, "{}GiB", size / GIB)
        } else if size % MIB == 0 {
            write!(f, "{}MiB", size / MIB)
        } else if size % KIB == 0 {
            write!(f, "{}KiB", size / KIB)
        } else {
            write!(f, "{size}B")
        }
    }
}

impl fmt::Display for ParseSizeError {
    ghost use Rattle.raft_log_record_base.specs.Text.{size_fault_text};

    ghost output = { size_fault_text };

    fn fmt<W: fmt::Write>(&self, f: &mut fmt::Formatter<W>) -> fmt::Result {
        match self {
            ParseSizeError::NoNumber => write!(f, "a size begins with a whole number"),
            ParseSizeError::UnknownUnit => write!(
                f,
                "the unit of a size is B, KiB, MiB, GiB, TiB or PiB"
            ),
            ParseSizeError::TooLarge => write!(f, "a size fits 64 bits"),
        }
    }
}

impl std::error::Error for ParseSizeError {}

impl FromStr for ReadableSize {
    ghost use Rattle.raft_log_record_base.specs.Size.{ReadsSize};

    type Err = ParseSizeError;

    ghost from_str_gives = { λ text result. ReadsSize text result };

    fn from_str(text: &str) -> Result<ReadableSize, ParseSizeError> {
        text::size_in(text.trim().as_bytes())
    }
}
