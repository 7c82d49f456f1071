//! Reads a size from the front of a text: a number, then a unit.

ghost use Rattle.std.specs.Prelude.{◌≡◌, ◌^◌, ◌≤◌, MatchOption};
ghost use Rattle.raft_log_record_base.specs.Size.{GivesSize, number_in, unit_size, power_of, size_in};

use super::{B, GIB, KIB, MIB, PIB, ParseSizeError, ReadableSize, TIB};

/// The size that the whole text spells.
#[tactic(auto, unfolding(crate::specs::Size::size_in))]
pub fn size_in(text: &[u8]) -> Result<ReadableSize, ParseSizeError>
    ensures { GivesSize result (size_in text.now) }
{
    match text {
        [first, ..] if first.is_ascii_digit() => {
            let (number, unit) = number_in(text).ok_or(ParseSizeError::TooLarge)?;
            let unit = unit_size(unit).ok_or(ParseSizeError::UnknownUnit)?;
            let size = number.checked_mul(unit).ok_or(ParseSizeError::TooLarge)?;
            Ok(ReadableSize(size))
        }
        _ => Err(ParseSizeError::NoNumber),
    }
}

/// The number that the digits at the front spell, if it fits, and the text after them.
fn number_in(text: &[u8]) -> Option<(u64, &[u8])>
    ensures { MatchOption result (2 ^ 64 ≤ (number_in 0 text.now).0)
        (λ p. number_in 0 text.now ≡ (p.0, p.1.now)) }
{
    let mut number: u64 = 0;
    for (i, byte) in text.iter().enumerate() {
        if !byte.is_ascii_digit() {
            return Some((number, &text[i..]));
        }
        number = number.checked_mul(10)?.checked_add((*byte - b'0') as u64)?;
    }
    Some((number, &[]))
}

/// How many bytes the unit has.
#[tactic(auto, unfolding(crate::specs::Size::unit_size))]
fn unit_size(unit: &[u8]) -> Option<u64>
    ensures { result ≡ unit_size unit.now }
{
    match unit {
        [] | [b'B'] => Some(B),
        [letter] | [letter, b'B'] | [letter, b'i', b'B'] => power_of(*letter),
        _ => None,
    }
}

/// How many bytes the unit of this letter has.
fn power_of(letter: u8) -> Option<u64>
    ensures { result ≡ power_of letter }
{
    match letter {
        b'K' => Some(KIB),
        b'M' => Some(MIB),
        b'G' => Some(GIB),
        b'T' => Some(TIB),
        b'P' => Some(PIB),
        _ => None,
    }
}
