//! Signed numbers as unsigned ones.

ghost use Rattle.std.specs.Prelude.{◌≡◌};
ghost use Rattle.raft_log_record_base.specs.Number.{above_least, steps_above_least, zigzag, from_zigzag};

const SIGN_BIT: u64 = 1 << 63;

/// The signed number at this place in the order of signed numbers, where the least one has place 0.
#[inline]
pub fn from_order(place: u64) -> i64
    ensures { result ≡ above_least place }
{
    (place ^ SIGN_BIT).cast_signed()
}

/// The number's place in the order of signed numbers, where the least one has place 0.
#[inline]
pub fn to_order(number: i64) -> u64
    ensures { result ≡ steps_above_least number }
{
    number.cast_unsigned() ^ SIGN_BIT
}

/// The signed number that is written as this number: 0, -1, 1, -2, 2 and so on.
#[inline]
pub fn from_zigzag(number: u64) -> i64
    ensures { result ≡ from_zigzag number }
{
    let half = (number / 2) as i64;
    if number % 2 == 0 { half } else { !half }
}

/// The number that a signed number is written as: `2v` if `v` is at least 0, else `-2v - 1`.
#[inline]
pub fn to_zigzag(number: i64) -> u64
    ensures { result ≡ zigzag number }
{
    if number < 0 {
        2 * (!number as u64) + 1
    } else {
        2 * number as u64
    }
}
