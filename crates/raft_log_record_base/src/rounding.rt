//! Multiples of an alignment.

ghost use Rattle.std.specs.Prelude.{◌≡◌, ℕ, ◌+◌, ◌-◌, ◌*◌, ◌/◌, ◌^◌, ◌<◌, ◌≤◌};

/// The least multiple of `alignment` that is not below `offset`. `alignment` must not be 0, and the multiple must be
/// below 2^64.
#[inline]
pub fn round_up(offset: usize, alignment: usize) -> usize
    requires positive { 0 < alignment }
    requires fits { (offset + alignment - 1) / alignment * alignment < 2 ^ 64 }
    ensures multiple { (count : ℕ) × (result ≡ count * alignment) }
    ensures not_below { offset ≤ result }
    ensures nearest { result < offset + alignment }
{
    offset.div_ceil(alignment) * alignment
}

/// The greatest multiple of `alignment` that is not above `offset`. `alignment` must not be 0.
#[inline]
pub fn round_down(offset: usize, alignment: usize) -> usize
    requires { 0 < alignment }
    ensures multiple { (count : ℕ) × (result ≡ count * alignment) }
    ensures not_above { result ≤ offset }
    ensures nearest { offset < result + alignment }
{
    offset / alignment * alignment
}
