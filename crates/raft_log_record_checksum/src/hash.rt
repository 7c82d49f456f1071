//! A hash of numbers with an inverse: the last steps of splitmix64.

ghost use Rattle.std.specs.Prelude.{◌≡◌, ℕ, ◌^◌, ◌<◌, ◌≤◌};
ghost use Rattle.raft_log_record_checksum.specs.Hash.{fold_down, hash_of};

const FIRST_FACTOR: u64 = 0xBF58476D1CE4E5B9;

const SECOND_FACTOR: u64 = 0x94D049BB133111EB;

/// Its product with `FIRST_FACTOR` is 1, in 64 bits.
const FIRST_INVERSE: u64 = 0x96DE1B173F119089;

/// Its product with `SECOND_FACTOR` is 1, in 64 bits.
const SECOND_INVERSE: u64 = 0x319642B2D24D8EC3;

/// The hash of a number.
#[tactic(auto, unfolding(crate::specs::Hash::hash_of))]
#[inline]
pub fn hash_u64(number: u64) -> u64
    ensures { result ≡ hash_of number }
{
    let number = (number ^ (number >> 30)).wrapping_mul(FIRST_FACTOR);
    let number = (number ^ (number >> 27)).wrapping_mul(SECOND_FACTOR);
    number ^ (number >> 31)
}

/// The number below 2^64 that has this hash.
#[inline]
pub fn unhash_u64(hash: u64) -> u64
    ensures { (number : ℕ) → number < 2 ^ 64 → hash ≡ hash_of number → result ≡ number }
{
    let number = unfold_down(hash, 31).wrapping_mul(SECOND_INVERSE);
    let number = unfold_down(number, 27).wrapping_mul(FIRST_INVERSE);
    unfold_down(number, 30)
}

/// The number whose xor with itself, shifted right by `bits`, is `folded`.
#[inline]
fn unfold_down(folded: u64, bits: u32) -> u64
    requires least { 22 ≤ bits }
    requires greatest { bits < 32 }
    ensures { (number : ℕ) → number < 2 ^ 64 → folded ≡ fold_down bits number → result ≡ number }
{
    folded ^ (folded >> bits) ^ (folded >> (2 * bits))
}
