//! The CRC of long inputs, computed by folding bytes forward.
//!
//! The polynomial of the CRC divides x³⁰⁰ + x¹⁵⁵ + x¹¹⁷ + x⁸⁹ + 1. It also divides the eighth power of this, which over
//! bits is the same sum with x⁸ for x. A byte therefore counts in the register just as it does in four later places
//! together: 145, 183, 211 and 300 bytes after its own (300 minus 155, 117, 89 and 0). A byte may be taken out of the
//! input if it is xored into those four, and then no table is read for it.
//!
//! Each folded byte is the byte of the input, xored with the folded bytes at these four distances before it. Many
//! folded bytes can be computed side by side. What they owe to the last bytes of the input is xored into these, which
//! are then read through the tables. This is Sam Russell's method (Chorba), by bytes in place of words.

ghost use Rattle.std.specs.Prelude.{◌≡◌, ℕ, ◌*◌, ◌-◌, ◌≤◌, length, take, bit_xor};
ghost use Rattle.raft_log_record_checksum.specs.Checksum.{crc_bits, crc_after};
ghost use Rattle.raft_log_record_checksum.specs.Folding.{owed};

use super::after_short;

/// How many bytes after a byte the last of its four places is.
const REACH: usize = 300;

/// The bytes that are folded before the window moves on.
const PART: usize = 2048;

/// The bytes of a window: the folded ones that are still owed, and the next ones.
const WINDOW: usize = 2348;

/// The register after the bytes. For few bytes `after_short` is faster.
#[inline(never)]
pub fn after_long(register: u32, bytes: &[u8]) -> u32
    ensures { result ≡ crc_after register bytes.now }
{
    match bytes.split_last_chunk::<REACH>() {
        None => after_short(register, bytes),
        Some((front, last)) => {
            let mut window = start(register);
            fold(&mut window, front);
            after_last(&window, last)
        }
    }
}

/// A window that owes the register.
fn start(register: u32) -> [u8; WINDOW]
    ensures { owed (take 300 result) ≡ crc_bits 2400 register }
{
    let mut window = [0; WINDOW];
    let [a, b, c, d] = register.to_le_bytes();
    window[0] = a;
    window[1] = b;
    window[2] = c;
    window[3] = d;
    window
}

/// Folds the bytes, and keeps what they owe at the front of the window.
fn fold(window: &mut [u8; WINDOW], bytes: &[u8])
    ensures { (register : ℕ)
        → owed (take 300 window.old) ≡ crc_bits 2400 register
        → owed (take 300 window.new) ≡ crc_bits 2400 (crc_after register bytes.now) }
{
    let (parts, rest) = bytes.as_chunks::<PART>();
    for part in parts {
        fold_part(window, part);
    }
    fold_part(window, rest);
}

/// Folds at most 2,048 bytes.
fn fold_part(window: &mut [u8; WINDOW], part: &[u8])
    requires { length part.now ≤ 2048 }
    ensures { (register : ℕ)
        → owed (take 300 window.old) ≡ crc_bits 2400 register
        → owed (take 300 window.new) ≡ crc_bits 2400 (crc_after register part.now) }
{
    for i in 0..part.len() {
        window[REACH + i] = part[i]
            ^ window[155 + i]
            ^ window[117 + i]
            ^ window[89 + i]
            ^ window[i];
    }
    window.copy_within(part.len()..part.len() + REACH, 0);
}

/// The register after the last bytes of the input. What is owed is xored into them first.
fn after_last(window: &[u8; WINDOW], last: &[u8; REACH]) -> u32
    ensures { (register : ℕ)
        → owed (take 300 window.now) ≡ crc_bits 2400 register
        → result ≡ crc_after register last.now }
{
    let mut bytes = *last;
    let folded = &window[..REACH];
    take_up(&mut bytes, &folded[155..]);
    take_up(&mut bytes, &folded[117..]);
    take_up(&mut bytes, &folded[89..]);
    take_up(&mut bytes, folded);
    after_short(0, &bytes)
}

/// Xors what is owed into the first of the bytes.
fn take_up(bytes: &mut [u8; REACH], owed: &[u8])
    requires { length owed.now ≤ 300 }
    ensures { crc_after 0 bytes.new
        ≡ bit_xor (crc_after 0 bytes.old) (crc_bits (8 * (300 - length owed.now)) (crc_after 0 owed.now)) }
{
    for i in 0..owed.len() {
        bytes[i] ^= owed[i];
    }
}
