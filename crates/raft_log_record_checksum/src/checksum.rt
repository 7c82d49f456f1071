//! CRC-32, the checksum of the log's formats, with the reflected polynomial `EDB88320` that zlib and Ethernet use.

mod few_zeros;
mod folding;
mod many_zeros;

ghost use Rattle.std.specs.Prelude.{◌≡◌, ◌+◌, ◌*◌, ◌<◌};
ghost use Rattle.std.specs.List.{concat};
ghost use Rattle.raft_log_record_checksum.specs.Checksum.{crc_bits, crc_after, crc32_of};

use few_zeros::AFTER_FEW;
use folding::after_long;
use many_zeros::AFTER_MANY;

/// What a byte leaves after fewer than eight zero bytes, and after eight or more. It is one table, so that the loop
/// over chunks needs one address.
const AFTER: [[[u32; 256]; 8]; 2] = [AFTER_FEW, AFTER_MANY];

/// The register's first value; the last value is xored with it.
const ALL_ONES: u32 = u32::MAX;

/// From this length on, folding is faster than table reads for each byte.
const LONG: usize = 768;

/// The CRC-32 of the bytes.
#[tactic(auto, unfolding(crate::specs::Checksum::crc32_of))]
pub fn crc32(bytes: &[u8]) -> u32
    ensures { result ≡ crc32_of bytes.now }
{
    after_all(ALL_ONES, bytes) ^ ALL_ONES
}

/// The register after the bytes.
fn after_all(register: u32, bytes: &[u8]) -> u32
    ensures { result ≡ crc_after register bytes.now }
{
    if bytes.len() < LONG {
        after_short(register, bytes)
    } else {
        after_long(register, bytes)
    }
}

/// The register after the bytes, computed with the tables.
fn after_short(register: u32, bytes: &[u8]) -> u32
    ensures { result ≡ crc_after register bytes.now }
{
    let (chunks, rest) = bytes.as_chunks::<16>();
    after_bytes(after_chunks(register, chunks), rest)
}

/// The register after the bytes of the chunks.
fn after_chunks(register: u32, chunks: &[[u8; 16]]) -> u32
    ensures { result ≡ crc_after register (concat chunks.now) }
{
    let mut register = register;
    for chunk in chunks {
        register = after_chunk(register, chunk);
    }
    register
}

/// The register after the bytes, one at a time.
fn after_bytes(register: u32, bytes: &[u8]) -> u32
    ensures { result ≡ crc_after register bytes.now }
{
    let mut register = register;
    for byte in bytes {
        register = (register >> 8) ^ after_few(0, (register & 0xff) as u8 ^ *byte);
    }
    register
}

/// The register after sixteen bytes. The register is xored into the first four of them, and then each byte counts by
/// itself. The bytes that don't need the register are computed first.
#[inline]
fn after_chunk(register: u32, chunk: &[u8; 16]) -> u32
    ensures { result ≡ crc_after register chunk.now }
{
    let [a, b, c, d, e, f, g, h, i, j, k, l, m, n, o, p] = *chunk;
    let later = after_middle_four([e, f, g, h]) ^ after_last_eight([i, j, k, l, m, n, o, p]);
    later ^ after_first_four(u32::from_le_bytes([a, b, c, d]) ^ register)
}

/// What four bytes, the lowest first, leave after twelve zero bytes.
#[inline]
fn after_first_four(word: u32) -> u32
    ensures { result ≡ crc_bits 128 word }
{
    let [a, b, c, d] = word.to_le_bytes();
    after_many(7, a) ^ after_many(6, b) ^ after_many(5, c) ^ after_many(4, d)
}

/// What four bytes leave after eight zero bytes.
#[inline]
fn after_middle_four(bytes: [u8; 4]) -> u32
    ensures { result ≡ crc_bits 64 (crc_after 0 bytes) }
{
    let [a, b, c, d] = bytes;
    after_many(3, a) ^ after_many(2, b) ^ after_many(1, c) ^ after_many(0, d)
}

/// What eight bytes leave.
#[inline]
fn after_last_eight(bytes: [u8; 8]) -> u32
    ensures { result ≡ crc_after 0 bytes }
{
    let [a, b, c, d, e, f, g, h] = bytes;
    after_few(7, a)
        ^ after_few(6, b)
        ^ after_few(5, c)
        ^ after_few(4, d)
        ^ after_few(3, e)
        ^ after_few(2, f)
        ^ after_few(1, g)
        ^ after_few(0, h)
}

/// What a byte leaves after `zeros` zero bytes.
#[inline(always)]
fn after_few(zeros: usize, byte: u8) -> u32
    requires { zeros < 8 }
    ensures { result ≡ crc_bits (8 * (zeros + 1)) byte }
{
    AFTER[0][zeros][byte as usize]
}

/// What a byte leaves after eight zero bytes and `zeros` more.
#[inline(always)]
fn after_many(zeros: usize, byte: u8) -> u32
    requires { zeros < 8 }
    ensures { result ≡ crc_bits (8 * (zeros + 9)) byte }
{
    AFTER[1][zeros][byte as usize]
}
