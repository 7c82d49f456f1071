//! Makes the bytes of a record in the buffer that holds the entries' bytes after room for a header.
ghost use Rattle.std.specs.Prelude.{◌≡◌, ◌+◌, ◌-◌, ◌*◌, ◌≤◌, ◌<◌, ◌^◌, ◌++◌, length, take, drop, map, None, OnOk, OnErr, IfOk, IfErr};
ghost use Rattle.raft_log_record_base.specs.Number.{u32_le_bytes};
ghost use Rattle.raft_log_record_checksum.specs.Checksum.{crc32_of};
ghost use Rattle.raft_log_record_items.specs.Items.{AreItems};
ghost use Rattle.raft_log_record_items.specs.Writing.{KeepsFront, items_bytes, plain_item};
ghost use Rattle.raft_log_record_frames.specs.Record.{header_bytes, block_bytes, footer_bytes, record_len};
ghost use Rattle.raft_log_record_frames.specs.Made.{MakesRecord, IsMemoryOrFull, IsPlainFooter, with_block};
ghost use Rattle.raft_log_record_frames.specs.Written.{AreBytes};

use crate::header::LOG_BATCH_HEADER_LEN;
use raft_log_record_base::codec::append_u32_le;
use raft_log_record_checksum::crc32;
use raft_log_record_items::items::append_items;
use raft_log_record_items::{Error, LogItem, Result};
use std::alloc::AllocError;

/// Each item of a slice of bytes is a byte, which contracts can't see through a model. It does nothing.
pub fn are_bytes(bytes: &[u8])
    ensures { AreBytes bytes.now }
{}

/// Overwrites the first sixteen bytes with a header.
#[tactic(auto, unfolding(crate::specs::Record::header_bytes, raft_log_record_base::specs::Number::u64_bytes))]
fn write_header(bytes: &mut [u8], len: u64, offset: u64)
    requires long { 16 ≤ length bytes.old }
    requires fits { 256 * len < 2 ^ 64 }
    ensures { bytes.new ≡ header_bytes len offset ++ drop 16 bytes.old }
{
    let (first, rest) = bytes.split_at_mut(8);
    first.copy_from_slice(&(256 * len).to_be_bytes());
    let (second, _) = rest.split_at_mut(8);
    second.copy_from_slice(&offset.to_be_bytes());
}

/// Overwrites the last four bytes, which must be there, with a checksum.
#[tactic(auto, unfolding(raft_log_record_base::specs::Number::u32_le_bytes))]
pub fn write_checksum(bytes: &mut [u8], checksum: u32)
    requires { 4 ≤ length bytes.old }
    ensures { bytes.new ≡ take (length bytes.old - 4) bytes.old ++ u32_le_bytes checksum }
{
    let at = bytes.len() - 4;
    let (_, last) = bytes.split_at_mut(at);
    last.copy_from_slice(&checksum.to_le_bytes());
}

/// Appends the checksum of the entries' bytes, if there are some.
#[tactic(auto, unfolding(crate::specs::Record::block_bytes))]
fn close_block(buf: &mut Vec<u8>) -> Result<(), AllocError>
    requires { 16 ≤ length buf.old.items }
    ensures ok { OnOk result (buf.new.items ≡ with_block buf.old.items) }
    ensures err { OnErr result (buf.new.items ≡ buf.old.items) }
{
    let entries = &buf[LOG_BATCH_HEADER_LEN..];
    if !entries.is_empty() {
        let checksum = crc32(entries);
        append_u32_le(buf, checksum)?;
    }
    Ok(())
}

/// Appends the unsigned footer of these items, without their places, and returns their checksum. If it fails, a part of
/// it may follow the old bytes.
#[tactic(auto, unfolding(crate::specs::Record::footer_bytes))]
pub fn append_footer(buf: &mut Vec<u8>, items: &[LogItem]) -> Result<u32, AllocError>
    ensures ok { OnOk result (buf.new.items ≡ buf.old.items ++ footer_bytes None items.now) }
    ensures sum { IfOk result (λ checksum. checksum ≡ crc32_of (items_bytes items.now)) }
    ensures spelled { OnOk result (AreItems (items_bytes items.now) (map plain_item items.now)) }
    ensures footer { OnOk result (IsPlainFooter (footer_bytes None items.now) items.now) }
    ensures err { OnErr result (KeepsFront buf.old.items buf.new.items) }
{
    let start = buf.len();
    append_items(buf, items)?;
    let checksum = crc32(&buf[start..]);
    append_u32_le(buf, checksum)?;
    Ok(checksum)
}

/// The most bytes of a record: its length has 56 bits.
const MAX_RECORD_LEN: u64 = (1 << 56) - 1;

/// Makes the record of the entries' bytes, which are in the buffer after room for the header, and of these items.
/// Returns the checksum of the items. The record isn't signed. Whether the entries' lengths add up to the bytes isn't
/// checked.
///
/// Fails with `Full` if the record would have 2^56 bytes or more, or with `Memory`. Then the old bytes are still there,
/// maybe with more after them.
pub fn fill_record(buf: &mut Vec<u8>, items: &[LogItem]) -> Result<u32>
    requires { 16 ≤ length buf.old.items }
    ensures ok { IfOk result (λ checksum. MakesRecord buf.old.items buf.new.items checksum items.now) }
    ensures err { OnErr result (KeepsFront buf.old.items buf.new.items) }
    ensures errors { IfErr result (λ e. IsMemoryOrFull e (record_len items.now (drop 16 buf.old.items))) }
{
    close_block(buf)?;
    let offset = buf.len();
    let checksum = append_footer(buf, items)?;
    let len = buf.len();
    if len as u64 > MAX_RECORD_LEN {
        return Err(Error::Full);
    }
    write_header(buf.as_mut_slice(), len as u64, offset as u64);
    Ok(checksum)
}
