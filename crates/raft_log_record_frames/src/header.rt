//! Reads the header of a record, and its entry block.
ghost use Rattle.std.specs.Prelude.{◌≡◌, drop, IsOk, IfOk, OnOk};
ghost use Rattle.raft_log_record_base.specs.Fault.{GivesOrMemory, ReadsOrMemory};
ghost use Rattle.raft_log_record_frames.specs.Record.{IsInside, header_of, header_at, block_of, GivesSlice};

use raft_log_record_base::codec;
use raft_log_record_base::codec::BytesSlice;
use raft_log_record_checksum::crc32;
use raft_log_record_items::{CompressionType, Error, Result};
use std::alloc::Global;

/// The length of a header in bytes.
pub const LOG_BATCH_HEADER_LEN: usize = 16;

/// The length of a checksum in bytes.
pub(crate) const LOG_BATCH_CHECKSUM_LEN: usize = 4;

/// Decodes the two words of a header.
#[tactic(auto, unfolding(crate::specs::Record::header_of))]
fn read_words(alloc: Global, word: u64, offset: u64) -> Result<(usize, CompressionType, usize)>
    ensures exact { GivesOrMemory result (header_of word offset) }
    ensures sure { IsOk (header_of word offset) → IsOk result }
    ensures inside { IfOk result (λ header. IsInside header) }
{
    let kind = (word % 256) as u8;
    if kind != 0 {
        return Err(Error::Corruption(format!(in alloc; "Unsupported compression type: {kind}")?));
    }
    if offset < LOG_BATCH_HEADER_LEN as u64 {
        return Err(Error::Corruption(format!(in alloc;
            "Log batch footer inside the header: {offset}"
        )?));
    }
    let len = word / 256;
    if offset > len {
        return Err(Error::Corruption(format!(in alloc;
            "Log batch footer past the end: {offset}"
        )?));
    }
    Ok((offset as usize, CompressionType::None, len as usize))
}

/// Reads the header of a record: the offset of its footer, the compression of its entry block, and its length, the
/// first and the last counted from the record's start. Takes sixteen bytes, or none if it fails.
///
/// Fails with `Corruption` for the first of these: fewer than 16 bytes, an unknown compression, a footer that begins
/// inside the header, and one that begins past the record's end. Only an error's text takes memory, so a good header is
/// always returned.
#[tactic(auto, unfolding(crate::specs::Record::header_at))]
pub fn decode_header(
    alloc: Global,
    source: &mut BytesSlice<'_>,
) -> Result<(usize, CompressionType, usize)>
    ensures exact { ReadsOrMemory result source.old.now source.new.now (header_at source.old.now) }
    ensures sure { IsOk (header_at source.old.now) → IsOk result }
    ensures inside { IfOk result (λ header. IsInside header) }
    ensures taken { OnOk result (source.new.now ≡ drop 16 source.old.now) }
{
    let mut rest: &[u8] = *source;
    if rest.len() < LOG_BATCH_HEADER_LEN {
        let len = rest.len();
        return Err(Error::Corruption(format!(in alloc; "Log batch header too short: {len}")?));
    }
    let word = codec::decode_u64(&mut rest)?;
    let offset = codec::decode_u64(&mut rest)?;
    let header = read_words(alloc, word, offset)?;
    *source = rest;
    Ok(header)
}

/// The entries' bytes of a whole entry block, which are not copied. No bytes are a block without entries. Fails with
/// `Corruption` for one to three bytes and for a wrong checksum. The checksum of no bytes is a block too, which is
/// never written. Only an error's text takes memory, so a good block is always returned.
#[tactic(auto, unfolding(crate::specs::Record::block_of))]
pub fn decode_entries_block<'a>(
    alloc: Global,
    block: &'a [u8],
    compression: CompressionType,
) -> Result<&'a [u8]>
    ensures exact { GivesSlice result (block_of block.now) }
    ensures sure { IsOk (block_of block.now) → IsOk result }
{
    let CompressionType::None = compression;
    let len = block.len();
    if len == 0 {
        return Ok(block);
    }
    if len < LOG_BATCH_CHECKSUM_LEN {
        return Err(Error::Corruption(format!(in alloc; "Entry block too short: {len}")?));
    }
    let (entries, mut checksum) = block.split_at(len - LOG_BATCH_CHECKSUM_LEN);
    if codec::decode_u32_le(&mut checksum)? != crc32(entries) {
        return Err(Error::Corruption(format!(in alloc; "Entry block checksum mismatch")?));
    }
    Ok(entries)
}
