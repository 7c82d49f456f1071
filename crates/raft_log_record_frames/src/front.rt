//! Reads what is at the front of any bytes: a frame, which is a header and a footer that fit together, or a whole
//! record.
ghost use Rattle.raft_log_record_frames.specs.Record.{frame_at, record_at, GivesFront};

use crate::footer::decode_footer;
use crate::header::{LOG_BATCH_HEADER_LEN, decode_entries_block, decode_header};
use raft_log_record_items::{CompressionType, Error, LogItem, Result};
use std::alloc::Global;

/// The frame at the front of these bytes: its length, its items, and its entry block, which is neither checked nor
/// copied. What follows it doesn't matter.
///
/// Fails as `decode_header` does; else with `Corruption`, or `Memory`, if the record doesn't end within the bytes; else
/// as `decode_footer` does.
#[tactic(auto, unfolding(crate::specs::Record::frame_at, crate::specs::Record::frame_of))]
pub fn decode_frame<'a>(
    alloc: Global,
    bytes: &'a [u8],
    signature: Option<u32>,
) -> Result<(usize, Vec<LogItem>, &'a [u8])>
    ensures exact { GivesFront result (frame_at signature bytes.now) }
{
    let mut rest: &[u8] = bytes;
    let (offset, _, len) = decode_header(alloc, &mut rest)?;
    if len > bytes.len() {
        return Err(Error::Corruption(format!(in alloc;
            "Log batch past the end of the input: {len}"
        )?));
    }
    let block_len = offset - LOG_BATCH_HEADER_LEN;
    let items = decode_footer(alloc, &bytes[offset..len], block_len, signature)?;
    Ok((len, items, &bytes[LOG_BATCH_HEADER_LEN..offset]))
}

/// The record at the front of these bytes: its length, its items, and its entries' bytes, which are not copied. What
/// follows it doesn't matter.
///
/// Fails as `decode_frame` does, else as `decode_entries_block` does.
#[tactic(auto, unfolding(crate::specs::Record::record_at))]
pub fn decode_record<'a>(
    alloc: Global,
    bytes: &'a [u8],
    signature: Option<u32>,
) -> Result<(usize, Vec<LogItem>, &'a [u8])>
    ensures exact { GivesFront result (record_at signature bytes.now) }
{
    let (len, items, block) = decode_frame(alloc, bytes, signature)?;
    let entries = decode_entries_block(alloc, block, CompressionType::None)?;
    Ok((len, items, entries))
}
