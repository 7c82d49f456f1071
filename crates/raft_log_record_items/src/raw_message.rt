//! Messages that are any bytes.
use crate::message::{Message, MessageExt};
use raft_lists::Bytes;
use raft_log_record_base::Result;
use std::alloc::{AllocError, Global};

/// Bytes that are written unchanged. Any bytes are read as such a message.
#[derive(Debug, Drop, PartialEq, Eq)]
pub struct RawMessage {
    /// The bytes.
    pub bytes: Bytes,
}

impl Message for RawMessage {
    ghost use Rattle.std.specs.Prelude.{Some};

    ghost spelling = { λ m. m.bytes };

    ghost reading = { λ source. Some (record { bytes = source }) };

    fn write(&self, out: &mut Vec<u8>) -> Result<(), AllocError> {
        out.extend_from_slice(self.bytes.as_slice())
    }

    fn parse(alloc: Global, bytes: &[u8]) -> Result<RawMessage> {
        Ok(RawMessage {
            bytes: Bytes::from_slice(alloc, bytes)?,
        })
    }
}

/// A log whose entries are any bytes. The bytes don't contain an index, so `index` returns 0; add such entries with
/// their indexes.
pub struct RawEntries {}

impl MessageExt for RawEntries {
    type Entry = RawMessage;

    ghost index = { λ e. 0 };

    fn index(_entry: &RawMessage) -> u64 {
        0
    }
}
