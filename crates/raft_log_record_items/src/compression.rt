//! How the entries of a batch are compressed. They aren't.
ghost use Rattle.std.specs.Prelude.{◌≡◌, IsOk};
ghost use Rattle.raft_log_record_base.specs.Fault.{GivesOrMemory};
ghost use Rattle.raft_log_record_items.specs.Reading.{compression_of};

use raft_log_record_base::{Error, Result};
use std::alloc::Global;

/// How the entry block of a batch is compressed. The only kind is no compression.
#[derive(Clone, Copy, Debug, PartialEq, Eq)]
pub enum CompressionType {
    None = 0,
}

impl CompressionType {
    /// The kind of compression with this byte. Fails with `Corruption` for any byte but 0; only that error's text takes
    /// memory.
    pub fn from_u8(alloc: Global, byte: u8) -> Result<CompressionType>
        ensures exact { GivesOrMemory result (compression_of byte) }
        ensures sure { IsOk (compression_of byte) → IsOk result }
    {
        if byte != 0 {
            return Err(Error::Corruption(format!(in alloc;
                "Unsupported compression type: {byte}"
            )?));
        }
        Ok(CompressionType::None)
    }

    /// The byte of the kind.
    pub fn to_u8(self) -> u8
        ensures { result ≡ 0 }
    {
        self as u8
    }
}
