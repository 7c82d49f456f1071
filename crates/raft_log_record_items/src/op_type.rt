//! What happens to a key: a put or a deletion.
ghost use Rattle.std.specs.Prelude.{◌≡◌, IsOk};
ghost use Rattle.raft_log_record_base.specs.Fault.{GivesOrMemory};
ghost use Rattle.raft_log_record_items.specs.Reading.{operation_of};
ghost use Rattle.raft_log_record_items.specs.Writing.{operation_number};

use raft_log_record_base::{Error, Result};
use std::alloc::Global;

/// Whether a key is put or deleted.
#[derive(Clone, Copy, Debug, PartialEq, Eq)]
pub enum OpType {
    Put = 1,
    Del = 2,
}

impl OpType {
    /// The operation of this byte. Fails with `Corruption` for an unknown one; only that error's text takes memory.
    pub fn from_u8(alloc: Global, byte: u8) -> Result<OpType>
        ensures exact { GivesOrMemory result (operation_of byte) }
        ensures sure { IsOk (operation_of byte) → IsOk result }
    {
        match byte {
            1 => Ok(OpType::Put),
            2 => Ok(OpType::Del),
            _ => Err(Error::Corruption(format!(in alloc; "Unrecognized operation type: {byte}")?)),
        }
    }

    /// The byte of the operation.
    pub fn to_u8(self) -> u8
        ensures { result ≡ operation_number self }
    {
        self as u8
    }
}
