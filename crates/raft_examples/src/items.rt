//! A caller of `raft_log_record_items`: counters that a user keeps in the log, and the item for one.
ghost use Rattle.std.specs.Prelude.{◌≡◌, IfOk};
ghost use Rattle.raft_log_record_items.specs.Items.{IsItem};
ghost use Rattle.raft_log_record_items.specs.Writing.{item_bytes};
ghost use Rattle.raft_examples.specs.Counter.{counter_put};

use raft_log_record_base::codec;
use raft_log_record_items::{Bytes, Error, LogItem, Message, OpType, Result};
use std::alloc::{AllocError, Global};

/// A counter of 32 bits: not every number is a counter, and yet each counter is read back.
#[derive(Clone, Copy, PartialEq, Eq)]
pub struct Counter {
    pub count: u32,
}

impl Message for Counter {
    ghost use Rattle.std.specs.Prelude.{None, Some, length, nat_eq, if◌then◌else◌};
    ghost use Rattle.std.specs.Int.{w32, from_le_bytes};
    ghost use Rattle.raft_log_record_base.specs.Number.{u32_le_bytes};

    ghost spelling = { λ c. u32_le_bytes c.count };

    ghost reading = { λ bytes.
        if nat_eq (length bytes) 4 then Some (record { count = from_le_bytes w32 bytes }) else None };

    fn write(&self, out: &mut Vec<u8>) -> Result<(), AllocError> {
        codec::append_u32_le(out, self.count)
    }

    fn parse(alloc: Global, bytes: &[u8]) -> Result<Counter> {
        match bytes.as_array::<4>() {
            Some(bytes) => Ok(Counter {
                count: u32::from_le_bytes(*bytes),
            }),
            None => Err(Error::Message(format!(in alloc; "a counter has four bytes")?)),
        }
    }
}

/// The bytes of the item that puts the counter at a key.
pub fn counter_item(
    alloc: Global,
    group: u64,
    key: &[u8],
    counter: Counter,
) -> Result<Vec<u8>, AllocError>
    ensures bytes { IfOk result (λ out. out.items ≡ item_bytes (counter_put group key.now counter.count)) }
    ensures spelled { IfOk result (λ out. IsItem out.items (counter_put group key.now counter.count)) }
{
    let mut value = Vec::new(alloc);
    counter.write(&mut value)?;
    let key = Bytes::from_slice(alloc, key)?;
    let item = LogItem::new_kv(group, OpType::Put, key, Some(Bytes::from_vec(value)));
    let mut out = Vec::new(alloc);
    item.encode(&mut out)?;
    Ok(out)
}
