//! Keys that are put or deleted, in an item.
ghost use Rattle.std.specs.Prelude.{◌≡◌, ◌++◌, OnOk, OnErr};
ghost use Rattle.raft_log_record_base.specs.Fault.{ReadsOrMemory, DecodesOrMemory};
ghost use Rattle.raft_log_record_items.specs.Items.{IsKeyValue, new_key};
ghost use Rattle.raft_log_record_items.specs.Reading.{key_value_of_at, key_value_at};
ghost use Rattle.raft_log_record_items.specs.Writing.{
  operation_bytes,
  key_value_bytes,
  IsSpelledOperation,
  IsSpelledKeyValue,
  plain_key_value,
  KeepsFront,
};

use crate::bytes::{append_bytes, split_bytes};
use crate::op_type::OpType;
use raft_lists::Bytes;
use raft_log_record_base::codec::{BytesSlice, or_cut_back, read_u8};
use raft_log_record_base::{Error, FileId, Result};
use std::alloc::{AllocError, Global};

/// The first byte of a put.
const OP_PUT: u8 = 1;

/// The first byte of a deletion.
const OP_DEL: u8 = 2;

/// A put or a deletion of a key.
#[derive(Clone, Debug, Drop, PartialEq)]
pub struct KeyValue {
    pub op_type: OpType,
    pub key: Bytes,
    /// The value of a put. A put without one is written with the empty value. For a deletion no value is written.
    pub value: Option<Bytes>,
    /// The file that has the item, once it is written.
    pub file_id: Option<FileId>,
}

impl KeyValue {
    /// A key that is in no file yet.
    pub fn new(op_type: OpType, key: Bytes, value: Option<Bytes>) -> Self
        ensures { result ≡ new_key op_type key value }
    {
        KeyValue {
            op_type,
            key,
            value,
            file_id: None,
        }
    }

    /// Reads a key that is put with its value, or that is deleted. Fails with `Codec` if the bytes end early or a
    /// length doesn't fit 64 bits, with `Corruption` for an unknown operation, or with `Memory`. If it fails, it
    /// consumes nothing.
    pub fn decode(alloc: Global, source: &mut BytesSlice<'_>) -> Result<KeyValue>
        ensures decodes { DecodesOrMemory IsKeyValue result source.old.now source.new.now }
        ensures exact { ReadsOrMemory result source.old.now source.new.now (key_value_at source.old.now) }
    {
        split_key_value(alloc, source)
    }

    /// Appends the operation, the key and the value of a put, each number in its shortest spelling. If it fails, the
    /// buffer's bytes are unchanged.
    pub fn encode(&self, out: &mut Vec<u8>) -> Result<(), AllocError>
        ensures ok { OnOk result (out.new.items ≡ out.old.items ++ key_value_bytes self.now) }
        ensures err { OnErr result (out.new.items ≡ out.old.items) }
        ensures spelled { OnOk result (IsKeyValue (key_value_bytes self.now) (plain_key_value self.now)) }
    {
        let start = out.len();
        or_cut_back(append_key_value(out, self), out, start)
    }
}

/// Reads a key that is put or deleted.
#[tactic(auto, unfolding(crate::specs::Reading::key_value_at))]
fn split_key_value(alloc: Global, source: &mut BytesSlice<'_>) -> Result<KeyValue>
    ensures { ReadsOrMemory result source.old.now source.new.now (key_value_at source.old.now) }
{
    let mut rest: &[u8] = *source;
    let op = read_u8(&mut rest)?;
    let key_value = split_key_value_of(alloc, &mut rest, op)?;
    *source = rest;
    Ok(key_value)
}

/// Reads the key, and the value of a put.
#[tactic(auto, unfolding(crate::specs::Reading::key_value_of_at))]
fn split_key_value_of(alloc: Global, source: &mut BytesSlice<'_>, op: u8) -> Result<KeyValue>
    ensures { ReadsOrMemory result source.old.now source.new.now (key_value_of_at op source.old.now) }
{
    let mut rest: &[u8] = *source;
    if op == OP_PUT {
        let key = split_bytes(alloc, &mut rest)?;
        let value = split_bytes(alloc, &mut rest)?;
        *source = rest;
        return Ok(KeyValue::new(OpType::Put, key, Some(value)));
    }
    if op == OP_DEL {
        let key = split_bytes(alloc, &mut rest)?;
        *source = rest;
        return Ok(KeyValue::new(OpType::Del, key, None));
    }
    Err(Error::Corruption(format!(in alloc; "Unrecognized operation type: {op}")?))
}

/// Appends a key with its operation.
#[tactic(auto, unfolding(crate::specs::Writing::key_value_bytes))]
fn append_key_value(out: &mut Vec<u8>, key_value: &KeyValue) -> Result<(), AllocError>
    ensures ok { OnOk result (out.new.items ≡ out.old.items ++ key_value_bytes key_value.now) }
    ensures err { OnErr result (KeepsFront out.old.items out.new.items) }
    ensures spelled { OnOk result (IsSpelledKeyValue key_value.now) }
{
    match &key_value.value {
        Some(value) => append_operation(
            out,
            key_value.op_type,
            key_value.key.as_slice(),
            value.as_slice(),
        )?,
        None => append_operation(out, key_value.op_type, key_value.key.as_slice(), &[])?,
    }
    Ok(())
}

/// Appends a key, and the value of a put.
#[tactic(auto, unfolding(crate::specs::Writing::operation_bytes))]
fn append_operation(
    out: &mut Vec<u8>,
    op_type: OpType,
    key: &[u8],
    value: &[u8],
) -> Result<(), AllocError>
    ensures ok { OnOk result (out.new.items ≡ out.old.items ++ operation_bytes op_type key.now value.now) }
    ensures err { OnErr result (KeepsFront out.old.items out.new.items) }
    ensures spelled { OnOk result (IsSpelledOperation op_type key.now value.now) }
{
    match op_type {
        OpType::Put => {
            out.push(OP_PUT)?;
            append_bytes(out, key)?;
            append_bytes(out, value)?;
        }
        OpType::Del => {
            out.push(OP_DEL)?;
            append_bytes(out, key)?;
        }
    }
    Ok(())
}
