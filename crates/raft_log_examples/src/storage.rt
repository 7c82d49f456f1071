//! A Raft node's storage: the calls of the log that a node makes, for one group.
ghost use Rattle.std.specs.Prelude.{OnOk};
ghost use Rattle.raft_log_engine.specs.raft_log_engine_core.specs.Reads.{shows_of};
ghost use Rattle.raft_log_engine.specs.raft_log_record_batches.specs.Entries.{indexes_of, slices_bytes};
ghost use Rattle.raft_log_examples.specs.Storing.{StoresTogether};

use crate::stored::{Base, HardState, encode_numbers, split_number};
use log::Log;
use raft_log_engine::{Command, EntryIndex, LogBatch, LogEngine, PipeLog, Result};
use raft_log_record_items::RawEntries;
use std::alloc::{AllocError, Global};

/// The group of this node.
const GROUP: u64 = 1;

/// The key of the hard state.
const STATE: &[u8] = b"state";

/// The key of the base.
const BASE: &[u8] = b"base";

/// Appends entries of the state's term, the first at this index, and stores the state, by one record and one sync. The
/// entries replace all that the log has from their first index on. If it succeeds, all of it is durable.
pub fn append<P: PipeLog, R: Log>(
    rt: &R,
    alloc: Global,
    engine: &mut LogEngine<P>,
    first: u64,
    entries: &[&str],
    state: &HardState,
) -> Result<()> {
    let bytes = encode_entries(alloc, state.term, entries)?;
    let mut slices: Vec<&[u8]> = Vec::new(alloc);
    for entry in bytes.iter() {
        slices.push(entry.as_slice())?;
    }
    let indexes = indexes(alloc, first, entries.len())?;
    let value = encode_numbers(alloc, &[state.term, state.vote, state.commit])?;
    write_together(
        rt,
        alloc,
        engine,
        indexes.as_slice(),
        slices.as_slice(),
        STATE,
        value.as_slice(),
    )
}

/// Writes entries and a key's value as one record, and syncs it.
fn write_together<P: PipeLog, R: Log>(
    rt: &R,
    alloc: Global,
    engine: &mut LogEngine<P>,
    indexes: &[EntryIndex],
    entries: &[&[u8]],
    key: &[u8],
    value: &[u8],
) -> Result<()>
    ensures ok { OnOk result (StoresTogether (indexes_of indexes.now) (slices_bytes entries.now) key.now value.now
        (shows_of P.shown engine.old) (shows_of P.shown engine.new)) }
{
    let mut batch = LogBatch::default(alloc)?;
    batch.add_raw_entries(alloc, GROUP, indexes, entries)?;
    batch.put(alloc, GROUP, key, value)?;
    engine.write(rt, &mut batch, true)?;
    Ok(())
}

/// The bytes of entries of one term: the term, then the entry's data.
fn encode_entries(alloc: Global, term: u64, entries: &[&str]) -> Result<Vec<Vec<u8>>, AllocError> {
    let mut all = Vec::new(alloc);
    for entry in entries {
        let mut bytes = encode_numbers(alloc, &[term])?;
        bytes.extend_from_slice(entry.as_bytes())?;
        all.push(bytes)?;
    }
    Ok(all)
}

/// So many indexes, from a first one on.
fn indexes(alloc: Global, first: u64, count: usize) -> Result<Vec<EntryIndex>, AllocError> {
    let mut indexes = Vec::new(alloc);
    for number in 0..count {
        indexes.push(EntryIndex::unplaced(first.saturating_add(number as u64), 0))?;
    }
    Ok(indexes)
}

/// Drops the entries up to the base, which a durable snapshot covers, and stores the base: one record. It isn't synced:
/// a crash that loses it leaves the old base with its entries.
pub fn compact<P: PipeLog, R: Log>(
    rt: &R,
    alloc: Global,
    engine: &mut LogEngine<P>,
    base: &Base,
) -> Result<()> {
    let value = encode_numbers(alloc, &[base.index, base.term])?;
    let index = base.index.saturating_add(1);
    let mut batch = LogBatch::default(alloc)?;
    batch.put(alloc, GROUP, BASE, value.as_slice())?;
    batch.add_command(GROUP, Command::Compact { index })?;
    engine.write(rt, &mut batch, false)?;
    Ok(())
}

/// The hard state: the stored one, or that of a new node if none is stored or its bytes are too few.
pub fn hard_state<P: PipeLog>(engine: &LogEngine<P>) -> Result<HardState> {
    let Some(bytes) = engine.get(GROUP, STATE)? else {
        return Ok(HardState::new());
    };
    match HardState::decode(bytes.as_slice()) {
        Some(state) => Ok(state),
        None => Ok(HardState::new()),
    }
}

/// The base: the stored one, or 0 if none is stored or its bytes are too few.
pub fn base<P: PipeLog>(engine: &LogEngine<P>) -> Result<Base> {
    let Some(bytes) = engine.get(GROUP, BASE)? else {
        return Ok(Base { index: 0, term: 0 });
    };
    match Base::decode(bytes.as_slice()) {
        Some(base) => Ok(base),
        None => Ok(Base { index: 0, term: 0 }),
    }
}

/// The index of the last entry, or of the base if there is none.
pub fn last_index<P: PipeLog>(engine: &LogEngine<P>) -> Result<u64> {
    match engine.last_index(GROUP)? {
        Some(last) => Ok(last),
        None => Ok(base(engine)?.index),
    }
}

/// The term and the data of the entry at an index; `None` if there is none or its bytes are too few. What isn't UTF-8
/// in the data is replaced.
pub fn entry<P: PipeLog>(
    alloc: Global,
    engine: &mut LogEngine<P>,
    index: u64,
) -> Result<Option<(u64, String)>> {
    let Some(entry) = engine.get_entry::<RawEntries>(GROUP, index)? else {
        return Ok(None);
    };
    match split_number(entry.bytes.as_slice()) {
        Some((term, data)) => Ok(Some((term, String::from_utf8_lossy(alloc, data)?))),
        None => Ok(None),
    }
}
