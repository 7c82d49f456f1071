//! Reading all batches of a log file, each with its entry block.
ghost use Rattle.std.specs.Prelude.{◌+◌, ◌≤◌, IfOk};
ghost use Rattle.raft_log_file_uses.specs.GoodEnd.{EndsItsBatches};

use raft_log_file_reader::LogItemBatchFileReader;
use raft_log_fs::{FileSystem, Handle};
use raft_log_record_base::{Error, FileBlockHandle, FileId, Result};
use raft_log_record_batches::LogItemBatch;
use std::alloc::Global;

/// How many bytes are read at once.
const READ_BLOCK_SIZE: usize = 65_536;

/// Returns the offset at which the good records of a log file end, as `good_end` does. Fails if one of them has a
/// broken entry block.
pub fn whole_end<F: FileSystem>(
    alloc: Global,
    file_system: &F,
    id: FileId,
    handle: Handle,
) -> Result<usize>
    ensures { IfOk result (EndsItsBatches id handle (F.disk file_system.now)) }
{
    let mut reader = LogItemBatchFileReader::new(alloc, READ_BLOCK_SIZE);
    let _format = reader.open(alloc, file_system, id, handle)?;
    loop {
        match reader.next(alloc, file_system) {
            Ok(Some(batch)) => {
                let block = block_of(&batch, reader.valid_offset(), id);
                reader.check_entry_block(alloc, file_system, block)?;
            }
            Ok(None) => return Ok(reader.valid_offset()),
            Err(Error::Corruption(_)) => return Ok(reader.valid_offset()),
            Err(Error::Codec(_)) => return Ok(reader.valid_offset()),
            Err(error) => return Err(error),
        }
    }
}

/// The location of a batch's entry block, before an end; no bytes if it has none.
fn block_of(batch: &LogItemBatch, end: usize, id: FileId) -> FileBlockHandle
    ensures { result.offset + result.len ≤ end }
{
    let none = FileBlockHandle {
        id,
        offset: 0,
        len: 0,
    };
    let Some(index) = batch.entry_index() else {
        return none;
    };
    match index.entries {
        Some(block) if block.offset <= end as u64 && block.len <= end - block.offset as usize =>
            block,
        _ => none,
    }
}
