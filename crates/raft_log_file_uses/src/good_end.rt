//! Reading all batches of a log file: a proved caller of the reader.
ghost use Rattle.std.specs.Prelude.{IfOk};
ghost use Rattle.raft_log_file_uses.specs.GoodEnd.{EndsItsBatches};

use raft_log_file_reader::LogItemBatchFileReader;
use raft_log_fs::{FileSystem, Handle};
use raft_log_record_base::{Error, FileId, Result};
use std::alloc::Global;

/// How many bytes are read at once.
const READ_BLOCK_SIZE: usize = 16_384;

/// Returns the offset at which the good records of a log file end. From there on the file has at most padding, or its
/// next record is broken. Fails if the file can't be opened or read, or if memory runs out.
pub fn good_end<F: FileSystem>(
    alloc: Global,
    file_system: &F,
    id: FileId,
    handle: Handle,
) -> Result<usize>
    ensures { IfOk result (EndsItsBatches id handle (F.disk file_system.now)) }
{
    let mut reader = LogItemBatchFileReader::new(alloc, READ_BLOCK_SIZE);
    let _format = reader.open(alloc, file_system, id, handle)?;
    loop {
        match reader.next(alloc, file_system) {
            Ok(Some(_)) => {}
            Ok(None) => return Ok(reader.valid_offset()),
            Err(Error::Corruption(_)) => return Ok(reader.valid_offset()),
            Err(Error::Codec(_)) => return Ok(reader.valid_offset()),
            Err(error) => return Err(error),
        }
    }
}
