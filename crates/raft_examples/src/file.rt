//! The caller that `raft_log_file_writer/CALLING.md` shows.
ghost use Rattle.std.specs.Prelude.{List, ℕ, ◌++◌, OnOk, OnErr};
ghost use Rattle.raft_log_fs.specs.Causes.{Fails, IsLater};
ghost use Rattle.raft_log_file_writer.specs.Writer.{IsSynced, IsWritten};

use log::Log;
use raft_log_file_writer::LogFileWriter;
use raft_log_fs::FileSystem;
use std::io::ErrorKind;

/// Appends a record, and makes it durable.
pub fn save_record<F: FileSystem, L: Log>(
    rt: &L,
    file_system: &mut F,
    writer: &mut LogFileWriter,
    record: &[u8],
) -> Result<(), ErrorKind>
    ensures ok { OnOk result ((front : List ℕ) → IsWritten writer.old front (F.disk file_system.old)
        → IsSynced writer.new (front ++ «record».now) (F.disk file_system.new)) }
    ensures err { OnErr result ((front : List ℕ) → IsWritten writer.old front (F.disk file_system.old)
        → Fails (F.disk file_system.old) (F.disk file_system.new)) }
    ensures later { IsLater (F.disk file_system.old) (F.disk file_system.new) }
{
    writer.write(rt, file_system, record, 1 << 27)?;
    writer.sync(file_system)
}
