//! Reads the header at the start of a log file.
ghost use Rattle.std.specs.Prelude.{◌≡◌, ◌≤◌, length, IsTrue, IfOk, IfErr};
ghost use Rattle.raft_log_fs.specs.Receipts.{Collects};
ghost use Rattle.raft_log_file_reader.specs.Source.{bytes_of};
ghost use Rattle.raft_log_file_reader.specs.Opening.{SaysFormat, FailsToOpen};

use crate::source::Source;
use crate::window::Window;
use raft_log_file_format::LogFileFormat;
use raft_log_fs::FileSystem;
use raft_log_record_base::Result;
use raft_log_record_frames::record::are_bytes;
use std::alloc::Global;

/// The format in a file's header, and the offset at which the header ends. Reads at most the first 69 bytes; the window
/// holds them.
pub(crate) fn read_format<F: FileSystem>(
    alloc: Global,
    file_system: &F,
    source: Source,
    window: &mut Window,
) -> Result<(LogFileFormat, usize)>
    requires { source.size ≡ length (bytes_of source (F.disk file_system.now)) }
    ensures ok { IfOk result (λ found. IsTrue window.new.receipt.honest
        → SaysFormat (bytes_of source (F.disk file_system.now)) found.0 found.1) }
    ensures inside { IfOk result (λ found. found.1 ≤ source.size) }
    ensures err { IfErr result (λ error. IsTrue window.new.receipt.honest
        → FailsToOpen source.handle (F.disk file_system.now) error) }
    ensures receipts { Collects F.tells_truth window.old.receipt.honest window.new.receipt.honest }
{
    window.begin(0);
    let len = source.size.min(LogFileFormat::max_encoded_len());
    window.read_on(file_system, source, len)?;
    let mut rest: &[u8] = window.held(0, len);
    are_bytes(rest);
    let format = LogFileFormat::decode(alloc, &mut rest)?;
    Ok((format, len - rest.len()))
}
