//! Building a writer for the file at a path.

ghost use Rattle.std.specs.Prelude.{◌≡◌, true, false, Some, IfOk, IfErr};
ghost use Rattle.raft_log_file_format.specs.Header.{HasWrittenHeader, IsFileHeader, IsHeaderRefusal, header_bytes};
ghost use Rattle.raft_log_fs.specs.Causes.{IsLater};
ghost use Rattle.raft_log_fs.specs.Touching.{TouchesOnlyNames};
ghost use Rattle.raft_log_file_writer.specs.Building.{Builds, FailsToBuild, FailsToFind, Finds, IsGoneOn};
ghost use Rattle.raft_log_file_writer.specs.Writer.{IsWritten};

use super::reader::open_file;
use super::writer::LogFileWriter;
use log::Log;
use raft_log_file_format::LogFileFormat;
use raft_log_fs::{FileSystem, Handle, Permission};
use raft_log_record_base::Result;
use std::alloc::Global;

/// Creates or opens a file, and returns a writer that appends to it. A new file gets the format's header, and so does a
/// file that is shorter than the header.
///
/// - `InvalidArgument`: the format has no header (`build_header`), and no call was made.
/// - `Memory`: no file was created or changed.
/// - `Io(AlreadyExists)`: the file should be created, and the path is taken.
/// - `Io(NotFound)`: the file should be opened, and doesn't exist.
/// - `Io`: a file call failed. If that was the header's write, a file that was created is still there.
pub fn build_file_writer<F: FileSystem, L: Log>(
    rt: &L,
    alloc: Global,
    file_system: &mut F,
    path: &str,
    format: LogFileFormat,
    create: bool,
) -> Result<LogFileWriter>
    ensures ok { IfOk result (λ writer. Builds path.now (header_bytes format) create writer
        (F.disk file_system.old) (F.disk file_system.new)) }
    ensures err { IfErr result (λ error. FailsToBuild path.now format create error
        (F.disk file_system.old) (F.disk file_system.new)) }
    ensures has_header { IfOk result (λ writer. HasWrittenHeader format) }

    // What the file holds.
    ensures created { create ≡ true → IfOk result (λ writer. IsWritten writer (header_bytes format)
        (F.disk file_system.new)) }
    ensures opened { create ≡ false → IfOk result (λ writer. IsGoneOn (header_bytes format) writer
        (F.disk file_system.old) (F.disk file_system.new)) }
    ensures named { IfOk result (λ writer.
        (F.disk file_system.new).names path.now ≡ Some writer.handle.file) }

    // Nothing else changes.
    ensures others { TouchesOnlyNames (λ other. other ≡ path.now)
        (F.disk file_system.old) (F.disk file_system.new) }
    ensures later { IsLater (F.disk file_system.old) (F.disk file_system.new) }
{
    let header = build_header(alloc, &format)?;
    let handle = find_file(file_system, path, create)?;
    Ok(LogFileWriter::open(rt, file_system, handle, &header, create)?)
}

/// The bytes of a format's header. Fails with `InvalidArgument` for version 1 with an alignment, which has no header,
/// or with `Memory`.
pub fn build_header(alloc: Global, format: &LogFileFormat) -> Result<Vec<u8>>
    ensures ok { IfOk result (λ header. HasWrittenHeader format.now × (header.items ≡ header_bytes format.now)) }
    ensures spelled { IfOk result (λ header. IsFileHeader header.items format.now) }
    ensures err { IfErr result (λ error. IsHeaderRefusal format.now error) }
{
    let mut header = Vec::with_capacity(alloc, LogFileFormat::max_encoded_len())?;
    format.encode(alloc, &mut header)?;
    Ok(header)
}

/// Creates or opens a file for writing.
fn find_file<F: FileSystem>(file_system: &mut F, path: &str, create: bool) -> Result<Handle>
    ensures ok { IfOk result (λ handle. Finds path.now create handle
        (F.disk file_system.old) (F.disk file_system.new)) }
    ensures err { IfErr result (λ error. FailsToFind path.now create error
        (F.disk file_system.old) (F.disk file_system.new)) }
    ensures others { TouchesOnlyNames (λ other. other ≡ path.now)
        (F.disk file_system.old) (F.disk file_system.new) }
    ensures later { IsLater (F.disk file_system.old) (F.disk file_system.new) }
{
    if create {
        Ok(file_system.create(path)?)
    } else {
        open_file(file_system, path, Permission::ReadWrite)
    }
}
