//! A file is filled with zeros.

ghost use Rattle.std.specs.Prelude.{◌<◌, ◌↔◌, IfErr, IsTrue, OnOk, length};
ghost use Rattle.raft_log_recovery.specs.Filling.{FailsToFill, FillsFile, FillsOrNot, HasNoSpace};

use log::{Log, warn};
use raft_log_fs::{FileSystem, Handle};
use std::io::ErrorKind;

/// Writes these bytes into a file again and again, from its start, until it has at least `size` bytes. If it fails, the
/// writes before are done.
fn fill<F: FileSystem>(
    file_system: &mut F,
    handle: Handle,
    bytes: &[u8],
    size: usize,
) -> Result<(), ErrorKind>
    requires { 0 < length bytes.now }
    ensures ok { OnOk result
        (FillsFile handle bytes.now size (F.disk file_system.old) (F.disk file_system.new)) }
    ensures err { IfErr result (λ kind.
        FailsToFill handle bytes.now size kind (F.disk file_system.old) (F.disk file_system.new)) }
{
    for piece in 0..size.div_ceil(bytes.len()) {
        let offset = piece * bytes.len();
        file_system.write_at(handle, offset, bytes)?;
    }
    Ok(())
}

/// Fills a file as `fill` does; a write that fails is logged. Returns whether there was no space.
pub(crate) fn fill_or_not<F: FileSystem, L: Log>(
    rt: &L,
    file_system: &mut F,
    handle: Handle,
    bytes: &[u8],
    size: usize,
) -> bool
    requires { 0 < length bytes.now }
    ensures { FillsOrNot handle bytes.now size result (F.disk file_system.old) (F.disk file_system.new) }
{
    match fill(file_system, handle, bytes, size) {
        Ok(()) => false,
        Err(kind) => {
            warn!(rt; "a file that is kept for use wasn't filled: {kind}");
            is_no_space(kind)
        }
    }
}

/// Whether a write failed for lack of space.
fn is_no_space(kind: ErrorKind) -> bool
    ensures { IsTrue result ↔ HasNoSpace kind }
{
    matches!(kind, ErrorKind::StorageFull)
}
