//! A file is copied into a directory, and synced.

ghost use Rattle.std.specs.Prelude.{◌≡◌, ◌<◌, ◌^◌, true, IfOk, IfErr, OnOk};
ghost use Rattle.std.specs.String.{string_bytes};
ghost use Rattle.raft_log_record_base.specs.declared.errors.Error.TheVariants.{Memory};
ghost use Rattle.raft_log_fs.specs.Exits.{FailsToWrite};
ghost use Rattle.raft_log_offline.specs.Copies.{copy_path, IsSourceThere};
ghost use Rattle.raft_log_offline.specs.Steps.{CopiesOne, FailsToCopyOne, FailsToMake, FailsToReadWhole, Fills, AreAllBytes, MakesFile, TellsUncopied, TellsUnmade};

use crate::source_file::SourceFile;
use raft_log_fs::{FileSystem, Handle};
use raft_log_record_base::Result;
use std::alloc::Global;
use std::io::ErrorKind;

/// Copies a file into a directory that is there, under the name that is built for its number, and syncs it. Returns its
/// path there.
///
/// Fails with `Memory`, or with `Io` and the kind of the call that failed: a read, the creation, the write or the sync.
/// The copy may be incomplete then. Nothing else changes.
pub fn copy_file<F: FileSystem>(
    alloc: Global,
    file_system: &mut F,
    file: SourceFile,
    target: &str,
) -> Result<String>
    requires there { IsSourceThere (F.disk file_system.old) file }
    requires home { (F.disk file_system.old).directories target.now ≡ true }
    ensures path { IfOk result (λ path. string_bytes path ≡ copy_path target.now file) }
    ensures ok { OnOk result (CopiesOne target.now file
        (F.disk file_system.old) (F.disk file_system.new)) }
    ensures err { IfErr result (λ error. FailsToCopyOne target.now file error
        (F.disk file_system.old) (F.disk file_system.new)) }
    ensures told { IfErr result (λ error. TellsUncopied target.now file error
        (F.disk file_system.old) (F.disk file_system.new)) }
{
    let bytes = read_whole(alloc, file_system, file.handle)?;
    let path = path_in(alloc, target, file)?;
    make_file(file_system, path.as_str(), bytes.as_slice())?;
    Ok(path)
}

/// Reads all bytes of a file.
fn read_whole<F: FileSystem>(alloc: Global, file_system: &F, handle: Handle) -> Result<Vec<u8>>
    ensures ok { IfOk result (λ bytes. AreAllBytes handle.file bytes.items (F.disk file_system.now)) }
    ensures err { IfErr result (FailsToReadWhole handle (F.disk file_system.now)) }
{
    let size = file_system.file_size(handle)?;
    let mut bytes = vec![in alloc; 0u8; size]?;
    file_system.read_at(handle, 0, bytes.as_mut_slice())?;
    Ok(bytes)
}

/// Makes a file of these bytes, and syncs it.
fn make_file<F: FileSystem>(file_system: &mut F, path: &str, bytes: &[u8]) -> Result<()>
    ensures ok { OnOk result
        (MakesFile path.now bytes.now (F.disk file_system.old) (F.disk file_system.new)) }
    ensures err { IfErr result (λ error.
        FailsToMake path.now error (F.disk file_system.old) (F.disk file_system.new)) }
    ensures told { IfErr result (λ error.
        TellsUnmade path.now bytes.now error (F.disk file_system.old) (F.disk file_system.new)) }
{
    let handle = file_system.create(path)?;
    fill(file_system, handle, bytes)?;
    file_system.sync(handle)?;
    Ok(())
}

/// Writes these bytes into an empty file; if there are none, makes no call.
fn fill<F: FileSystem>(file_system: &mut F, handle: Handle, bytes: &[u8]) -> Result<(), ErrorKind>
    ensures ok { OnOk result
        (Fills handle.file bytes.now (F.disk file_system.old) (F.disk file_system.new)) }
    ensures err { IfErr result (λ kind. FailsToWrite handle 0 bytes.now kind
        (F.disk file_system.old) (F.disk file_system.new)) }
{
    if bytes.is_empty() {
        return Ok(());
    }
    file_system.write_at(handle, 0, bytes)
}

/// The path of a file's copy in a directory.
fn path_in(alloc: Global, target: &str, file: SourceFile) -> Result<String>
    requires { file.seq < 10 ^ 16 }
    ensures ok { IfOk result (λ path. string_bytes path ≡ copy_path target.now file) }
    ensures err { IfErr result (λ error. error ≡ Memory) }
{
    let name = file.kind.build_name(alloc, file.seq)?;
    let path = format!(in alloc; "{target}/{name}")?;
    Ok(path)
}
