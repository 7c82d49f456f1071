//! Replaces a file with new bytes under its name.

ghost use Rattle.std.specs.Prelude.{◌≡◌, OnOk, IfErr};
ghost use Rattle.raft_log_open.specs.Replacing.{FailsToMake, FailsToReplace, MakesFile, Replaces};

use raft_log_fs::FileSystem;
use std::io::ErrorKind;

/// Writes these bytes into a new file under the temporary path, syncs it, and renames it over `path`. The two paths
/// must differ. If it fails, `path` is as before, or has the whole new file. The temporary path may then have the new
/// file, in part or whole.
pub fn replace<F: FileSystem>(
    file_system: &mut F,
    temporary: &str,
    path: &str,
    bytes: &[u8],
) -> Result<(), ErrorKind>
    requires { path.now ≡ temporary.now → ⊥ }
    ensures ok { OnOk result
        (Replaces temporary.now path.now bytes.now (F.disk file_system.old) (F.disk file_system.new)) }
    ensures err { IfErr result (λ kind. FailsToReplace temporary.now path.now bytes.now kind
        (F.disk file_system.old) (F.disk file_system.new)) }
{
    make_file(file_system, temporary, bytes)?;
    file_system.rename(temporary, path)?;
    Ok(())
}

/// Creates a file, writes these bytes and syncs it. If it fails, the file may have been begun.
fn make_file<F: FileSystem>(file_system: &mut F, path: &str, bytes: &[u8]) -> Result<(), ErrorKind>
    ensures ok { OnOk result
        (MakesFile path.now bytes.now (F.disk file_system.old) (F.disk file_system.new)) }
    ensures err { IfErr result (λ kind. FailsToMake path.now bytes.now kind
        (F.disk file_system.old) (F.disk file_system.new)) }
{
    let handle = file_system.create(path)?;
    file_system.write_at(handle, 0, bytes)?;
    file_system.sync(handle)?;
    Ok(())
}
