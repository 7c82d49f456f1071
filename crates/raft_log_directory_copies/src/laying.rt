//! Lays out files in a directory of a file system.
ghost use Rattle.std.specs.Prelude.{◌≡◌, IfErr, IfOk, OnOk, false, true};
ghost use Rattle.std.specs.String.{string_bytes};
ghost use Rattle.raft_log_directory_copies.specs.declared.fault.CopyFault.TheVariants.{Memory};
ghost use Rattle.raft_log_directory_copies.specs.Copies.{HoldsExactly, IsUnnamed, MakesFile, path_in};

use crate::fault::CopyFault;
use crate::stored_file::StoredFile;
use raft_log_fs::FileSystem;
use std::alloc::Global;
use std::io::ErrorKind;

/// Makes a directory with exactly these files, all synced. If it fails, the directory may have been made, and may have
/// some of the files. The errors:
/// - `FileSystem`: the file system failed a call, with `AlreadyExists` if the directory exists, or if two files have
///   one name.
/// - `Occupied`: the directory had a file after it was made.
/// - `Memory`: memory ran out. After a stop, the error isn't this.
pub fn lay_out<F: FileSystem>(
    alloc: Global,
    files: &[StoredFile],
    file_system: &mut F,
    directory: &str,
) -> Result<(), CopyFault>
    ensures ok { OnOk result (HoldsExactly files.now directory.now (F.disk file_system.new)) }
    ensures memory { IfErr result (λ fault. fault ≡ Memory → (F.disk file_system.new).stopped ≡ false) }
{
    make_directory(alloc, file_system, directory)?;
    make_files(alloc, files, file_system, directory)
}

/// Makes a directory without a file.
fn make_directory<F: FileSystem>(
    alloc: Global,
    file_system: &mut F,
    directory: &str,
) -> Result<(), CopyFault>
    ensures there { OnOk result ((F.disk file_system.new).directories directory.now ≡ true) }
    ensures unnamed { OnOk result (IsUnnamed directory.now (F.disk file_system.new)) }
    ensures runs { OnOk result ((F.disk file_system.new).stopped ≡ false) }
    ensures memory { IfErr result (λ fault. fault ≡ Memory → (F.disk file_system.new).stopped ≡ false) }
{
    if let Err(kind) = file_system.create_dir(directory) {
        return Err(CopyFault::of_file_system(alloc, directory, kind));
    }
    match file_system.list(directory) {
        Ok(names) if names.is_empty() => Ok(()),
        Ok(_) => Err(CopyFault::of_occupied(alloc, directory)),
        Err(kind) => Err(CopyFault::of_file_system(alloc, directory, kind)),
    }
}

/// Makes each of these files in a directory that exists.
fn make_files<F: FileSystem>(
    alloc: Global,
    files: &[StoredFile],
    file_system: &mut F,
    directory: &str,
) -> Result<(), CopyFault>
    requires there { (F.disk file_system.old).directories directory.now ≡ true }
    requires unnamed { IsUnnamed directory.now (F.disk file_system.old) }
    requires runs { (F.disk file_system.old).stopped ≡ false }
    ensures ok { OnOk result (HoldsExactly files.now directory.now (F.disk file_system.new)) }
    ensures memory { IfErr result (λ fault. fault ≡ Memory → (F.disk file_system.new).stopped ≡ false) }
{
    for file in files {
        let path = path_in(alloc, directory, file.name.as_str())?;
        let made = make_file(file_system, path.as_str(), file.bytes.as_slice());
        if let Err(kind) = made {
            return Err(CopyFault::of_file_system(alloc, path.as_str(), kind));
        }
    }
    Ok(())
}

/// Makes a file with these bytes, and syncs it.
fn make_file<F: FileSystem>(file_system: &mut F, path: &str, bytes: &[u8]) -> Result<(), ErrorKind>
    ensures ok { OnOk result (MakesFile path.now bytes.now (F.disk file_system.old) (F.disk file_system.new)) }
    ensures runs { OnOk result ((F.disk file_system.new).stopped ≡ false) }
    ensures memory { IfErr result (λ kind. kind ≡ ErrorKind.OutOfMemory
        → (F.disk file_system.new).stopped ≡ false) }
{
    let handle = file_system.create(path)?;
    file_system.write_at(handle, 0, bytes)?;
    file_system.sync(handle)?;
    Ok(())
}

/// The path of a file in a directory.
pub(crate) fn path_in(alloc: Global, directory: &str, name: &str) -> Result<String, CopyFault>
    ensures { IfOk result (λ path. string_bytes path ≡ path_in directory.now name.now) }
{
    let path = format!(in alloc; "{directory}/{name}")?;
    Ok(path)
}
