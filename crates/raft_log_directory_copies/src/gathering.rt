//! Gathers the files of a file system's directory.
ghost use Rattle.std.specs.Prelude.{◌≡◌, false, Some, IfErr, IfOk};
ghost use Rattle.std.specs.String.{string_bytes};
ghost use Rattle.raft_log_directory_copies.specs.declared.fault.CopyFault.TheVariants.{Memory};
ghost use Rattle.raft_log_directory_copies.specs.Copies.{AreGathered, HasContent, path_in};

use crate::fault::CopyFault;
use crate::laying::path_in;
use crate::stored_file::StoredFile;
use raft_log_fs::{FileSystem, Permission};
use std::alloc::Global;
use std::io::ErrorKind;

/// The files of a directory of a file system, each once, as they are read now, in no promised order. Fails with
/// `FileSystem` if the directory doesn't exist or a file can't be read, or with `Memory`. If the file system has
/// stopped, the error isn't `Memory`.
pub fn gather<F: FileSystem>(
    alloc: Global,
    file_system: &F,
    directory: &str,
) -> Result<Vec<StoredFile>, CopyFault>
    ensures ok { IfOk result (λ files. AreGathered files.items directory.now (F.disk file_system.now)) }
    ensures memory { IfErr result (λ fault. fault ≡ Memory → (F.disk file_system.now).stopped ≡ false) }
{
    let names = match file_system.list(directory) {
        Ok(names) => names,
        Err(kind) => return Err(CopyFault::of_file_system(alloc, directory, kind)),
    };
    let mut files = Vec::new(alloc);
    for name in names.as_slice() {
        let file = read_file(alloc, file_system, directory, name.as_str())?;
        files.push(file)?;
    }
    Ok(files)
}

/// The file with a name in a directory.
fn read_file<F: FileSystem>(
    alloc: Global,
    file_system: &F,
    directory: &str,
    name: &str,
) -> Result<StoredFile, CopyFault>
    ensures name { IfOk result (λ file. string_bytes file.name ≡ name.now) }
    ensures bytes { IfOk result (λ file.
        HasContent (path_in directory.now name.now) file.bytes.items (F.disk file_system.now)) }
{
    let path = path_in(alloc, directory, name)?;
    let name = String::from_str(alloc, name)?;
    match read_whole(alloc, file_system, path.as_str()) {
        Ok(bytes) => Ok(StoredFile { name, bytes }),
        Err(kind) => Err(CopyFault::of_file_system(alloc, path.as_str(), kind)),
    }
}

/// All bytes of the file at a path.
fn read_whole<F: FileSystem>(
    alloc: Global,
    file_system: &F,
    path: &str,
) -> Result<Vec<u8>, ErrorKind>
    ensures { IfOk result (λ bytes. HasContent path.now bytes.items (F.disk file_system.now)) }
{
    let handle = file_system.open(path, Permission::ReadOnly)?;
    let size = file_system.file_size(handle)?;
    let Ok(mut bytes) = vec![in alloc; 0u8; size] else {
        return Err(ErrorKind::OutOfMemory);
    };
    file_system.read_at(handle, 0, bytes.as_mut_slice())?;
    Ok(bytes)
}
