//! Changes of names that are durable once they succeed: after each call, the directories whose names it changed are
//! synced.
ghost use Rattle.std.specs.Prelude.{◌≡◌, OnOk, OnErr};
ghost use Rattle.raft_log_fs_traced.specs.Device.{Created, Deleted, Renamed, MadeDirectory, home, changed_by, Does, MayDo};

use crate::device::Device;
use std::io::ErrorKind;
use std::path::Path;

/// The parent directory of a path.
fn home(path: &str) -> &str
    ensures { result.now ≡ home path.now }
{
    match Path::new(path).parent() {
        Some(directory) => directory.as_str(),
        None => "",
    }
}

/// Makes an empty file under a name that is free.
pub fn create<D: Device>(device: &mut D, path: &str, file: usize) -> Result<(), ErrorKind>
    ensures ok { OnOk result
        (Does (changed_by (Created path.now file)) (D.trace device.old) (D.trace device.new)) }
    ensures err { OnErr result
        (MayDo (changed_by (Created path.now file)) (D.trace device.old) (D.trace device.new)) }
{
    device.create(path, file)?;
    device.sync_directory(home(path))
}

/// Deletes the file at a path, which has this number.
pub fn delete<D: Device>(device: &mut D, path: &str, file: usize) -> Result<(), ErrorKind>
    ensures ok { OnOk result
        (Does (changed_by (Deleted path.now)) (D.trace device.old) (D.trace device.new)) }
    ensures err { OnErr result
        (MayDo (changed_by (Deleted path.now)) (D.trace device.old) (D.trace device.new)) }
{
    device.delete(path)?;
    device.close(file);
    device.sync_directory(home(path))
}

/// Makes a directory.
pub fn create_dir<D: Device>(device: &mut D, path: &str) -> Result<(), ErrorKind>
    ensures ok { OnOk result
        (Does (changed_by (MadeDirectory path.now)) (D.trace device.old) (D.trace device.new)) }
    ensures err { OnErr result
        (MayDo (changed_by (MadeDirectory path.now)) (D.trace device.old) (D.trace device.new)) }
{
    device.create_dir(path)?;
    device.sync_directory(home(path))
}

/// Renames a file. The file that had the new name, with this number, is deleted.
pub fn rename<D: Device>(
    device: &mut D,
    from: &str,
    to: &str,
    replaced: Option<usize>,
) -> Result<(), ErrorKind>
    ensures ok { OnOk result
        (Does (changed_by (Renamed from.now to.now)) (D.trace device.old) (D.trace device.new)) }
    ensures err { OnErr result
        (MayDo (changed_by (Renamed from.now to.now)) (D.trace device.old) (D.trace device.new)) }
{
    device.rename(from, to)?;
    close_replaced(device, from == to, replaced);
    device.sync_directory(home(to))?;
    if home(from) == home(to) {
        return Ok(());
    }
    device.sync_directory(home(from))
}

/// Closes a file over which another one was renamed. Does nothing if a file was renamed over itself.
fn close_replaced<D: Device>(device: &mut D, is_same: bool, replaced: Option<usize>)
    ensures { D.trace device.new ≡ D.trace device.old }
{
    match replaced {
        Some(file) if !is_same => device.close(file),
        _ => {}
    }
}
