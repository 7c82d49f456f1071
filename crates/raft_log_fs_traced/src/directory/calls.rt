//! The calls.
use super::DirectoryFileSystem;
use crate::device::Device;
use crate::directory::checks::stopping;
use crate::durable;
use raft_log_fs::{Fault, FileSystem, Handle, Permission, Read, Receipt};
use raft_log_fs_state::Node;
use std::io::ErrorKind;

impl<D: Device> FileSystem for DirectoryFileSystem<D> {
    ghost use Rattle.std.specs.Prelude.{◌≡◌, ◌+◌, OnOk, IfErr};
    ghost use Rattle.raft_log_fs.specs.Disk.{Wrote, GrewTo};
    ghost use Rattle.raft_log_fs.specs.Exits.{Writes, FailsToWrite, Grows, FailsToGrow};
    ghost use Rattle.raft_log_fs_traced.specs.Directory.{disk_of};
    ghost use Rattle.raft_log_fs_traced.specs.Space.{TellsFree, GoesOnAfterUndone};

    ghost disk = { disk_of D.Device };

    ghost tells_space = { TellsFree D.Device };

    ghost tells_truth = { Unit {0} };

    ghost arms = { λ fault old new. new ≡ old };

    fn create(&mut self, path: &str) -> Result<Handle, ErrorKind> {
        self.check_runs()?;
        if self.storage.node(path).is_some() {
            return Err(ErrorKind::AlreadyExists);
        }
        if !self.storage.has_directory(path) {
            return Err(ErrorKind::NotFound);
        }
        let file = self.storage.files.len();
        let Ok(()) = self.storage.add_file(path) else {
            return Err(self.fail(ErrorKind::OutOfMemory));
        };
        let made = durable::create(&mut self.device, path, file);
        stopping(&mut self.stopped, made)?;
        Ok(Handle {
            file,
            permission: Permission::ReadWrite,
        })
    }

    fn delete(&mut self, path: &str) -> Result<(), ErrorKind> {
        self.check_runs()?;
        let Some(Node::File(id)) = self.storage.node(path) else {
            return Err(ErrorKind::NotFound);
        };
        self.storage.remove_file(path, id);
        let made = durable::delete(&mut self.device, path, id);
        stopping(&mut self.stopped, made)
    }

    fn rename(&mut self, from: &str, to: &str) -> Result<(), ErrorKind> {
        self.check_runs()?;
        let Some(Node::File(id)) = self.storage.node(from) else {
            return Err(ErrorKind::NotFound);
        };
        if self.storage.is_directory(to) {
            return Err(ErrorKind::IsADirectory);
        }
        if !self.storage.has_directory(to) {
            return Err(ErrorKind::NotFound);
        }
        let replaced = self.storage.file(to);
        let Ok(()) = self.storage.rename_file(from, to, id) else {
            return Err(self.fail(ErrorKind::OutOfMemory));
        };
        let made = durable::rename(&mut self.device, from, to, replaced);
        stopping(&mut self.stopped, made)
    }

    fn create_dir(&mut self, path: &str) -> Result<(), ErrorKind> {
        self.check_runs()?;
        if self.storage.node(path).is_some() {
            return Err(ErrorKind::AlreadyExists);
        }
        let Ok(()) = self.storage.add_directory(path) else {
            return Err(self.fail(ErrorKind::OutOfMemory));
        };
        let made = durable::create_dir(&mut self.device, path);
        stopping(&mut self.stopped, made)
    }

    fn write_at(&mut self, handle: Handle, offset: usize, bytes: &[u8]) -> Result<(), ErrorKind>
        ensures ok { OnOk result
            (Writes handle offset bytes.now (disk_of D.Device self.old) (disk_of D.Device self.new)) }
        ensures permitted { OnOk result (handle.permission ≡ Permission.ReadWrite) }
        ensures err { IfErr result (λ error. FailsToWrite handle offset bytes.now error
            (disk_of D.Device self.old) (disk_of D.Device self.new)) }
        ensures undone { IfErr result (λ error. GoesOnAfterUndone D.Device handle.file
            (Wrote offset bytes.now) error self.old self.new) }
    {
        self.check_writer(handle)?;
        if self.is_past_end(handle.file, offset, bytes.len()) {
            return self.extend(handle, offset, bytes);
        }
        if let Err(kind) = self.storage.write(handle.file, offset, bytes, u64::MAX) {
            return Err(self.fail(kind));
        }
        let made = self.device.write_at(handle.file, offset, bytes);
        stopping(&mut self.stopped, made)
    }

    fn truncate(&mut self, handle: Handle, size: usize) -> Result<(), ErrorKind> {
        self.check_writer(handle)?;
        let Ok(()) = self.storage.shorten(handle.file, size) else {
            return Err(self.fail(ErrorKind::OutOfMemory));
        };
        let made = self.device.truncate(handle.file, size);
        stopping(&mut self.stopped, made)
    }

    fn allocate(&mut self, handle: Handle, offset: usize, size: usize) -> Result<(), ErrorKind>
        ensures ok { OnOk result
            (Grows handle (offset + size) (disk_of D.Device self.old) (disk_of D.Device self.new)) }
        ensures permitted { OnOk result (handle.permission ≡ Permission.ReadWrite) }
        ensures err { IfErr result (λ error. FailsToGrow handle (offset + size) error
            (disk_of D.Device self.old) (disk_of D.Device self.new)) }
        ensures undone { IfErr result (λ error. GoesOnAfterUndone D.Device handle.file
            (GrewTo (offset + size)) error self.old self.new) }
    {
        self.check_writer(handle)?;
        let Some(end) = offset.checked_add(size) else {
            return Err(self.fail(ErrorKind::StorageFull));
        };
        self.grow(handle, end)
    }

    fn sync(&mut self, handle: Handle) -> Result<(), ErrorKind> {
        self.check_handle(handle)?;
        let Ok(()) = self.storage.flush(handle.file) else {
            return Err(self.fail(ErrorKind::OutOfMemory));
        };
        let made = self.device.sync(handle.file);
        stopping(&mut self.stopped, made)
    }

    fn open(&self, path: &str, permission: Permission) -> Result<Handle, ErrorKind> {
        self.check_runs()?;
        match self.storage.file(path) {
            Some(file) => Ok(Handle { file, permission }),
            None => Err(ErrorKind::NotFound),
        }
    }

    fn list(&self, directory: &str) -> Result<Vec<String>, ErrorKind> {
        self.check_directory(directory)?;
        match self.storage.list(directory) {
            Ok(names) => Ok(names),
            Err(_) => Err(ErrorKind::OutOfMemory),
        }
    }

    fn free_space(&self, directory: &str) -> Result<u64, ErrorKind> {
        self.check_directory(directory)?;
        Ok(self.free_in(directory))
    }

    fn read_at(&self, handle: Handle, offset: usize, room: &mut [u8]) -> Result<Read, ErrorKind> {
        self.check_handle(handle)?;
        let count = self.storage.read(handle.file, offset, room);
        let receipt = Receipt::none();
        Ok(Read { count, receipt })
    }

    fn file_size(&self, handle: Handle) -> Result<usize, ErrorKind> {
        self.check_handle(handle)?;
        Ok(self.storage.size(handle.file))
    }

    fn has_stopped(&self) -> bool {
        self.stopped
    }

    fn arm(&mut self, _fault: &Fault) -> Result<(), ErrorKind> {
        self.check_runs()
    }

    ghost sound = { λ system. let kept = system.sound in
        record {
          named = kept.named;
          one_name = kept.one_name;
          apart = kept.apart;
          home = kept.home;
          fresh = kept.fresh;
          files = kept.files;
        } };

    ghost truthful = { tt };
}
