//! The calls.
use super::MemoryFileSystem;
use super::reading::denies;
use raft_log_fs::{Fault, FileSystem, Handle, Permission, Read, Receipt};
use raft_log_fs_state::Node;
use std::io::ErrorKind;

impl FileSystem for MemoryFileSystem {
    ghost use Rattle.std.specs.Prelude.{◌≡◌, ◌+◌, ◌++◌, ◌∷◌, [], ◌⊎◌, true, OnOk, OnErr, IfOk, IfErr};
    ghost use Rattle.raft_log_fs.specs.Disk.{Wrote, ShortenedTo, GrewTo};
    ghost use Rattle.raft_log_fs.specs.Calls.{Creates, Deletes, Renames, MakesDirectory};
    ghost use Rattle.raft_log_fs.specs.Exits.{FailsToCreate, FailsToDelete, FailsToRename, FailsToMakeDirectory, Writes, FailsToWrite, Shortens, FailsToShorten, Grows, FailsToGrow, Syncs, FailsToSync, Arms, IsUnarmed, denied_by};
    ghost use Rattle.raft_log_fs.specs.Arguments.{WrongCreate, WrongName, WrongRename, WrongDirectory, WrongHandle, WrongWriter};
    ghost use Rattle.raft_log_fs_memory.specs.Memory.{disk_of, unsynced};
    ghost use Rattle.raft_log_fs_state.specs.Order.{without_file};
    ghost use Rattle.raft_log_fs.specs.Reading.{IsNotListed};
    ghost use Rattle.raft_log_fs_memory.specs.Space.{IsFree};
    ghost use Rattle.raft_log_fs_memory.specs.Turns.{armed, armed_with, IsAnswered};
    ghost use Rattle.raft_log_fs_memory.specs.Answers.{RefusesWhole, RefusesChange, AddsLast, ForgetsNamed, ForgetsReplaced, CreatesNext, FindsSpace, SyncsAll, order_of, order_without, order_without_named, order_without_replaced};

    ghost disk = { disk_of };

    ghost tells_space = { λ system directory space. IsFree (armed system).spaces directory (disk_of system) space };

    ghost tells_truth = { Unit {0} };

    ghost arms = { λ fault old new. armed new ≡ armed_with fault (armed old) };

    fn create(&mut self, path: &str) -> Result<Handle, ErrorKind>
        ensures ok { IfOk result (λ handle.
            Creates path.now handle.file (disk_of self.old) (disk_of self.new)) }
        ensures permission { IfOk result (λ handle. handle.permission ≡ Permission.ReadWrite) }
        ensures err { IfErr result (λ error.
            FailsToCreate path.now error (disk_of self.old) (disk_of self.new)) }
        ensures order { OnOk result (unsynced self.new ≡ unsynced self.old) }
        ensures turn { OnOk result (IsAnswered self.old self.new) }
        ensures cause { RefusesWhole (WrongCreate path.now) (CreatesNext path.now) order_of
            result self.old self.new }
    {
        self.check_runs()?;
        if self.storage.node(path).is_some() {
            return Err(ErrorKind::AlreadyExists);
        }
        if !self.storage.has_directory(path) {
            return Err(ErrorKind::NotFound);
        }
        let stops = self.begin()?;
        let file = self.storage.files.len();
        let done = self.storage.add_file(path);
        self.end(stops, done)?;
        Ok(Handle {
            file,
            permission: Permission::ReadWrite,
        })
    }

    fn delete(&mut self, path: &str) -> Result<(), ErrorKind>
        ensures ok { OnOk result (Deletes path.now (disk_of self.old) (disk_of self.new)) }
        ensures err { IfErr result (λ error.
            FailsToDelete path.now error (disk_of self.old) (disk_of self.new)) }
        ensures order { OnOk result (ForgetsNamed path.now self.old self.new) }
        ensures turn { OnOk result (IsAnswered self.old self.new) }
        ensures cause { RefusesWhole (WrongName path.now) (Deletes path.now)
            (order_without_named path.now) result
            self.old self.new }
    {
        self.check_runs()?;
        let Some(Node::File(id)) = self.storage.node(path) else {
            return Err(ErrorKind::NotFound);
        };
        let stops = self.begin()?;
        self.storage.remove_file(path, id);
        self.end(stops, Ok(()))
    }

    fn rename(&mut self, from: &str, to: &str) -> Result<(), ErrorKind>
        ensures ok { OnOk result (Renames from.now to.now (disk_of self.old) (disk_of self.new)) }
        ensures err { IfErr result (λ error.
            FailsToRename from.now to.now error (disk_of self.old) (disk_of self.new)) }
        ensures order { OnOk result (ForgetsReplaced from.now to.now self.old self.new) }
        ensures turn { OnOk result (IsAnswered self.old self.new) }
        ensures cause { RefusesWhole (WrongRename from.now to.now) (Renames from.now to.now)
            (order_without_replaced from.now to.now) result self.old self.new }
    {
        self.check_runs()?;
        let Some(Node::File(id)) = self.storage.node(from) else {
            return Err(ErrorKind::NotFound);
        };
        if self.storage.is_directory(to) {
            return Err(ErrorKind::IsADirectory);
        }
        if !self.storage.has_directory(to) {
            return Err(ErrorKind::NotFound);
        }
        let stops = self.begin()?;
        let done = self.storage.rename_file(from, to, id);
        self.end(stops, done)
    }

    fn reuse(&mut self, from: &str, to: &str) -> Result<(), ErrorKind>
        ensures ok { OnOk result (Renames from.now to.now (disk_of self.old) (disk_of self.new)) }
        ensures err { IfErr result (λ error.
            FailsToRename from.now to.now error (disk_of self.old) (disk_of self.new)) }
        ensures order { OnOk result (ForgetsReplaced from.now to.now self.old self.new) }
        ensures turn { OnOk result (IsAnswered self.old self.new) }
        ensures cause { RefusesWhole (WrongRename from.now to.now) (Renames from.now to.now)
            (order_without_replaced from.now to.now) result self.old self.new }
    {
        self.rename(from, to)
    }

    fn create_dir(&mut self, path: &str) -> Result<(), ErrorKind>
        ensures ok { OnOk result (MakesDirectory path.now (disk_of self.old) (disk_of self.new)) }
        ensures err { IfErr result (λ error.
            FailsToMakeDirectory path.now error (disk_of self.old) (disk_of self.new)) }
        ensures order { OnOk result (unsynced self.new ≡ unsynced self.old) }
        ensures turn { OnOk result (IsAnswered self.old self.new) }
        ensures cause { RefusesWhole (WrongDirectory path.now) (MakesDirectory path.now) order_of
            result self.old self.new }
    {
        self.check_runs()?;
        if self.storage.node(path).is_some() {
            return Err(ErrorKind::AlreadyExists);
        }
        let stops = self.begin()?;
        let done = self.storage.add_directory(path);
        self.end(stops, done)
    }

    fn write_at(&mut self, handle: Handle, offset: usize, bytes: &[u8]) -> Result<(), ErrorKind>
        ensures ok { OnOk result (Writes handle offset bytes.now (disk_of self.old) (disk_of self.new)) }
        ensures permitted { OnOk result (handle.permission ≡ Permission.ReadWrite) }
        ensures err { IfErr result (λ error.
            FailsToWrite handle offset bytes.now error (disk_of self.old) (disk_of self.new)) }
        ensures order { OnOk result (AddsLast handle (Wrote offset bytes.now) self.old self.new) }
        ensures turn { OnOk result (IsAnswered self.old self.new) }
        ensures space { OnOk result (FindsSpace handle (Wrote offset bytes.now) self.old) }
        ensures cause { RefusesChange handle (Wrote offset bytes.now) result self.old self.new }
    {
        self.check_writer(handle)?;
        let free = self.free_for(handle.file);
        let (stops, front) = self.begin_write()?;
        if let Some(count) = front {
            let done = self
                .storage
                .write_front(handle.file, offset, bytes, count, free);
            return Err(self.fail_in_part(done));
        }
        let done = self.storage.write(handle.file, offset, bytes, free);
        self.end_change(stops, done)
    }

    fn truncate(&mut self, handle: Handle, size: usize) -> Result<(), ErrorKind>
        ensures ok { OnOk result (Shortens handle size (disk_of self.old) (disk_of self.new)) }
        ensures permitted { OnOk result (handle.permission ≡ Permission.ReadWrite) }
        ensures err { IfErr result (λ error.
            FailsToShorten handle size error (disk_of self.old) (disk_of self.new)) }
        ensures order { OnOk result (AddsLast handle (ShortenedTo size) self.old self.new) }
        ensures turn { OnOk result (IsAnswered self.old self.new) }
        ensures cause { RefusesChange handle (ShortenedTo size) result self.old self.new }
    {
        self.check_writer(handle)?;
        let stops = self.begin_change()?;
        let done = self.storage.shorten(handle.file, size);
        self.end_change(stops, done)
    }

    fn allocate(&mut self, handle: Handle, offset: usize, size: usize) -> Result<(), ErrorKind>
        ensures ok { OnOk result (Grows handle (offset + size) (disk_of self.old) (disk_of self.new)) }
        ensures permitted { OnOk result (handle.permission ≡ Permission.ReadWrite) }
        ensures err { IfErr result (λ error.
            FailsToGrow handle (offset + size) error (disk_of self.old) (disk_of self.new)) }
        ensures order { OnOk result (AddsLast handle (GrewTo (offset + size)) self.old self.new) }
        ensures turn { OnOk result (IsAnswered self.old self.new) }
        ensures space { OnOk result (FindsSpace handle (GrewTo (offset + size)) self.old) }
        ensures cause { RefusesChange handle (GrewTo (offset + size)) result self.old self.new }
    {
        self.check_writer(handle)?;
        let free = self.free_for(handle.file);
        let stops = self.begin_change()?;
        let done = self.storage.grow(handle.file, offset, size, free);
        self.end_change(stops, done)
    }

    fn sync(&mut self, handle: Handle) -> Result<(), ErrorKind>
        ensures ok { OnOk result (Syncs handle (disk_of self.old) (disk_of self.new)) }
        ensures err { IfErr result (λ error. FailsToSync handle error (disk_of self.old) (disk_of self.new)) }
        ensures order { OnOk result (unsynced self.new ≡ without_file handle.file (unsynced self.old)) }
        ensures turn { OnOk result (IsAnswered self.old self.new) }
        ensures cause { RefusesWhole (WrongHandle handle) (SyncsAll handle.file)
            (order_without handle.file) result
            self.old self.new }
    {
        self.check_handle(handle)?;
        let stops = self.begin()?;
        let done = self.storage.flush(handle.file);
        self.end(stops, done)
    }

    fn open(&self, path: &str, permission: Permission) -> Result<Handle, ErrorKind> {
        self.check_runs()?;
        match self.storage.file(path) {
            Some(file) => Ok(Handle { file, permission }),
            None => Err(ErrorKind::NotFound),
        }
    }

    fn list(&self, directory: &str) -> Result<Vec<String>, ErrorKind> {
        self.check_directory(directory)?;
        match self.storage.list(directory) {
            Ok(names) => Ok(names),
            Err(_) => Err(ErrorKind::OutOfMemory),
        }
    }

    fn free_space(&self, directory: &str) -> Result<u64, ErrorKind>
        ensures ok { OnOk result ((disk_of self.now).directories directory.now ≡ true) }
        ensures err { IfErr result (λ error. IsNotListed directory.now (disk_of self.now) error) }
        ensures told { IfOk result (λ free.
            IsFree (armed self.now).spaces directory.now (disk_of self.now) free) }
    {
        self.check_directory(directory)?;
        Ok(self.free_in(directory))
    }

    fn read_at(&self, handle: Handle, offset: usize, room: &mut [u8]) -> Result<Read, ErrorKind> {
        self.check_handle(handle)?;
        let size = self.storage.size(handle.file);
        let count = room.len().min(size.saturating_sub(offset));
        if denies(&self.denied, handle.file, offset, count) {
            return Err(ErrorKind::Other);
        }
        let count = self.storage.read(handle.file, offset, room);
        let receipt = Receipt::none();
        Ok(Read { count, receipt })
    }

    fn file_size(&self, handle: Handle) -> Result<usize, ErrorKind> {
        self.check_handle(handle)?;
        Ok(self.storage.size(handle.file))
    }

    fn has_stopped(&self) -> bool {
        self.stopped
    }

    fn arm(&mut self, fault: &Fault) -> Result<(), ErrorKind>
        ensures ok { OnOk result (Arms fault.now (disk_of self.old) (disk_of self.new)) }
        ensures armed { OnOk result (armed self.new ≡ armed_with fault.now (armed self.old)) }
        ensures err { OnErr result (disk_of self.new ≡ disk_of self.old) }
        ensures cause { IfErr result (IsUnarmed (disk_of self.old)) }
        ensures denied { OnOk result (disk_of self.new ≡ denied_by fault.now (disk_of self.old)) }
        ensures order { unsynced self.new ≡ unsynced self.old }
    {
        self.check_runs()?;
        match fault {
            Fault::Refuse(n) => match self.refuse_call(*n) {
                Ok(()) => Ok(()),
                Err(_) => Err(ErrorKind::OutOfMemory),
            },
            Fault::RefuseInPart(n, count) => match self.refuse_in_part(*n, *count) {
                Ok(()) => Ok(()),
                Err(_) => Err(ErrorKind::OutOfMemory),
            },
            Fault::DenyRead(name, place) => match self.deny_read(name.as_str(), *place) {
                Ok(()) => Ok(()),
                Err(_) => Err(ErrorKind::OutOfMemory),
            },
            Fault::StopAt(n) => {
                self.stop_at(*n);
                Ok(())
            }
            Fault::StopAfter(n) => {
                self.stop_after(*n);
                Ok(())
            }
            Fault::Space(directory, bytes) => {
                match self.set_space(directory.as_str(), *bytes) {
                    Ok(()) => Ok(()),
                    Err(_) => Err(ErrorKind::OutOfMemory),
                }
            }
        }
    }

    ghost sound = { λ system. let storage = system.whole.sound in
        record {
          named = storage.named;
          one_name = storage.one_name;
          apart = storage.apart;
          home = storage.home;
          fresh = storage.fresh;
          files = storage.files;
        } };

    ghost truthful = { tt };
}
