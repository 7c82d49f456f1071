//! What a file system in memory holds. Each change is made whole; if memory runs out, not at all.
ghost use Rattle.raft_log_fs_state.specs.Listing.{TellsChild};

use crate::change::Change;
use crate::content::Content;
use crate::files::{Stored, change_file, flush_file, reserve};
use crate::order::sorted_stamps;
use crate::remainder::Remainder;
use crate::remains::left_files;
use std::alloc::{AllocError, Global};
use std::collections::BTreeMap;
use std::io::ErrorKind;

// Each file is shorter than this.
const LIMIT: usize = 1 << 63;

/// What a path names.
#[derive(Clone, Copy, Debug)]
pub enum Node {
    /// A directory.
    Directory,
    /// The file with this node number.
    File(usize),
}

/// What a file system in memory holds.
#[derive(Drop)]
pub struct Storage {
    /// The allocator.
    pub alloc: Global,
    /// What each path names.
    pub paths: BTreeMap<String, Node>,
    /// The files by their node numbers; none at a number whose file was deleted.
    pub files: Vec<Option<Stored>>,
    /// How many changes of files were made so far. A change's stamp is how many were made before it.
    pub made: u64,
}

impl Storage {
    ghost use Rattle.std.specs.Prelude.{nat_eq, ◌≡◌, ℕ, ◌+◌, ◌-◌, ◌++◌, [], min, take, drop, length, IsTrue, ◌↔◌, ◌⊎◌, ◌<◌, ◌≤◌, List, OnOk, OnErr, IfOk, IfErr, vec_len, is_some, map};
    ghost use Rattle.std.specs.String.{string_bytes, string_cmp};
    ghost use Rattle.std.specs.BTreeMap.{IsOrdered};
    ghost use Rattle.raft_log_fs.specs.Disk.{Wrote, ShortenedTo, GrewTo, file_limit, empty_disk, HasDirectory};
    ghost use Rattle.raft_log_fs.specs.Image.{end_of, IsImage};
    ghost use Rattle.raft_log_fs.specs.Calls.{created, with_directory};
    ghost use Rattle.raft_log_fs_state.specs.Changes.{change_of, rest_of, asked_of};
    ghost use Rattle.raft_log_fs_state.specs.Listing.{ListsNames};
    ghost use Rattle.raft_log_fs_state.specs.Held.{held_of, IfHeld, PutsHeld, ReadsNumber, ReadsFront};
    ghost use Rattle.raft_log_fs_state.specs.Storage.{file_named, is_directory, node_at, SameNodes, PutsNode, contents_of, unsynced_of, IsStorageSound};
    ghost use Rattle.raft_log_fs_state.specs.Steps.{IsSame, IsLeftBy, Makes, NotesGrowth, SyncsFile, AddsName, DropsName, MovesName, size_of, GrowsPast, IsRoomFault};

    /// A storage without directories and files.
    pub fn new(alloc: Global) -> Storage
        ensures contents { contents_of result ≡ empty_disk }
        ensures order { unsynced_of result ≡ [] }
        ensures whole { IsStorageSound result }
    {
        Storage {
            alloc,
            paths: BTreeMap::new(alloc),
            files: Vec::new(alloc),
            made: 0,
        }
    }

    /// What is at a path, or `None` if nothing is.
    pub fn node(&self, path: &str) -> Option<Node>
        ensures { result ≡ node_at self.now path.now }
    {
        self.paths.get(path).copied()
    }

    /// The node number of the file at a path, or `None` if there is no file.
    pub fn file(&self, path: &str) -> Option<usize>
        ensures { result ≡ file_named (node_at self.now path.now) }
    {
        match self.node(path) {
            Some(Node::File(id)) => Some(id),
            _ => None,
        }
    }

    /// Whether the file with this node number exists.
    pub fn has(&self, id: usize) -> bool
        ensures { result ≡ is_some (held_of self.now.files.items id) }
    {
        id < self.files.len() && self.files[id].is_some()
    }

    /// Whether there is a directory at a path.
    pub fn is_directory(&self, path: &str) -> bool
        ensures { result ≡ is_directory (node_at self.now path.now) }
    {
        matches!(self.node(path), Some(Node::Directory))
    }

    /// Whether a path's directory exists.
    pub fn has_directory(&self, path: &str) -> bool
        ensures { IsTrue result ↔ HasDirectory path.now (contents_of self.now) }
    {
        match path.rfind('/') {
            Some(at) => self.is_directory(&path[..at]),
            None => false,
        }
    }

    /// Copies the bytes of a file from `offset` on, until the room is full or they end. Returns how many. The contract
    /// covers only files that exist.
    pub fn read(&self, id: usize, offset: usize, room: &mut [u8]) -> usize
        ensures number { ReadsNumber self.now.files.items id offset (length room.old) result }
        ensures bytes { ReadsFront self.now.files.items id offset result room.old room.new }
    {
        if id < self.files.len() {
            if let Some(stored) = &self.files[id] {
                return stored.content.copy_out(offset, room);
            }
        }
        0
    }

    /// The size of a file in bytes; 0 if it doesn't exist.
    pub fn size(&self, id: usize) -> usize
        ensures { result ≡ size_of ((contents_of self.now).files id) }
    {
        if id < self.files.len() {
            if let Some(stored) = &self.files[id] {
                return stored.content.len();
            }
        }
        0
    }

    /// The names of the files in a directory, in the order of their bytes. Fails only if memory runs out.
    pub fn list(&self, directory: &str) -> Result<Vec<String>, AllocError>
        ensures names { IfOk result (λ names.
            ListsNames directory.now self.now.paths.entries (map string_bytes names.items)) }
        ensures ordered { IsOrdered string_cmp self.now.paths }
    {
        let mut names = Vec::new(self.alloc);
        for (path, node) in self.paths.iter() {
            if let Some(name) = child(directory, path, *node) {
                names.push(String::from_str(self.alloc, name)?)?;
            }
        }
        Ok(names)
    }

    /// The storage that a crash leaves, as `what` chooses: all its bytes are synced. Fails only if memory runs out.
    pub fn left(&self, what: &Remainder) -> Result<Storage, AllocError>
        requires { IsStorageSound self.now }
        ensures contents { IfOk result (IsLeftBy what.now self.now) }
        ensures order { IfOk result (λ after. unsynced_of after ≡ []) }
        ensures image { IfOk result (λ after. IsImage (contents_of self.now) (contents_of after)) }
        ensures whole { IfOk result (λ after. IsStorageSound after) }
    {
        let stamps = sorted_stamps(self.alloc, &self.files)?;
        let files = left_files(self.alloc, what, &stamps, &self.files)?;
        let paths = self.paths.clone()?;
        Ok(Storage {
            alloc: self.alloc,
            paths,
            files,
            made: 0,
        })
    }

    /// Writes into a file that exists, with zeros in a gap. `free` is in bytes. Nothing is written if it fails:
    /// - `StorageFull`: the file would reach 2^63 bytes, or grow by more than `free`.
    /// - `OutOfMemory`: memory ran out.
    pub fn write(
        &mut self,
        id: usize,
        offset: usize,
        bytes: &[u8],
        free: u64,
    ) -> Result<(), ErrorKind>
        requires there { (held_of self.old.files.items id ≡ None) → ⊥ }
        requires whole { IsStorageSound self.old }
        ensures ok { OnOk result (Makes id (Wrote offset bytes.now) [] self.old self.new) }
        ensures fits { OnOk result
            (GrowsPast free id (Wrote offset bytes.now) (contents_of self.old) → ⊥) }
        ensures err { OnErr result (IsSame self.old self.new) }
        ensures errors { IfErr result
            (IsRoomFault free id (Wrote offset bytes.now) (contents_of self.old)) }
        ensures whole { IsStorageSound self.new }
    {
        if LIMIT <= offset || LIMIT - offset <= bytes.len() {
            return Err(ErrorKind::StorageFull);
        }
        if !bytes.is_empty() && self.grows_past(id, offset + bytes.len(), free) {
            return Err(ErrorKind::StorageFull);
        }
        let change = Change::Write {
            offset,
            rest: Vec::new(self.alloc),
        };
        self.change(id, change, bytes)
            .map_err(|_| ErrorKind::OutOfMemory)
    }

    /// Writes the first `count` bytes of a write that fails, into a file that exists. The change keeps the others as
    /// its rest. If it fails, nothing is written:
    /// - `StorageFull`: the whole write would make the file reach 2^63 bytes, or grow by more than `free`.
    /// - `OutOfMemory`: memory ran out.
    pub fn write_front(
        &mut self,
        id: usize,
        offset: usize,
        bytes: &[u8],
        count: usize,
        free: u64,
    ) -> Result<(), ErrorKind>
        requires there { (held_of self.old.files.items id ≡ None) → ⊥ }
        requires whole { IsStorageSound self.old }
        ensures ok { OnOk result
            (Makes id (Wrote offset (take count bytes.now)) (drop count bytes.now) self.old self.new) }
        ensures fits { OnOk result
            (GrowsPast free id (Wrote offset bytes.now) (contents_of self.old) → ⊥) }
        ensures err { OnErr result (IsSame self.old self.new) }
        ensures errors { IfErr result
            (IsRoomFault free id (Wrote offset bytes.now) (contents_of self.old)) }
        ensures whole { IsStorageSound self.new }
    {
        if LIMIT <= offset || LIMIT - offset <= bytes.len() {
            return Err(ErrorKind::StorageFull);
        }
        if !bytes.is_empty() && self.grows_past(id, offset + bytes.len(), free) {
            return Err(ErrorKind::StorageFull);
        }
        let (front, rest) = bytes.split_at(count.min(bytes.len()));
        let Ok(rest) = Vec::from_slice(self.alloc, rest) else {
            return Err(ErrorKind::OutOfMemory);
        };
        self.change(id, Change::Write { offset, rest }, front)
            .map_err(|_| ErrorKind::OutOfMemory)
    }

    /// Truncates a file that exists to a size in bytes; a shorter file keeps its bytes. Fails only with `OutOfMemory`;
    /// then nothing changes.
    pub fn shorten(&mut self, id: usize, size: usize) -> Result<(), ErrorKind>
        requires there { (held_of self.old.files.items id ≡ None) → ⊥ }
        requires whole { IsStorageSound self.old }
        ensures ok { OnOk result (Makes id (ShortenedTo size) [] self.old self.new) }
        ensures err { OnErr result (IsSame self.old self.new) }
        ensures errors { IfErr result (λ error. error ≡ ErrorKind.OutOfMemory) }
        ensures whole { IsStorageSound self.new }
    {
        self.change(id, Change::Shortening { size }, &[])
            .map_err(|_| ErrorKind::OutOfMemory)
    }

    /// Extends a file that exists with zeros to `offset + size` bytes. If it fails, nothing changes:
    /// - `StorageFull`: that is 2^63 bytes or more, or the file would grow by more than `free`.
    /// - `OutOfMemory`: memory ran out.
    pub fn grow(
        &mut self,
        id: usize,
        offset: usize,
        size: usize,
        free: u64,
    ) -> Result<(), ErrorKind>
        requires there { (held_of self.old.files.items id ≡ None) → ⊥ }
        requires whole { IsStorageSound self.old }
        ensures ok { OnOk result (Makes id (GrewTo (offset + size)) [] self.old self.new) }
        ensures fits { OnOk result
            (GrowsPast free id (GrewTo (offset + size)) (contents_of self.old) → ⊥) }
        ensures err { OnErr result (IsSame self.old self.new) }
        ensures errors { IfErr result
            (IsRoomFault free id (GrewTo (offset + size)) (contents_of self.old)) }
        ensures whole { IsStorageSound self.new }
    {
        if LIMIT <= offset || LIMIT - offset <= size {
            return Err(ErrorKind::StorageFull);
        }
        let size = offset + size;
        if self.grows_past(id, size, free) {
            return Err(ErrorKind::StorageFull);
        }
        self.change(id, Change::Growth { size, rest: 0 }, &[])
            .map_err(|_| ErrorKind::OutOfMemory)
    }

    /// Adds a failed growth to the changes of a file that exists: of the zeros up to `size`, none is added. `size` is
    /// below 2^63. Fails only with `OutOfMemory`; then nothing changes.
    pub fn fail_to_grow(&mut self, id: usize, size: usize) -> Result<(), ErrorKind>
        requires there { (held_of self.old.files.items id ≡ None) → ⊥ }
        requires short { size < file_limit }
        requires whole { IsStorageSound self.old }
        ensures ok { OnOk result (NotesGrowth id size self.old self.new) }
        ensures err { OnErr result (IsSame self.old self.new) }
        ensures errors { IfErr result (λ error. error ≡ ErrorKind.OutOfMemory) }
        ensures whole { IsStorageSound self.new }
    {
        let made = self.size(id).min(size);
        let rest = size - made;
        match self.change(id, Change::Growth { size: made, rest }, &[]) {
            Ok(()) => Ok(()),
            Err(_) => Err(ErrorKind::OutOfMemory),
        }
    }

    /// Reserves memory for a change after which a file has `size` bytes. Changes nothing. It fails as the change would:
    /// - `StorageFull`: `size` is 2^63 or more.
    /// - `OutOfMemory`: memory ran out.
    pub fn make_room(&mut self, id: usize, size: usize) -> Result<(), ErrorKind>
        requires { IsStorageSound self.old }
        ensures same { IsSame self.old self.new }
        ensures ok { OnOk result (size < file_limit) }
        ensures errors { IfErr result (λ error. (error ≡ ErrorKind.OutOfMemory)
            ⊎ ((error ≡ ErrorKind.StorageFull) × (file_limit ≤ size))) }
        ensures whole { IsStorageSound self.new }
    {
        if LIMIT <= size {
            return Err(ErrorKind::StorageFull);
        }
        match reserve(&mut self.files, id, size) {
            Ok(()) => Ok(()),
            Err(_) => Err(ErrorKind::OutOfMemory),
        }
    }

    // Whether a file would grow by more than `free` bytes if it got this size.
    fn grows_past(&self, id: usize, size: usize, free: u64) -> bool
        ensures { IsTrue result ↔ (size_of ((contents_of self.now).files id) + free < size) }
    {
        free < size.saturating_sub(self.size(id)) as u64
    }

    // Makes a change of a file that exists; `bytes` are a write's. The change number 2^64 gets no stamp, and fails as
    // if memory ran out.
    fn change(&mut self, id: usize, change: Change, bytes: &[u8]) -> Result<(), AllocError>
        requires there { (held_of self.old.files.items id ≡ None) → ⊥ }
        requires short { end_of (asked_of change bytes.now) < file_limit }
        requires whole { IsStorageSound self.old }
        ensures ok { OnOk result (Makes id (change_of change bytes.now) (rest_of change) self.old self.new) }
        ensures err { OnErr result (IsSame self.old self.new) }
        ensures whole { IsStorageSound self.new }
    {
        if self.made == u64::MAX {
            return Err(AllocError);
        }
        change_file(&mut self.files, self.alloc, id, self.made, change, bytes)?;
        self.made += 1;
        Ok(())
    }

    /// Makes the bytes of a file that exists durable, in time linear in the number of its changes. It may fail for lack
    /// of memory, though the code asks for none now.
    pub fn flush(&mut self, id: usize) -> Result<(), AllocError>
        requires there { (held_of self.old.files.items id ≡ None) → ⊥ }
        requires whole { IsStorageSound self.old }
        ensures ok { OnOk result (SyncsFile id self.old self.new) }
        ensures err { OnErr result (IsSame self.old self.new) }
        ensures whole { IsStorageSound self.new }
    {
        flush_file(&mut self.files, id);
        Ok(())
    }

    /// Adds an empty file under a new name in a directory that exists. Its node number is the number of files created
    /// before it. Fails only if memory runs out; then nothing changes.
    pub fn add_file(&mut self, path: &str) -> Result<(), AllocError>
        requires free { node_at self.old path.now ≡ None }
        requires home { HasDirectory path.now (contents_of self.old) }
        requires whole { IsStorageSound self.old }
        ensures ok { OnOk result (AddsName (created path.now) self.old self.new) }
        ensures err { OnErr result (IsSame self.old self.new) }
        ensures whole { IsStorageSound self.new }
    {
        let id = self.files.len();
        self.files.reserve(1)?;
        self.name(path, Node::File(id))?;
        let empty = Stored::at_rest(self.alloc, Content::from_vec(Vec::new(self.alloc)));
        self.files.push(Some(empty)).unwrap();
        Ok(())
    }

    /// Adds a directory under a new name. Fails only if memory runs out.
    pub fn add_directory(&mut self, path: &str) -> Result<(), AllocError>
        requires free { node_at self.old path.now ≡ None }
        requires whole { IsStorageSound self.old }
        ensures ok { OnOk result (AddsName (with_directory path.now) self.old self.new) }
        ensures err { OnErr result (IsSame self.old self.new) }
        ensures whole { IsStorageSound self.new }
    {
        self.name(path, Node::Directory)?;
        Ok(())
    }

    /// Deletes a name and its file, with the file's unsynced changes.
    pub fn remove_file(&mut self, path: &str, id: usize)
        requires is { node_at self.old path.now ≡ Some (Node.File id) }
        requires whole { IsStorageSound self.old }
        ensures ok { DropsName path.now id self.old self.new }
        ensures whole { IsStorageSound self.new }
    {
        self.unname(path);
        self.drop_file(id);
    }

    /// Renames a file to a path whose directory exists, and at which there is no directory. Another file at that path
    /// is deleted. Fails only if memory runs out; then nothing changes.
    pub fn rename_file(&mut self, from: &str, to: &str, id: usize) -> Result<(), AllocError>
        requires is { node_at self.old from.now ≡ Some (Node.File id) }
        requires apart { node_at self.old to.now ≡ Some Node.Directory → ⊥ }
        requires home { HasDirectory to.now (contents_of self.old) }
        requires whole { IsStorageSound self.old }
        ensures ok { OnOk result (MovesName from.now to.now id self.old self.new) }
        ensures err { OnErr result (IsSame self.old self.new) }
        ensures whole { IsStorageSound self.new }
    {
        if from == to {
            return Ok(());
        }
        let replaced = self.file(to);
        self.name(to, Node::File(id))?;
        self.unname(from);
        match replaced {
            Some(gone) => {
                self.drop_file(gone);
                Ok(())
            }
            None => Ok(()),
        }
    }

    // Deletes a file.
    fn drop_file(&mut self, id: usize)
        ensures nodes { SameNodes self.old self.new }
        ensures len { vec_len self.new.files ≡ vec_len self.old.files }
        ensures files { PutsHeld id None self.old.files.items self.new.files.items }
        ensures made { self.new.made ≡ self.old.made }
    {
        if id < self.files.len() {
            self.files[id] = None;
        }
    }

    // Deletes a name.
    fn unname(&mut self, path: &str)
        ensures files { self.new.files ≡ self.old.files }
        ensures made { self.new.made ≡ self.old.made }
        ensures nodes { PutsNode path.now None self.old self.new }
    {
        self.paths.remove(path);
    }

    // Adds a name, or replaces what it names.
    fn name(&mut self, path: &str, node: Node) -> Result<(), AllocError>
        ensures files { self.new.files ≡ self.old.files }
        ensures made { self.new.made ≡ self.old.made }
        ensures ok { OnOk result (PutsNode path.now (Some node) self.old self.new) }
        ensures err { OnErr result (SameNodes self.old self.new) }
    {
        let path = String::from_str(self.alloc, path)?;
        match self.paths.insert(path, node) {
            Ok(_) => Ok(()),
            Err(_) => Err(AllocError),
        }
    }
}

/// The file's name in a directory, or `None` if the path isn't that of a file there.
pub fn child<'a>(directory: &str, path: &'a str, node: Node) -> Option<&'a str>
    ensures { TellsChild directory.now path.now node result }
{
    let Node::File(_) = node else {
        return None;
    };
    let Some(at) = path.rfind('/') else {
        return None;
    };
    if &path[..at] != directory {
        return None;
    }
    Some(&path[at + 1..])
}
