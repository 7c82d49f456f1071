//! The least file of a queue that a table needs, and the noted files of atomic groups.
ghost use Rattle.std.specs.Prelude.{◌≡◌};
ghost use Rattle.raft_log_memtable_index.specs.Noted.{start_of};
ghost use Rattle.raft_log_memtable.specs.Files.{least_rewritten, min_file, noted_after, with_group, IsLeastRewritten, IsMinFile, NotesGroup};
ghost use Rattle.raft_log_memtable.specs.Table.{promise, shown, IsBoundAs};

use super::MemTable;
use raft_log_memtable_index::{GroupFiles, lesser};
use raft_log_record_base::{FileSeq, LogQueue};

impl MemTable {
    /// The least file of a queue in use, if there is one. For Append it is the file of the first appended entry, or
    /// that of a value if this is lower. For Rewrite it is the same, or the first file of the noted groups if they may
    /// reach to it. Of the entries in a queue only the first one's file is looked at: file numbers must not fall along
    /// them.
    pub fn min_file_seq(&self, queue: LogQueue) -> Option<FileSeq>
        ensures exact { IsMinFile queue (shown self.now) result }
        ensures slots { result ≡ min_file queue self.now }
    {
        match queue {
            LogQueue::Append => {
                let place = self.places.get(self.rewritten);
                lesser(place.map(|p| p.file), self.keys.least_file(true))
            }
            LogQueue::Rewrite => {
                let least = self.least_rewritten()?;
                Some(start_of(least, self.noted))
            }
        }
    }

    /// The file of the first rewritten entry or the least one of a rewritten value, the lesser of them, if there is
    /// one.
    fn least_rewritten(&self) -> Option<FileSeq>
        ensures exact { IsLeastRewritten (shown self.now) result }
        ensures slots { result ≡ least_rewritten self.now }
    {
        let place = if self.rewritten > 0 {
            self.places.get(0)
        } else {
            None
        };
        lesser(place.map(|p| p.file), self.keys.least_file(false))
    }

    /// Notes the files of an atomic group of Rewrite that ended, after its copies were moved. The files noted before
    /// stay noted while something is in a file up to their last one.
    pub fn apply_rewrite_atomic_group(&mut self, files: GroupFiles)
        ensures exact { NotesGroup files (shown self.old) (shown self.new) }
        ensures shows { shown self.new ≡ with_group self.old files }
        ensures room { promise self.new ≡ promise self.old }
        ensures bounds { IsBoundAs self.old self.new }
    {
        self.noted = Some(noted_after(self.least_rewritten(), self.noted, files));
    }
}

/// The first file that must stay for what is in this file to count.
fn start_of(file: FileSeq, noted: Option<GroupFiles>) -> FileSeq
    ensures { result ≡ start_of file noted }
{
    match noted {
        Some(files) if file <= files.to => file.min(files.from),
        _ => file,
    }
}

/// The files of groups to note once a new group has ended, if `least` is the least file that has something.
fn noted_after(least: Option<FileSeq>, old: Option<GroupFiles>, new: GroupFiles) -> GroupFiles
    ensures { result ≡ noted_after least old new }
{
    let Some(least) = least else {
        return new;
    };
    match old {
        Some(old) if least <= old.to => GroupFiles {
            from: old.from.min(new.from),
            to: old.to.max(new.to),
        },
        _ => new,
    }
}
