//! Laws of calls on names.

ghost use Rattle.std.specs.Prelude.{List, ℕ};
ghost use Rattle.raft_log_fs.specs.Disk.{File};
ghost use Rattle.raft_log_fs.specs.Names.{NamesChange};
ghost use Rattle.raft_log_fs.specs.Touching.{OtherNamesStay};

/// A creation, a deletion and a renaming change only their own names and files. A renamed file keeps its bytes and its
/// unsynced changes. For a creation, the disk must be sound.
pub fn names_change()
    ensures { NamesChange }
{}

/// Defines which names are a queue's own, and what is known of a file.
pub trait Owning {
    ghost own: { List ℕ → Type 0 };

    ghost known: { File → Type 0 };
}

/// What is known of the file of another name stays true if only the queue's own names were touched.
pub fn other_names_stay<W: Owning>()
    ensures { OtherNamesStay W.own W.known }
{}
