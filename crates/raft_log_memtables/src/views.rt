//! Each change of the tables is a change of the view.

ghost use Rattle.std.specs.Prelude.{List};
ghost use Rattle.raft_log_record_base.specs.declared.pipe_log.FileBlockHandle.{FileBlockHandle};
ghost use Rattle.raft_log_record_items.specs.declared.item.LogItem.{LogItem};
ghost use Rattle.raft_log_record_items.specs.Placed.{written};
ghost use Rattle.raft_log_record_frames.specs.Meaning.{tagged_items};
ghost use Rattle.raft_log_extents.specs.Entries.{place_of};
ghost use Rattle.raft_log_memtables.specs.Views.{BatchGrowsTheView, CopiesCarryTheView, GroupEndsTheView, LieIn, MarksCarryTheView};

/// A batch that was written to a file of Append, and that the tables apply, is a step of the view. Its runs must leave
/// no hole and no index too high, as `prepare` ensures, and its entries must be in that file.
pub fn batch_grows_the_view<E>()
    ensures { BatchGrowsTheView E }
{}

/// The entries of a batch are in the file that it was written to.
pub fn written_entries_lie_in_their_file()
    ensures { (handle : FileBlockHandle) (items : List LogItem)
        → LieIn handle.id.seq (tagged_items place_of (written handle items)) }
{}

/// Copies out of Append, or of restated records, are a step of the view. They must be written to a file of Rewrite, in
/// a record that counts at once. The map stays.
pub fn copies_carry_the_view<E>()
    ensures { CopiesCarryTheView E }
{}

/// A record of the owed tombstones is a step of the view. The map stays, and none of them is owed any more.
pub fn marks_carry_the_view<E>()
    ensures { MarksCarryTheView E }
{}

/// An atomic group of copies is a step of the view at its end. The map stays, and its files are noted, from the file of
/// its begin on.
pub fn group_ends_the_view<E>()
    ensures { GroupEndsTheView E }
{}
