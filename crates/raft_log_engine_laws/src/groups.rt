//! Laws of each record of an atomic group: what its write leaves, whether it succeeds or fails.

ghost use Rattle.raft_log_engine_laws.specs.Ending.{
  RefusedEndsKeepTheMap,
  WholeGroupsAreNoted,
  WholeGroupsMayEnd,
  WrittenEndsKeepTheMap,
};
ghost use Rattle.raft_log_engine_laws.specs.LeftOpen.{
  GroupsLeftOpenCountNot,
  GroupsMayBeGivenUp,
  NewGroupsEndNoOldOnes,
};
ghost use Rattle.raft_log_engine_laws.specs.Restating.{RestatedGroupsAreWhole};
ghost use Rattle.raft_log_engine_laws.specs.Taking.{EndsOverTables, MovesOnePart, TablesTakeWholeGroups};
ghost use Rattle.raft_log_engine_laws.specs.Whole.{MovedFilesRise, WholeGroupsAreMoved};
ghost use Rattle.raft_log_engine_laws.specs.GroupWriting.{
  RefusedPartsKeepTheMap,
  SyncsLeaveGroupsOpen,
  WrittenPartsKeepTheMap,
};

/// A part that begins or continues a group keeps the map: nothing of it counts yet.
pub fn written_parts_keep_the_map()
    ensures { WrittenPartsKeepTheMap }
{}

/// If Rewrite fails to write a part that begins or continues a group, the map is kept, and the group may be given up.
/// After `NumberRange` or `Memory` an open group may also continue.
pub fn refused_parts_keep_the_map()
    ensures { RefusedPartsKeepTheMap }
{}

/// A sync between the records of a group leaves it open.
pub fn synced_groups_stay_open()
    ensures { SyncsLeaveGroupsOpen }
{}

/// The part that ends a group keeps the map. What the tables show then is where the whole group was written.
pub fn written_ends_keep_the_map()
    ensures { WrittenEndsKeepTheMap }
{}

/// Suppose Rewrite fails to write the part that ends a group, and the tables don't change. Then the map is kept,
/// whether the part is there or not.
pub fn refused_ends_keep_the_map()
    ensures { RefusedEndsKeepTheMap }
{}

/// An open group may be given up: the log has the same map. If no later record continues it, the other records count as
/// if nothing of the group were there.
pub fn groups_stay_open<E, V>()
    ensures engine { GroupsMayBeGivenUp }
    ensures records { GroupsLeftOpenCountNot E V }
{}

/// Later records whose groups have higher numbers than all groups left open complete none of these, and count as if
/// none had been left open.
pub fn open_groups_count_not<E, V>()
    ensures { NewGroupsEndNoOldOnes E V }
{}

/// The file numbers along a group's entries don't fall after they moved into the files of a whole atomic group.
pub fn moved_files_rise<E>()
    ensures { MovedFilesRise E }
{}

/// What a whole group moves, part after part and each in its own file, are copies that may be made. What the parts
/// say joins to what the copies say.
pub fn whole_groups_are_moved<E>()
    ensures { WholeGroupsAreMoved E }
{}

/// The tables may take a whole group at its end. A table notes the group's files with a file below which it has
/// nothing in Rewrite.
pub fn whole_groups_may_end<E>()
    ensures ends { WholeGroupsMayEnd E }
    ensures noted { WholeGroupsAreNoted }
{}

/// Batches are a whole group, wherever they are written, if they say what Rewrite has of each group. That is its
/// rewritten entries in pieces, and rewritten keys with their values.
pub fn restated_groups_are_whole()
    ensures { RestatedGroupsAreWhole }
{}

/// Tables that take the parts of a whole group, one after another, and then note its files, show the whole group.
pub fn tables_take_whole_groups<E>()
    ensures part { MovesOnePart }
    ensures whole { TablesTakeWholeGroups E }
{}

/// The end of a group in which a purge rewrites one raft group keeps the map, if the tables took it. The law requires
/// only what was written and what the tables did.
pub fn rewritten_groups_keep_the_map()
    ensures { EndsOverTables }
{}
