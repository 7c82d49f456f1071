//! Which voters a map means.

ghost use Rattle.raft_voter_records.specs.Laws.{EmptyMapsAreFresh, ForeignExactly, ForeignGroupsAreForeign, OneVoter, OneWorld, ReadGroupsHoldVoters, SameMapsMeanTheSame, VotersAreRead};

/// A group has one voter at most.
pub fn one_voter()
    ensures { OneVoter }
{}

/// A map means one world at most.
pub fn one_world()
    ensures { OneWorld }
{}

/// An empty map means fresh voters.
pub fn empty_maps_are_fresh()
    ensures { EmptyMapsAreFresh }
{}

/// Two maps with the same content mean the same voters.
pub fn same_maps_mean_the_same()
    ensures { SameMapsMeanTheSame }
{}

/// Suppose a group's only key is read as a state, and its entries are read from right after the state's base on. If the
/// last index is below 2^63, the group holds the voter with this state and these entries.
pub fn read_groups_hold_voters()
    ensures { ReadGroupsHoldVoters }
{}

/// A group that holds a voter is read as its state and its entries.
pub fn voters_are_read()
    ensures { VotersAreRead }
{}

/// A group is foreign if and only if it holds something, and no voter.
pub fn foreign_exactly()
    ensures { ForeignExactly }
{}

/// A group is foreign if it has another key, if it has something but no key, or if the bytes under the key are no
/// state. It is foreign if it has an entry at or below the base, after a gap, out of range, or whose bytes are no
/// entry.
pub fn foreign_groups_are_foreign()
    ensures { ForeignGroupsAreForeign }
{}
