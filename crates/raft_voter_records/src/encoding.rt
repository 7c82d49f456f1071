//! Laws about a batch that was filled with a change of a voter; no code runs.
ghost use Rattle.raft_voter_records.specs.EncodingLaws.{ChangesAreSaid, ChangesAreShort};

/// A batch that was filled with a change says what was decided for its group: the record that leads from the voters
/// before the change to those after it.
pub fn changes_are_said()
    ensures { ChangesAreSaid }
{}

/// The record of a change has less than two mebibytes, since a request in range has at most one of entries.
pub fn changes_are_short()
    ensures { ChangesAreShort }
{}
