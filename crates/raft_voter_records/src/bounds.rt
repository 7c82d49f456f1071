//! The most bytes of the record of a request to a voter. A caller of a store thus knows before a request how much of
//! the log it may take.
ghost use Rattle.raft_voter_records.specs.BoundsLaws.{RequestsTakeLittle};

/// The record of a request has at most 145 bytes, plus 27 for each entry that it brings, plus the entries' bytes. For a
/// request in range that is at most 1,076,369 bytes.
pub fn requests_take_little()
    ensures { RequestsTakeLittle }
{}
