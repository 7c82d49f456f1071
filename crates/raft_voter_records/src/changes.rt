//! What is written for a request that a voter takes.

ghost use Rattle.raft_voter_records.specs.Laws.{DecisionsAreWritten, RecordsLead};

/// A request's record, applied to a map, leads from the voters that the map means to those after the request. The voter
/// of its own group takes it, and the others stay.
pub fn records_lead()
    ensures { RecordsLead }
{}

/// What is written, found from the old voter and the new one, is what an outline decides, the same for all voters with
/// that outline. It is the entries from the first that differs or is new, or a Compact, and then the state. For a
/// Retire it is only a Clean.
pub fn decisions_are_written()
    ensures { DecisionsAreWritten }
{}
