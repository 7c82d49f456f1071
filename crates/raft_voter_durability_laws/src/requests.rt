//! One request of a round: served, turned down, or the one at which the engine failed.

ghost use Rattle.raft_voter_durability_laws.specs.Laws.{EnginesAreCounted, FetchedEntriesAreRead, ReadRequestsAreServed, ToldRequestsAreServed, UnfetchedEntriesAreUnread, UnmadeRequestsAreTurnedDown, UnreadRequestsAreTurnedDown, UnwrittenRequests, WrittenRequestsAreServed};

/// A request that leaves its voter unchanged is served if the reply follows from the outline: nothing is read, and
/// nothing written.
pub fn told_requests_are_served()
    ensures { ToldRequestsAreServed }
{}

/// A request is served if the batch of its change was written, and its group's outline made the same step.
pub fn written_requests_are_served()
    ensures { WrittenRequestsAreServed }
{}

/// A request for entries is served if they were read.
pub fn read_requests_are_served()
    ensures { ReadRequestsAreServed }
{}

/// If a request's batch, of less than 2^56 bytes, wasn't written, the request is turned down, or the engine failed at
/// it. It is turned down if a file call failed, the file numbers are used up, or memory ran out. No other error occurs.
pub fn unwritten_requests()
    ensures { UnwrittenRequests }
{}

/// A request for which memory ran out before its write is turned down with `Memory`.
pub fn unmade_requests_are_turned_down()
    ensures { UnmadeRequestsAreTurnedDown }
{}

/// A request for entries that weren't read is turned down.
pub fn unread_requests_are_turned_down()
    ensures { UnreadRequestsAreTurnedDown }
{}

/// An engine's tables show no entry of a group without an item after its last Clean. So a fetch of entries that are
/// there reads them.
pub fn engines_are_counted()
    ensures { EnginesAreCounted }
{}

/// Entries that an engine fetched are those of the group's voter, if each message is raw bytes that parse as an entry
/// at its index.
pub fn fetched_entries_are_read<M>()
    ensures { FetchedEntriesAreRead M }
{}

/// If an engine fails to fetch entries that the outline has, they weren't read: the file of one of them can't be read,
/// or memory ran out.
pub fn unfetched_entries_are_unread<M>()
    ensures { UnfetchedEntriesAreUnread M }
{}
