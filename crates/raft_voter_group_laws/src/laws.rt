//! Laws about one group of a transcript. Each is the contract of a function that does nothing.
ghost use Rattle.raft_voter_group_laws.specs.Laws.{AccountListsTakenCalls, AppendedEntryIsRead, EachGroupHasOneVoter, EachGroupKeepsItsVoter, GroupsAloneExplain};

use raft_voter::laws::entries_are_the_log;

/// Each group sees exactly the replies of one voter that never crashes. That voter takes this group's requests in
/// order, except two kinds: those that were refused, and the tail of a round that ended without replies. The reply to a
/// refused request is `Refused`. A round without replies shows nothing.
pub fn each_group_has_one_voter()
    ensures { EachGroupHasOneVoter }
{}

/// The same holds for rounds that start with any voters. Each group then ends with the voter that took these requests.
pub fn each_group_keeps_its_voter()
    ensures { EachGroupKeepsItsVoter }
{}

/// Nothing is lost by looking at each group alone. Suppose each group has its one voter, and the positions of refused
/// requests, replies and cuts fit the rounds. Then voters that never fail explain the whole transcript.
pub fn groups_alone_explain()
    ensures { GroupsAloneExplain }
{}

/// The group's account has exactly the requests that this one voter takes, each with what its caller saw. Many laws of
/// `raft_voter` are about this account, as that a group doesn't vote twice in one term.
pub fn account_lists_taken_calls()
    ensures { AccountListsTakenCalls }
{}

/// A later Read of its index returns an entry that a matched Append brought, unless a request between them removed it.
/// An Append with another term at or below its index, a Compact, an Install and a Retire may remove it. If the voter
/// had an entry of the same term there before the Append, the Read may return the bytes of that one.
pub fn appended_entry_is_read()
    ensures { AppendedEntryIsRead }
{
    entries_are_the_log();
}
