//! A law that follows from the definitions of sessions: the contract of an empty function.
ghost use Rattle.raft_voter_session.specs.Laws.{SessionsAreReadBack};

/// Reading the text of a session returns its settings and events, if they can be written as a session.
pub fn sessions_are_read_back()
    ensures { SessionsAreReadBack }
{}
