//! Laws that follow from the definitions of stored forms. Each is the contract of an empty function.
ghost use Rattle.raft_voter_messages.specs.Laws.{EntriesAreReadBack, OneEntry, OneEntryFault, OneState, OneStateFault, StatesAreReadBack};

/// Bytes encode at most one state, whatever their form.
pub fn one_state()
    ensures { OneState }
{}

/// Bytes with a fault encode no state, and their first fault is unique: `read_state` can return only one result.
pub fn one_state_fault()
    ensures { OneStateFault }
{}

/// The bytes that `state_bytes` writes for a state in range are read as that state, with its base in place of the last
/// entry.
pub fn states_are_read_back()
    ensures { StatesAreReadBack }
{}

/// Bytes encode at most one entry, at one index.
pub fn one_entry()
    ensures { OneEntry }
{}

/// Bytes with a fault other than `Memory` encode no entry at that index, and their first fault is unique.
pub fn one_entry_fault()
    ensures { OneEntryFault }
{}

/// The bytes that `entry_bytes` writes for an entry in range are read as that entry.
pub fn entries_are_read_back()
    ensures { EntriesAreReadBack }
{}
