//! Restores a voter from what was stored of it.
ghost use Rattle.std.specs.Prelude.{◌≡◌, ◌+◌, true, Ok, map, IfOk, IfErr};
ghost use Rattle.std.specs.List.{list_all};
ghost use Rattle.raft_voter_outline.specs.Restoring.{are_in_order, restored, RestoreFault};
ghost use Rattle.raft_voter_messages.specs.StoredForms.{stored_entry_fits};

use super::Voter;
use crate::{Entry, Items, Memory, StoredFault, VoterState};
use raft_voter_messages::{state_fits, stored_entry_fits};
use raft_voter_outline::Outline;
use std::alloc::Global;

impl Voter {
    /// Restores the voter with this state and these entries. Ignores the last entry that the state names. Fails with
    /// the first of these:
    /// - `Range`: a number is out of range, an entry is too long, or the base is above the commit.
    /// - `Order`: the entries are not consecutive from the base on.
    /// - `Memory`: memory ran out.
    pub fn restore(
        alloc: Global,
        state: VoterState,
        entries: Items<Entry>,
    ) -> Result<Voter, StoredFault>
        ensures ok { IfOk result (λ voter. restored state entries ≡ Ok voter) }
        ensures err { IfErr result (λ fault. RestoreFault fault (restored state entries)) }
    {
        if !state_fits(&state) || !all_fit(entries.as_slice()) {
            return Err(StoredFault::Range);
        }
        if !are_in_order(state.base_index + 1, entries.as_slice()) {
            return Err(StoredFault::Order);
        }
        let Ok(log) = log_of(alloc, entries.into_vec()) else {
            return Err(StoredFault::Memory);
        };
        let Ok(outline) = Outline::restore(alloc, &state, log.as_slice()) else {
            return Err(StoredFault::Memory);
        };
        Ok(Voter { outline, log })
    }
}

fn all_fit(entries: &[Entry]) -> bool
    ensures { result ≡ list_all stored_entry_fits entries.now }
{
    entries.iter().all(|entry| stored_entry_fits(entry))
}

/// Whether the entries are consecutive, and the first is at `first`.
fn are_in_order(first: u64, entries: &[Entry]) -> bool
    requires { list_all stored_entry_fits entries.now ≡ true }
    ensures { result ≡ are_in_order first entries.now }
{
    let mut index = first;
    for entry in entries {
        if entry.index != index {
            return false;
        }
        index += 1;
    }
    true
}

/// Returns the entries without their indexes.
fn log_of(alloc: Global, entries: Vec<Entry>) -> Result<Vec<(u64, Items<u8>)>, Memory>
    ensures { IfOk result (λ log. log.items ≡ map (λ e. (e.term, e.bytes)) entries.items) }
{
    let log = entries
        .into_iter()
        .map(|entry| (entry.term, entry.bytes))
        .collect(alloc)?;
    Ok(log)
}
