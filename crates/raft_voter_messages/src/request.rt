//! Requests to a voter.
ghost use Rattle.std.specs.Prelude.{◌≡◌, ◌^◌, ◌<◌};
ghost use Rattle.std.specs.List.{list_all};
ghost use Rattle.raft_voter_messages.specs.Ranges.{entries_fit, entry_fits, fits, in_range, total_bytes};

use crate::Items;

/// The greatest index, term or candidate.
pub const MAX_NUMBER: u64 = 0x7fff_ffff_ffff_ffff;

/// The most entries that one `Append` brings.
pub const MAX_APPEND_ENTRIES: usize = 1024;

/// The most bytes that one entry has.
pub const MAX_ENTRY_BYTES: usize = 65_535;

/// The most bytes that the entries of one `Append` have together.
pub const MAX_APPEND_BYTES: usize = 1_048_576;

/// A request to one voter: a Raft message that it receives, or a call of its own node.
#[derive(Debug, PartialEq, Drop)]
pub enum Request {
    /// A candidate asks for a vote (Raft paper, RequestVote).
    Vote {
        /// The candidate's term.
        term: u64,
        /// The candidate's number.
        candidate: u64,
        /// The index of the candidate's last entry.
        last_index: u64,
        /// The term of the candidate's last entry.
        last_term: u64,
    },
    /// A leader sends entries, or none as a heartbeat (Raft paper, AppendEntries).
    Append {
        /// The leader's term.
        term: u64,
        /// The index right before the entries.
        prev_index: u64,
        /// The term of the leader's entry at that index.
        prev_term: u64,
        /// The index up to which the leader knows entries to be committed.
        commit: u64,
        /// The term and the bytes of each entry, from `prev_index + 1` on.
        entries: Items<(u64, Items<u8>)>,
    },
    /// The node has a snapshot up to an index, so the voter may delete the entries up to it.
    Compact {
        /// The last index to delete.
        index: u64,
    },
    /// The node installed a leader's snapshot (Raft paper, InstallSnapshot).
    Install {
        /// The leader's term.
        term: u64,
        /// The index of the last entry that the snapshot covers.
        index: u64,
        /// The term of that entry.
        entry_term: u64,
    },
    /// The node asks for the entries of an index range.
    Read {
        /// The first index.
        from: u64,
        /// One past the last index.
        to: u64,
    },
    /// The node asks for the voter's state.
    Status,
    /// The group leaves the node; its voter becomes a fresh one.
    Retire,
}

impl Request {
    /// Whether a voter takes this request. All its numbers, and the index of the last entry of an `Append`, must be at
    /// most `MAX_NUMBER`. An `Append` must also keep the limits on entries and bytes. A voter replies `Refused` to any
    /// other request.
    pub fn in_range(&self) -> bool
        ensures { result ≡ in_range self.now }
    {
        match self {
            Request::Vote {
                term,
                candidate,
                last_index,
                last_term,
            } => all_fit(&[*term, *candidate, *last_index, *last_term]),
            Request::Append {
                term,
                prev_index,
                prev_term,
                commit,
                entries,
            } => {
                all_fit(&[*term, *prev_term, *commit])
                    && entries_fit(*prev_index, entries.as_slice())
            }
            Request::Compact { index } => fits(*index),
            Request::Install {
                term,
                index,
                entry_term,
            } => all_fit(&[*term, *index, *entry_term]),
            Request::Read { from, to } => all_fit(&[*from, *to]),
            Request::Status | Request::Retire => true,
        }
    }
}

/// Whether a number is at most `MAX_NUMBER`.
pub(crate) fn fits(number: u64) -> bool
    ensures { result ≡ fits number }
{
    number <= MAX_NUMBER
}

/// Whether all these numbers are at most `MAX_NUMBER`.
pub(crate) fn all_fit(numbers: &[u64]) -> bool
    ensures { result ≡ list_all fits numbers.now }
{
    numbers.iter().all(|number| fits(*number))
}

/// Whether the entries that an `Append` brings after this index keep the limits.
fn entries_fit(prev_index: u64, entries: &[(u64, Items<u8>)]) -> bool
    ensures { result ≡ entries_fit prev_index entries.now }
{
    if entries.len() > MAX_APPEND_ENTRIES || !fits(prev_index) || !each_fits(entries) {
        return false;
    }
    let last = prev_index + entries.len() as u64;
    fits(last) && total_bytes(entries) <= MAX_APPEND_BYTES
}

/// Whether each of these entries has a term in range and isn't too long.
fn each_fits(entries: &[(u64, Items<u8>)]) -> bool
    ensures { result ≡ list_all entry_fits entries.now }
{
    entries.iter().all(|entry| entry_fits(entry))
}

/// Whether an entry has a term in range and isn't too long.
fn entry_fits(entry: &(u64, Items<u8>)) -> bool
    ensures { result ≡ entry_fits entry.now }
{
    fits(entry.0) && entry.1.len() <= MAX_ENTRY_BYTES
}

/// How many bytes these entries have together.
fn total_bytes(entries: &[(u64, Items<u8>)]) -> usize
    requires { total_bytes entries.now < 2 ^ 64 }
    ensures { result ≡ total_bytes entries.now }
{
    entries.iter().map(|entry| entry.1.len()).sum()
}
