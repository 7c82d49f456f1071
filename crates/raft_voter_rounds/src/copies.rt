//! Copies of requests and replies.
ghost use Rattle.std.specs.Prelude.{◌≡◌, true, IfOk, OnErr};
ghost use Rattle.raft_voter_rounds.specs.Handing.{is_read};

use raft_voter::{Entry, Items, Memory, Reply, Request};
use std::alloc::Global;

/// Copies the requests, each with its group.
pub fn copy_requests(
    alloc: Global,
    requests: &[(u64, Request)],
) -> Result<Items<(u64, Request)>, Memory>
    ensures { IfOk result (λ copy. copy ≡ requests.now) }
{
    let mut copy = Vec::with_capacity(alloc, requests.len())?;
    for (group, request) in requests {
        let again = copy_request(alloc, request)?;
        copy.push((*group, again))?;
    }
    Ok(Items::from_vec(copy))
}

/// Copies a request.
fn copy_request(alloc: Global, request: &Request) -> Result<Request, Memory>
    ensures { IfOk result (λ copy. copy ≡ request.now) }
{
    let copy = match request {
        Request::Vote {
            term,
            candidate,
            last_index,
            last_term,
        } => Request::Vote {
            term: *term,
            candidate: *candidate,
            last_index: *last_index,
            last_term: *last_term,
        },
        Request::Append {
            term,
            prev_index,
            prev_term,
            commit,
            entries,
        } => Request::Append {
            term: *term,
            prev_index: *prev_index,
            prev_term: *prev_term,
            commit: *commit,
            entries: copy_sent(alloc, entries.as_slice())?,
        },
        Request::Compact { index } => Request::Compact { index: *index },
        Request::Install {
            term,
            index,
            entry_term,
        } => Request::Install {
            term: *term,
            index: *index,
            entry_term: *entry_term,
        },
        Request::Read { from, to } => Request::Read {
            from: *from,
            to: *to,
        },
        Request::Status => Request::Status,
        Request::Retire => Request::Retire,
    };
    Ok(copy)
}

/// Copies the entries of an `Append`.
fn copy_sent(alloc: Global, entries: &[(u64, Items<u8>)]) -> Result<Items<(u64, Items<u8>)>, Memory>
    ensures { IfOk result (λ copy. copy ≡ entries.now) }
{
    let mut copy = Vec::with_capacity(alloc, entries.len())?;
    for (term, bytes) in entries {
        copy.push((*term, Items::from_slice(alloc, bytes.as_slice())?))?;
    }
    Ok(Items::from_vec(copy))
}

/// Copies a reply. Only a reply with entries that were read needs memory.
pub fn copy_reply(alloc: Global, reply: &Reply) -> Result<Reply, Memory>
    ensures ok { IfOk result (λ copy. copy ≡ reply.now) }
    ensures err { OnErr result (is_read reply.now ≡ true) }
{
    let copy = match reply {
        Reply::Granted(term) => Reply::Granted(*term),
        Reply::Denied(term) => Reply::Denied(*term),
        Reply::Matched(index) => Reply::Matched(*index),
        Reply::Mismatch(index) => Reply::Mismatch(*index),
        Reply::Stale(term) => Reply::Stale(*term),
        Reply::Base(index) => Reply::Base(*index),
        Reply::Entries(entries) => Reply::Entries(copy_read(alloc, entries.as_slice())?),
        Reply::Gone(index) => Reply::Gone(*index),
        Reply::Unknown(index) => Reply::Unknown(*index),
        Reply::Status(state) => Reply::Status(*state),
        Reply::Retired => Reply::Retired,
        Reply::Refused => Reply::Refused,
    };
    Ok(copy)
}

/// Copies entries that were read.
fn copy_read(alloc: Global, entries: &[Entry]) -> Result<Items<Entry>, Memory>
    ensures { IfOk result (λ copy. copy ≡ entries.now) }
{
    let mut copy = Vec::with_capacity(alloc, entries.len())?;
    for entry in entries {
        let bytes = Items::from_slice(alloc, entry.bytes.as_slice())?;
        let (index, term) = (entry.index, entry.term);
        copy.push(Entry { index, term, bytes })?;
    }
    Ok(Items::from_vec(copy))
}
