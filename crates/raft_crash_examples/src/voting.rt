//! A node votes, loses power, and gets a request for the same term's vote from another candidate.

ghost use Rattle.std.specs.Prelude.{◌≡◌, IfOk};
ghost use Rattle.raft_crash_examples.specs.Voting.{VotesAcrossACrash};

use crate::serving::{NotServed, serve_across_a_crash};
use raft_voter::{Items, Reply, Request};
use raft_voter_world::{Left, VoterDisk, VoterStorage};
use std::alloc::Global;
use std::thread::Threads;

/// Candidate 2 requests the vote of group 1 in term 5. Power is lost; `left` says what that leaves. Then candidate 3
/// requests the same vote. Returns the replies to both.
pub fn vote_across_a_crash<R: Threads + Sync, S: VoterStorage<R> + Drop, F: VoterDisk<R, S> + Drop>(
    rt: &R,
    alloc: Global,
    files: F,
    left: &Left,
) -> Result<(Items<Reply>, Items<Reply>), NotServed>
    ensures { IfOk result (λ told. VotesAcrossACrash S.service F.disk files told.0 told.1) }
{
    let first = [(1, vote_for(2))];
    let second = [(1, vote_for(3))];
    serve_across_a_crash::<R, S, F>(rt, alloc, files, left, &first, &second)
}

/// A candidate requests the vote in term 5.
fn vote_for(candidate: u64) -> Request
    ensures { result ≡ Request.Vote 5 candidate 0 0 }
{
    Request::Vote {
        term: 5,
        candidate,
        last_index: 0,
        last_term: 0,
    }
}
