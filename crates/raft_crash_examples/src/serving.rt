//! A store serves a round, loses power, and serves another round after it.

ghost use Rattle.std.specs.Prelude.{IfOk};
ghost use Rattle.raft_crash_examples.specs.Serving.{ServesAcrossACrash};

use raft_voter::{Cause, Items, Memory, Reply, Request};
use raft_voter_world::{Left, VoterDisk, VoterStorage};
use std::alloc::Global;
use std::thread::Threads;

/// Why two rounds weren't served.
#[derive(Clone, Copy)]
pub enum NotServed {
    /// Opening the store failed, or a round of it was cut off.
    Cut(Cause),
    /// There was no memory for what the crash left.
    Memory,
}

/// Opens a store over files, serves a round, and loses power; `left` says what that leaves. Then opens the store again
/// and serves another round. Returns the replies to both.
pub fn serve_across_a_crash<
    R: Threads + Sync,
    S: VoterStorage<R> + Drop,
    F: VoterDisk<R, S> + Drop,
>(
    rt: &R,
    alloc: Global,
    files: F,
    left: &Left,
    before: &[(u64, Request)],
    behind: &[(u64, Request)],
) -> Result<(Items<Reply>, Items<Reply>), NotServed>
    ensures { IfOk result (λ told. ServesAcrossACrash S.service F.disk files
        before.now behind.now told.0 told.1) }
{
    let mut store = match files.open(rt, alloc, 1) {
        Ok(store) => store,
        Err(refused) => return Err(NotServed::Cut(refused.cause)),
    };
    let first = match store.serve(rt, before) {
        Ok(replies) => replies,
        Err(fault) => return Err(NotServed::Cut(fault.cause)),
    };
    let Ok(files) = F::crashed_under(&store, left) else {
        return Err(NotServed::Memory);
    };
    let mut store = match files.open(rt, alloc, 1) {
        Ok(store) => store,
        Err(refused) => return Err(NotServed::Cut(refused.cause)),
    };
    match store.serve(rt, behind) {
        Ok(second) => Ok((first, second)),
        Err(fault) => Err(NotServed::Cut(fault.cause)),
    }
}
