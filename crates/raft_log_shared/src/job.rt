//! Batches that callers hand in.
ghost use Rattle.std.specs.Prelude.{◌≡◌, ◌<◌, ◌∷◌, [], false, true};
ghost use Rattle.raft_log_shared.specs.Calls.{answer_of, synced, wrote};
ghost use Rattle.raft_log_shared.specs.Receipts.{IsHome, after_sync, sync_answer, waits};

use crate::ask::Ask;
use crate::claim::Claim;
use crate::done::Done;
use crate::history::History;
use crate::opening::Opening;
use crate::receipt::Receipt;
use raft_log_record_base::{Error, Result};
use raft_log_record_batches::LogBatch;

/// A batch that waits to be written.
#[derive(Drop)]
pub struct Job<L: Opening> {
    /// The request.
    pub ask: Ask<L>,
    /// The batch.
    pub batch: LogBatch,
    /// Whether its caller waits for a sync.
    pub sync: bool,
    ghost same: { (ask.batch ≡ batch) × (ask.sync ≡ sync) },
}

/// A sync that was made for callers who wait for one.
#[derive(Drop)]
pub struct Synced<L: Opening> {
    /// Whether it failed.
    pub failed: bool,
    /// The claim for its record.
    pub claim: Claim<L>,
    ghost is: { claim.1 ≡ synced (sync_answer failed) ∷ [] },
}

/// A batch after its write. Its caller may wait for a sync.
#[derive(Drop)]
pub struct Part<L: Opening> {
    /// The request.
    pub ask: Ask<L>,
    /// What is left of the batch.
    pub batch: LogBatch,
    /// Whether its caller asked for a sync.
    pub sync: bool,
    /// The length of the batch's record in bytes, or why the write failed.
    pub result: Result<usize>,
    /// The claim for the record of the write.
    pub claim: Claim<L>,
    ghost same: { ask.sync ≡ sync },
    ghost written: { claim.1 ≡ wrote ask.batch (answer_of result) ∷ [] },
    ghost home: { ∥ IsHome ask.batch batch result ∥₁ },
}

impl<L: Opening> Part<L> {
    /// Whether its caller waits for a sync.
    pub fn waits(&self) -> bool
        ensures { result ≡ waits self.now.sync self.now.result }
    {
        self.sync && self.result.is_ok()
    }

    /// Returns the answer to a caller that doesn't wait for a sync.
    pub fn unsynced(self) -> Done<L>
        requires { waits self.sync self.result ≡ false }
        ensures { result.ask ≡ self.ask }
    {
        let Part {
            ask,
            batch,
            sync: _,
            result,
            claim,
        } = self;
        Done {
            ask,
            batch,
            result,
            receipt: Receipt::new(claim, None),
        }
    }

    /// Returns the answer to a caller that waited for this sync. If the sync failed, the answer is `Failed`.
    pub fn synced(self, history: &History<L>, sync: &mut Synced<L>) -> Done<L>
        requires waits { waits self.sync self.result ≡ true }
        requires later { self.claim.0 < sync.old.claim.0 }
        ensures ask { result.ask ≡ self.ask }
        ensures same { sync.new.claim ≡ sync.old.claim }
    {
        let Part {
            ask,
            batch,
            sync: _,
            result,
            claim,
        } = self;
        let synced = sync.claim.again(history);
        let result = after_sync(result, sync.failed);
        Done {
            ask,
            batch,
            result,
            receipt: Receipt::new(claim, Some(synced)),
        }
    }
}

/// Returns what a caller gets after a sync, whose write returned this: `Failed` if the sync failed.
fn after_sync(written: Result<usize>, failed: bool) -> Result<usize>
    ensures { result ≡ after_sync failed written }
{
    if failed { Err(Error::Failed) } else { written }
}
