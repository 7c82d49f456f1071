//! Receipts of writes.
ghost use Rattle.std.specs.Prelude.{◌≡◌};
ghost use Rattle.std.specs.List.{All};
ghost use Rattle.raft_log_shared.specs.Receipts.{IsIn};

use crate::claim::Claim;
use crate::history::History;
use crate::keeper::Keeper;
use crate::opening::Opening;
use std::marker::Model;
use std::sync::Wait;

/// The receipt of a write. It proves that the history of the engine has the write's record, and that of its sync, if
/// there was one. Contracts see it as what it states.
#[derive(Drop)]
pub struct Receipt<L: Opening> {
    written: Claim<L>,
    synced: Option<Claim<L>>,
}

impl<L: Opening> Model for Receipt<L> {
    ghost use Rattle.raft_log_shared.specs.Receipts.{Stamp};

    ghost Value = { Stamp };

    ghost view = { λ r. record { written = r.written; synced = r.synced } };
}

impl<L: Opening> Receipt<L> {
    ghost use Rattle.std.specs.Prelude.{is_some};

    /// Returns the receipt of a write, given the claims for its record and for that of its sync.
    pub(crate) fn new(written: Claim<L>, synced: Option<Claim<L>>) -> Receipt<L>
        ensures { result ≡ record { written = written; synced = synced } }
    {
        Receipt { written, synced }
    }

    /// Whether the caller waited for a sync.
    pub fn has_sync(&self) -> bool
        ensures { result ≡ is_some self.now.synced }
    {
        self.synced.is_some()
    }

    /// Compares the receipt with the history, which has its records.
    pub(crate) fn find<R: Wait>(&mut self, rt: &R, history: &History<L>, keeper: &mut Keeper<L>)
        ensures same { (self.new ≡ self.old) × (keeper.new ≡ keeper.old) }
        ensures found { IsIn keeper.old self.old }
    {
        let Receipt { written, synced } = self;
        let again = written.again(history);
        keeper.find(rt, history, again);
        if let Some(synced) = synced {
            let again = synced.again(history);
            keeper.find(rt, history, again);
        }
    }
}

/// Compares receipts with the history, which has the records of each.
pub(crate) fn find_all<L: Opening, R: Wait>(
    rt: &R,
    history: &History<L>,
    keeper: &mut Keeper<L>,
    receipts: &mut [Receipt<L>],
)
    ensures same { (receipts.new ≡ receipts.old) × (keeper.new ≡ keeper.old) }
    ensures found { All (λ stamp. IsIn keeper.old stamp) receipts.old }
{
    for receipt in receipts.iter_mut() {
        receipt.find(rt, history, keeper);
    }
}
