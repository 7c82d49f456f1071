//! Whether what a read returned is what the disk holds, as a value that only clauses read.
ghost use Rattle.std.specs.Prelude.{◌≡◌, Bool, true, ◌&&◌};
ghost use Rattle.std.specs.Borrow.{ftrue};

use std::fmt;
use std::marker::{Model, PhantomData};
use std::snapshot::Snapshot;

/// What a read returns.
#[derive(Drop)]
pub struct Read {
    /// How many bytes were read.
    pub count: usize,
    /// Whether they are what the disk holds.
    pub receipt: Receipt,
}

/// What was asked, and what was returned. `is_true` says whether that agrees with the disk.
pub trait Judged {
    ghost is_true: { Self → Bool };
}

/// Whether the reads that it covers returned what the disk holds. It has no bytes, and costs nothing.
///
/// No code can find out whether a receipt is honest, so memory safety never depends on it.
#[derive(Drop)]
pub struct Receipt {
    marker: PhantomData<u8>,
    pub ghost honest: { Bool },
}

impl Model for Receipt {
    ghost also_owns = { λ _. ftrue };
}

// It has no bytes, so a value that holds one may be sent to another thread.
unsafe impl Send for Receipt {}

unsafe impl Sync for Receipt {}

impl fmt::Debug for Receipt {
    fn fmt<W: fmt::Write>(&self, f: &mut fmt::Formatter<W>) -> fmt::Result {
        f.write_str("Receipt")
    }
}

impl Receipt {
    /// The receipt of a read: honest if and only if `is_true` holds of what was asked and returned.
    pub fn judged<A: Judged>(_answer: &A) -> Receipt
        ensures { result.honest ≡ A.is_true _answer.now }
    {
        Receipt {
            marker: PhantomData,
        }
    }

    /// The receipt of no read, which is honest.
    pub fn none() -> Receipt
        ensures { result.honest ≡ true }
    {
        Receipt::judged(&NoRead)
    }

    /// The receipt of the reads of both: honest if and only if both are.
    pub fn and(&self, other: &Receipt) -> Receipt
        ensures { result.honest ≡ (self.now.honest && other.now.honest) }
    {
        Receipt::judged(&Both {
            one: Snapshot::of(self),
            other: Snapshot::of(other),
        })
    }

    /// Adds the reads of another receipt to this one.
    pub fn note(&mut self, other: &Receipt)
        ensures { self.new.honest ≡ (self.old.honest && other.now.honest) }
    {
        let both = self.and(other);
        *self = both;
    }
}

/// No read, so nothing that could be wrong.
#[derive(Drop)]
struct NoRead;

impl Judged for NoRead {
    ghost is_true = { λ _. true };
}

/// The reads of two receipts.
#[derive(Drop)]
struct Both {
    one: Snapshot<Receipt>,
    other: Snapshot<Receipt>,
}

impl Judged for Both {
    ghost is_true = { λ both. both.one.value.honest && both.other.value.honest };
}
