//! The error kinds of failures, which only clauses read, and the kind that a call returns at a stop.
ghost use Rattle.std.specs.Prelude.{◌≡◌, List, [], ◌∷◌};
ghost use Rattle.std.specs.Borrow.{ftrue};
ghost use Rattle.std.specs.declared.io.ErrorKind.{ErrorKind};
ghost use Rattle.raft_log_fs.specs.Calls.{IsToldAtStop};

use std::io::ErrorKind;
use std::marker::{Model, PhantomData};

/// The kinds that a file system returned for its counted failures, the last one first. It has no bytes, and costs
/// nothing.
#[derive(Drop)]
pub struct Kinds {
    marker: PhantomData<u8>,
    pub ghost told: { List ErrorKind },
}

impl Model for Kinds {
    ghost also_owns = { λ _. ftrue };
}

// It has no bytes, so a value that holds one may be sent to another thread.
unsafe impl Send for Kinds {}

unsafe impl Sync for Kinds {}

impl Kinds {
    /// No failures.
    pub fn new() -> Kinds
        ensures { result.told ≡ [] }
    {
        Kinds {
            marker: PhantomData,
        }
    }

    /// Notes the kind of a failure's error.
    pub fn note(&mut self, _kind: &ErrorKind)
        ensures { self.new.told ≡ _kind.now ∷ self.old.told }
    {}
}

/// The kind that a call returns if the file system stops at it: this kind, or `ResourceBusy` instead of `OutOfMemory`.
pub fn told_at_stop(kind: ErrorKind) -> ErrorKind
    ensures { IsToldAtStop kind result }
{
    match kind {
        ErrorKind::OutOfMemory => ErrorKind::ResourceBusy,
        kind => kind,
    }
}
