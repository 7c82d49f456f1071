//! A list of calls that only clauses read.
ghost use Rattle.std.specs.Prelude.{◌≡◌, List, [], ◌∷◌};
ghost use Rattle.std.specs.Borrow.{ftrue};
ghost use Rattle.raft_log_fs_traced.specs.Device.{DeviceCall, Renamed};
ghost use Rattle.raft_log_fs_os.specs.Noting.{call_of};

use std::marker::{Model, PhantomData};

/// The calls that were made, the last one first. The type has no bytes and costs nothing.
#[derive(Drop)]
pub struct Record {
    marker: PhantomData<u8>,
    pub ghost calls: { List DeviceCall },
}

impl Model for Record {
    ghost also_owns = { λ _. ftrue };
}

// A record has no bytes, so a type that has one may be sent to another thread.
unsafe impl Send for Record {}

unsafe impl Sync for Record {}

impl Record {
    /// No calls.
    pub(crate) fn new() -> Record
        ensures { result.calls ≡ [] }
    {
        Record {
            marker: PhantomData,
        }
    }

    /// Notes a call: its kind, its file, its offset or size, and its path or bytes.
    pub(crate) fn note(&mut self, _numbers: &[u64], _text: &[u8])
        ensures { self.new.calls ≡ call_of _numbers.now _text.now ∷ self.old.calls }
    {}

    /// Notes a rename.
    pub(crate) fn note_rename(&mut self, _from: &[u8], _to: &[u8])
        ensures { self.new.calls ≡ Renamed _from.now _to.now ∷ self.old.calls }
    {}
}
