//! Messages: what a user keeps in the log, as entries and as values of keys.
use raft_log_record_base::Result;
use std::alloc::{AllocError, Global};

/// A value that is kept as bytes.
///
/// Contracts see two functions: the bytes that a value is written as, and the value that bytes are read as, if any.
pub trait Message: Drop {
    ghost use Rattle.std.specs.Prelude.{◌≡◌, ◌++◌, ℕ, List, Option, OnOk, OnErr};
    ghost use Rattle.raft_log_record_items.specs.Writing.{KeepsFront};
    ghost use Rattle.raft_log_record_items.specs.Message.{IsReadBack, Parses};

    /// The bytes that are written for a value.
    ghost spelling: { Self → List ℕ };

    /// The value of these bytes. A value may have other spellings than the one that is written.
    ghost reading: { List ℕ → Option Self };

    /// Appends the bytes of the message, which are read as the same message again. This is promised for this value
    /// only, so a type whose values have a range can satisfy it. If it fails, a part may follow the old bytes.
    fn write(&self, out: &mut Vec<u8>) -> Result<(), AllocError>
        ensures ok { OnOk result (out.new.items ≡ out.old.items ++ spelling self.now) }
        ensures err { OnErr result (KeepsFront out.old.items out.new.items) }
        ensures again { IsReadBack spelling reading self.now };

    /// The message of these bytes. Fails with `Message` if they are no message, or with `Memory`.
    fn parse(alloc: Global, bytes: &[u8]) -> Result<Self>
        ensures { Parses result (reading bytes.now) };
}

/// The type of a log's entries, and the index of each.
pub trait MessageExt {
    ghost use Rattle.std.specs.Prelude.{◌≡◌, ℕ};

    /// The type of an entry.
    type Entry: Message;

    /// The index of an entry, as contracts see it.
    ghost index: { Self.Entry → ℕ };

    /// The index of the entry.
    fn index(entry: &Self::Entry) -> u64
        ensures { result ≡ index entry.now };
}
