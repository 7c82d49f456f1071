//! A change that a batch makes.
ghost use Rattle.std.specs.Prelude.{◌≡◌, IfOk};

use raft_lists::{Bytes, Items};
use std::alloc::{AllocError, Global};

/// A batch: its changes, in order.
pub type Batch = Items<Change>;

/// A change of one group.
#[derive(Debug, Drop)]
pub struct Change {
    /// The group.
    pub group: u64,
    /// What changes.
    pub kind: ChangeKind,
}

/// What changes in a group.
#[derive(Debug, Drop)]
pub enum ChangeKind {
    /// Entries are added, which replace all from the first index on.
    Entries {
        /// The index of the first one.
        first: u64,
        /// The bytes of each.
        entries: Items<Bytes>,
    },
    /// All entries and keys are deleted.
    Clean,
    /// All entries below an index are deleted.
    Compact {
        /// The index.
        index: u64,
    },
    /// A key gets a value.
    Put {
        /// The key.
        key: Bytes,
        /// The value.
        value: Bytes,
    },
    /// A key is deleted.
    Delete {
        /// The key.
        key: Bytes,
    },
}

impl Change {
    /// Copies the change. Fails only for lack of memory.
    pub fn copied(&self, alloc: Global) -> Result<Change, AllocError>
        ensures { IfOk result (λ copy. copy ≡ self.now) }
    {
        Ok(Change {
            group: self.group,
            kind: self.kind.copied(alloc)?,
        })
    }
}

impl ChangeKind {
    /// Copies what changes. Fails only for lack of memory.
    fn copied(&self, alloc: Global) -> Result<ChangeKind, AllocError>
        ensures { IfOk result (λ copy. copy ≡ self.now) }
    {
        match self {
            ChangeKind::Entries { first, entries } => Ok(ChangeKind::Entries {
                first: *first,
                entries: copied_entries(alloc, entries.as_slice())?,
            }),
            ChangeKind::Clean => Ok(ChangeKind::Clean),
            ChangeKind::Compact { index } => Ok(ChangeKind::Compact { index: *index }),
            ChangeKind::Put { key, value } => Ok(ChangeKind::Put {
                key: Bytes::from_slice(alloc, key.as_slice())?,
                value: Bytes::from_slice(alloc, value.as_slice())?,
            }),
            ChangeKind::Delete { key } => Ok(ChangeKind::Delete {
                key: Bytes::from_slice(alloc, key.as_slice())?,
            }),
        }
    }
}

/// Copies entries. Fails only for lack of memory.
fn copied_entries(alloc: Global, entries: &[Bytes]) -> Result<Items<Bytes>, AllocError>
    ensures { IfOk result (λ copy. copy ≡ entries.now) }
{
    let mut copy = Items::new(alloc);
    for entry in entries {
        copy.push(Bytes::from_slice(alloc, entry.as_slice())?)?;
    }
    Ok(copy)
}

/// Copies a batch. Fails only for lack of memory.
pub fn copied_batch(alloc: Global, changes: &[Change]) -> Result<Batch, AllocError>
    ensures { IfOk result (λ copy. copy ≡ changes.now) }
{
    let mut copy = Items::new(alloc);
    for change in changes {
        copy.push(change.copied(alloc)?)?;
    }
    Ok(copy)
}

/// Copies batches. Fails only for lack of memory.
pub fn copied_batches(alloc: Global, batches: &[Batch]) -> Result<Items<Batch>, AllocError>
    ensures { IfOk result (λ copy. copy ≡ batches.now) }
{
    let mut copy = Items::new(alloc);
    for batch in batches {
        copy.push(copied_batch(alloc, batch.as_slice())?)?;
    }
    Ok(copy)
}
