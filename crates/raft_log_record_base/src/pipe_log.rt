//! Queues, files and places in them, and the signature of a file's records.
ghost use Rattle.std.specs.Prelude.{◌≡◌, ◌≢◌, ◌↔◌, IsTrue, IfSome, IfNone};
ghost use Rattle.std.specs.Ordering.{as_partial_cmp};
ghost use Rattle.std.proofs.Common.{rules};
ghost use Rattle.std.specs.Cmp.{partial_order_from_own_ties};
ghost use Rattle.std.specs.Cmp.Rules.{comparing};

use std::cmp::Ordering;
use std::fmt;

/// One of the two queues of segment files.
#[derive(Clone, Copy, Debug, PartialEq, Eq, Hash)]
pub enum LogQueue {
    /// The queue that users write to.
    Append = 0,
    /// The queue that a purge writes to.
    Rewrite = 1,
}

/// The number of a segment file in its queue.
pub type FileSeq = u64;

/// A segment file: its queue and its number there.
///
/// Files are ordered by number within a queue, and each file of the append queue is above each of the
/// rewrite queue.
#[derive(Clone, Copy, Debug, PartialEq, Eq, Hash)]
pub struct FileId {
    /// The queue that the file is in.
    pub queue: LogQueue,
    /// The file's number in its queue.
    pub seq: FileSeq,
}

impl FileId {
    /// The file with this number in this queue.
    pub fn new(queue: LogQueue, seq: FileSeq) -> Self
        ensures queue { result.queue ≡ queue }
        ensures seq { result.seq ≡ seq }
    {
        FileId { queue, seq }
    }
}

impl Ord for FileId {
    ghost use Rattle.raft_log_record_base.specs.Files.{file_cmp};

    ghost cmp = { file_cmp };

    ghost total = { Prim.search (comparing, rules) };

    ghost matches_partial_cmp = { Prim.search (comparing, rules) };

    ghost matches_eq = { Prim.search (comparing, rules) };

    fn cmp(&self, other: &FileId) -> Ordering {
        (other.queue as u8)
            .cmp(&(self.queue as u8))
            .then(self.seq.cmp(&other.seq))
    }
}

impl PartialOrd for FileId {
    ghost use Rattle.raft_log_record_base.specs.Files.{file_cmp};

    ghost partial_cmp = { as_partial_cmp file_cmp };

    ghost laws = { partial_order_from_own_ties
        (Prim.search (comparing, rules)) (Prim.search (comparing, rules)) };

    fn partial_cmp(&self, other: &FileId) -> Option<Ordering> {
        Some(self.cmp(other))
    }
}

/// A place in a segment file.
#[derive(Clone, Copy, Debug, PartialEq, Eq)]
pub struct FileBlockHandle {
    /// The file.
    pub id: FileId,
    /// The offset of the first byte from the file's start.
    pub offset: u64,
    /// The number of bytes.
    pub len: usize,
}

/// The version of a segment file's format.
#[derive(Clone, Copy, Debug, PartialEq, Eq)]
pub enum Version {
    /// Records are not signed.
    V1 = 1,
    /// Each record is signed with its file's number.
    V2 = 2,
}

impl Version {
    ghost use Rattle.std.specs.Prelude.{◌≡◌, ◌≢◌, ◌↔◌, IsTrue, IfSome, IfNone};
    ghost use Rattle.raft_log_record_base.specs.Files.{version_number};
    ghost use Rattle.raft_log_record_base.specs.declared.pipe_log.Version.TheVariants.{V2};

    /// The version with this number, if there is one.
    pub fn from_u64(number: u64) -> Option<Version>
        ensures known { IfSome result (λ v. number ≡ version_number v) }
        ensures unknown { IfNone result ((v : Version) → number ≢ version_number v) }
    {
        match number {
            1 => Some(Version::V1),
            2 => Some(Version::V2),
            _ => None,
        }
    }

    /// The number of the version in a file's header.
    pub fn to_u64(self) -> u64
        ensures { result ≡ version_number self }
    {
        match self {
            Version::V1 => 1,
            Version::V2 => 2,
        }
    }

    /// Whether the records of a file are signed with the file's number.
    pub fn has_log_signing(&self) -> bool
        ensures { IsTrue result ↔ (self.now ≡ V2) }
    {
        match self {
            Version::V1 => false,
            Version::V2 => true,
        }
    }
}

impl Default for Version {
    ghost use Rattle.std.specs.Prelude.{◌≡◌};
    ghost use Rattle.raft_log_record_base.specs.declared.pipe_log.Version.TheVariants.{V1};

    ghost is_default = { λ v. v ≡ V1 };

    fn default() -> Version {
        Version::V1
    }
}

impl fmt::Display for Version {
    ghost use Rattle.raft_log_record_base.specs.Files.{version_number};
    ghost use Rattle.std.specs.Fmt.{decimal};
    ghost use Rattle.std.specs.Prelude.{Some};

    ghost output = { λ v. Some (decimal (version_number v)) };

    fn fmt<W: fmt::Write>(&self, f: &mut fmt::Formatter<W>) -> fmt::Result {
        let number = self.to_u64();
        write!(f, "{number}")
    }
}

/// What a record depends on of its segment file: which file it is, and its format's version.
#[derive(Clone, Copy, Debug, PartialEq, Eq)]
pub struct LogFileContext {
    /// The file.
    pub id: FileId,
    /// The version of its format.
    pub version: Version,
}

impl LogFileContext {
    ghost use Rattle.std.specs.Prelude.{◌≡◌};
    ghost use Rattle.raft_log_record_base.specs.Files.{signature_of};

    /// The context of this file, whose format has this version.
    pub fn new(id: FileId, version: Version) -> Self
        ensures id { result.id ≡ id }
        ensures version { result.version ≡ version }
    {
        LogFileContext { id, version }
    }

    /// The value with which the checksum of each record of the file is combined: the low 32 bits of the file's number,
    /// or `None` if the format has no signatures.
    pub fn get_signature(&self) -> Option<u32>
        ensures { result ≡ signature_of self.now }
    {
        if self.version.has_log_signing() {
            Some((self.id.seq & 0xffff_ffff) as u32)
        } else {
            None
        }
    }
}
