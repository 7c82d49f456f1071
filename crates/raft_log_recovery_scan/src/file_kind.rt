//! The kinds of files of a log, by the ends of their names.

ghost use Rattle.std.specs.Prelude.{◌≡◌, ◌↔◌, ◌<◌, ◌^◌, ℕ, true, false, slice_index_or, Some, IsTrue, IfOk, IfErr, OnOk, MatchOption};
ghost use Rattle.std.specs.String.{string_bytes};
ghost use Rattle.raft_log_file_format.specs.Name.{IsNamed, IsNameRefusal, suffix_of};
ghost use Rattle.raft_log_recovery_scan.specs.Names.{TellsMisnamed};

use raft_log_file_format::{
    FileNameExt, build_reserved_file_name, build_signed_file_name, build_signed_reserved_file_name,
    parse_reserved_file_name,
};
use raft_log_record_base::{Error, FileId, FileSeq, LogQueue, Result};
use std::alloc::Global;

/// A kind of files of a log.
#[derive(Clone, Copy, Debug, PartialEq, Eq)]
pub enum FileKind {
    /// The files of Append.
    Append,
    /// The files of Rewrite.
    Rewrite,
    /// The reserved files, kept for recycling.
    Reserved,
}

/// What a file's name contains.
#[derive(Clone, Copy, Debug, PartialEq, Eq)]
pub struct FileName {
    /// The file's number.
    pub seq: FileSeq,
    /// Whether a sign is before it.
    pub signed: bool,
}

impl FileKind {
    ghost use Rattle.raft_log_recovery_scan.specs.Names.{end_of, name_of, IsNameOf, IsOther, FailsToName};

    /// Parses this name, if it is that of a file of this kind; `None` for other names. Fails with `Corruption` for a
    /// name that begins with a number and has more between it and the suffix. The log would look for this file under
    /// another name. Also fails with `Memory`.
    pub fn read_name(self, alloc: Global, name: &str) -> Result<Option<FileName>>
        ensures ok { IfOk result (λ found. MatchOption found
            (IsOther self name.now) (λ said. IsNameOf self said.signed said.seq name.now)) }
        ensures err { IfErr result (FailsToName self name.now) }
    {
        let Some(seq) = self.parse_name(name) else {
            return Ok(None);
        };
        let said = FileName {
            seq,
            signed: has_plus(name),
        };
        let text = self.name_with(alloc, said)?;
        if text.as_str() == name {
            return Ok(Some(said));
        }
        Err(misnamed(alloc, name))
    }

    /// The number with which a name begins, if it ends with this kind's suffix. There may be more between the two.
    pub fn parse_name(self, name: &str) -> Option<FileSeq>
        ensures { (n : ℕ) → (result ≡ Some n) ↔ IsNamed (end_of self) name.now n }
    {
        match self {
            FileKind::Append => parse_name_in(LogQueue::Append, name),
            FileKind::Rewrite => parse_name_in(LogQueue::Rewrite, name),
            FileKind::Reserved => parse_reserved_file_name(name),
        }
    }

    /// The name of the file with this number, without a sign. Fails with `NumberRange` for a number of more than
    /// sixteen digits, or with `Memory`.
    pub fn build_name(self, alloc: Global, seq: FileSeq) -> Result<String>
        ensures ok { IfOk result (λ name. IsNameOf self false seq (string_bytes name)) }
        ensures err { IfErr result (λ error. IsNameRefusal seq error) }
    {
        match self {
            FileKind::Append => FileId::new(LogQueue::Append, seq).build_file_name(alloc),
            FileKind::Rewrite => FileId::new(LogQueue::Rewrite, seq).build_file_name(alloc),
            FileKind::Reserved => build_reserved_file_name(alloc, seq),
        }
    }

    /// The name with this content. A number of sixteen digits leaves no room for a sign, and gets none. Fails with
    /// `NumberRange` for a number of more digits, or with `Memory`.
    pub fn name_with(self, alloc: Global, said: FileName) -> Result<String>
        ensures ok { IfOk result (λ name. string_bytes name ≡ name_of self said.signed said.seq) }
        ensures small { OnOk result (said.seq < 10 ^ 16) }
        ensures err { IfErr result (λ error. IsNameRefusal said.seq error) }
    {
        if !said.signed {
            return self.build_name(alloc, said.seq);
        }
        self.build_signed_name(alloc, said.seq)
    }

    /// The name with this number and a sign before it, if the number leaves room for one.
    fn build_signed_name(self, alloc: Global, seq: FileSeq) -> Result<String>
        ensures ok { IfOk result (λ name. string_bytes name ≡ name_of self true seq) }
        ensures small { OnOk result (seq < 10 ^ 16) }
        ensures err { IfErr result (λ error. IsNameRefusal seq error) }
    {
        match self {
            FileKind::Append => {
                build_signed_file_name(alloc, FileId::new(LogQueue::Append, seq))
            }
            FileKind::Rewrite => {
                build_signed_file_name(alloc, FileId::new(LogQueue::Rewrite, seq))
            }
            FileKind::Reserved => build_signed_reserved_file_name(alloc, seq),
        }
    }
}

/// Whether a name begins with a plus.
fn has_plus(name: &str) -> bool
    ensures { IsTrue result ↔ (slice_index_or name.now 0 0 ≡ 43) }
{
    name.as_bytes().first() == Some(&b'+')
}

/// The number in a name, if it is that of a queue's file.
fn parse_name_in(queue: LogQueue, name: &str) -> Option<FileSeq>
    ensures { (n : ℕ) → (result ≡ Some n) ↔ IsNamed (suffix_of queue) name.now n }
{
    let Some(id) = FileId::parse_file_name(name) else {
        return None;
    };
    if id.queue == queue {
        return Some(id.seq);
    }
    None
}

/// The error for a name that begins with a number and has more between it and the end.
fn misnamed(alloc: Global, name: &str) -> Error
    ensures { TellsMisnamed name.now result }
{
    match format!(in alloc; "misnamed log file: {name}") {
        Ok(text) => Error::Corruption(text),
        Err(_) => Error::Memory,
    }
}
