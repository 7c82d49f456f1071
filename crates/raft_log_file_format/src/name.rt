//! Names of log files: the number in sixteen digits, and a suffix for the queue.
ghost use Rattle.std.specs.Prelude.{◌≡◌, ◌↔◌, ◌≤◌, ◌<◌, ◌^◌, ◌∷◌, ◌++◌, ℕ, true, length, IsTrue, IfOk, IfErr, Some, Err};
ghost use Rattle.std.specs.String.{string_bytes};
ghost use Rattle.raft_log_record_base.specs.declared.errors.Error.TheVariants.{NumberRange, Memory};
ghost use Rattle.raft_log_file_format.specs.Name.{EndsWith, IsNumberText, IsNamed, IsNameRefusal, number_text, suffix_of, reserved_suffix, sixteen_digits};

use raft_log_record_base::{Error, FileId, FileSeq, LogQueue, Result};
use std::alloc::Global;

/// How many bytes of a name are its number.
const LOG_SEQ_WIDTH: usize = 16;
/// The least number that has no name.
const LOG_SEQ_LIMIT: FileSeq = 10_000_000_000_000_000;
/// The least number that leaves no room for a sign in a name.
const LOG_SIGNED_SEQ_LIMIT: FileSeq = 1_000_000_000_000_000;
/// The suffix of an Append file's name.
const LOG_APPEND_SUFFIX: &str = ".raftlog";
/// The suffix of a Rewrite file's name.
const LOG_REWRITE_SUFFIX: &str = ".rewrite";
/// The suffix of the name of a file that is kept for recycling.
const LOG_APPEND_RESERVED_SUFFIX: &str = ".raftlog.reserved";

/// Names of log files.
pub trait FileNameExt: Sized {
    ghost use Rattle.std.specs.Prelude.{ℕ, List, ◌≡◌, ◌↔◌, IfOk, IfErr, Some};
    ghost use Rattle.std.specs.String.{string_bytes};
    ghost use Rattle.raft_log_file_format.specs.Name.{IsNameRefusal, IsPathTo};

    /// Which names are a file's.
    ghost named: { List ℕ → Self → Type 0 };
    /// The file's number.
    ghost number: { Self → ℕ };

    /// The file with this name, or `None` if it isn't a log file's. The name must be longer than sixteen bytes. The
    /// first sixteen are a number (a leading `+` is allowed), and the suffix is that of one of the two queues. More
    /// bytes may be between the two.
    fn parse_file_name(file_name: &str) -> Option<Self>
        ensures { (id : Self) → (result ≡ Some id) ↔ named file_name.now id };

    /// The file's name. Fails with `NumberRange` if the number has more than sixteen digits, or with `Memory`.
    fn build_file_name(&self, alloc: Global) -> Result<String>
        ensures ok { IfOk result (λ name. named (string_bytes name) self.now) }
        ensures err { IfErr result (λ error. IsNameRefusal (number self.now) error) };

    /// The path of the file in a directory: the directory, a slash and the name. Fails as `build_file_name` does.
    fn build_file_path(&self, alloc: Global, dir: &str) -> Result<String>
        ensures ok { IfOk result (λ path.
            IsPathTo (λ name. named name self.now) dir.now (string_bytes path)) }
        ensures err { IfErr result (λ error. IsNameRefusal (number self.now) error) };
}

/// Whether a name has this suffix.
fn has_suffix(name: &str, suffix: &str) -> bool
    ensures { IsTrue result ↔ EndsWith suffix.now name.now }
{
    name.ends_with(suffix)
}

/// The number at the front of a name.
fn parse_seq(name: &str) -> Option<FileSeq>
    ensures { (n : ℕ) → (result ≡ Some n) ↔ IsNumberText name.now n }
{
    let Some((front, back)) = name.split_at_checked(LOG_SEQ_WIDTH) else {
        return None;
    };
    if back.is_empty() {
        return None;
    }
    front.parse::<u64>().ok()
}

/// The number of a name with this suffix.
fn parse_seq_before(name: &str, suffix: &str) -> Option<FileSeq>
    ensures { (n : ℕ) → (result ≡ Some n) ↔ IsNamed suffix.now name.now n }
{
    if has_suffix(name, suffix) {
        return parse_seq(name);
    }
    None
}

/// The name with this number and this suffix.
fn name_with(alloc: Global, seq: FileSeq, suffix: &str) -> Result<String>
    ensures ok { IfOk result (λ name. string_bytes name ≡ sixteen_digits seq ++ suffix.now) }
    ensures parsed { 0 < length suffix.now
        → IfOk result (λ name. IsNamed suffix.now (string_bytes name) seq) }
    ensures err { IfErr result (λ error. IsNameRefusal seq error) }
    ensures range { (result ≡ Err NumberRange) ↔ (10 ^ 16 ≤ seq) }
{
    if seq >= LOG_SEQ_LIMIT {
        return Err(Error::NumberRange);
    }
    Ok(format!(in alloc; "{seq:016}{suffix}")?)
}

/// The name with this number and this suffix, and a plus sign in front if the number leaves room for one.
fn signed_name_with(alloc: Global, seq: FileSeq, suffix: &str) -> Result<String>
    ensures ok { IfOk result (λ name. string_bytes name ≡ number_text true seq ++ suffix.now) }
    ensures err { IfErr result (λ error. IsNameRefusal seq error) }
    ensures range { (result ≡ Err NumberRange) ↔ (10 ^ 16 ≤ seq) }
{
    if seq < LOG_SIGNED_SEQ_LIMIT {
        return Ok(format!(in alloc; "{seq:+016}{suffix}")?);
    }
    name_with(alloc, seq, suffix)
}

/// The suffix of the names of a queue's files.
fn suffix(queue: LogQueue) -> &'static str
    ensures value { result.now ≡ suffix_of queue }
    ensures some { 0 < length result.now }
{
    match queue {
        LogQueue::Append => LOG_APPEND_SUFFIX,
        LogQueue::Rewrite => LOG_REWRITE_SUFFIX,
    }
}

impl FileNameExt for FileId {
    ghost use Rattle.raft_log_file_format.specs.Name.{IsNamed, IsFilePath, suffix_of, file_name};

    ghost named = { λ name id. IsNamed (suffix_of id.queue) name id.seq };

    ghost number = { λ id. id.seq };

    fn parse_file_name(file_name: &str) -> Option<FileId> {
        if let Some(seq) = parse_seq_before(file_name, LOG_APPEND_SUFFIX) {
            return Some(FileId::new(LogQueue::Append, seq));
        }
        if let Some(seq) = parse_seq_before(file_name, LOG_REWRITE_SUFFIX) {
            return Some(FileId::new(LogQueue::Rewrite, seq));
        }
        None
    }

    fn build_file_name(&self, alloc: Global) -> Result<String>
        ensures ok { IfOk result (λ name.
            IsNamed (suffix_of self.now.queue) (string_bytes name) self.now.seq) }
        ensures exact { IfOk result (λ name. string_bytes name ≡ file_name self.now) }
        ensures err { IfErr result (λ error. IsNameRefusal self.now.seq error) }
        ensures range { (result ≡ Err NumberRange) ↔ (10 ^ 16 ≤ self.now.seq) }
    {
        name_with(alloc, self.seq, suffix(self.queue))
    }

    fn build_file_path(&self, alloc: Global, dir: &str) -> Result<String>
        ensures ok { IfOk result (λ path. IsFilePath self.now dir.now (string_bytes path)) }
        ensures exact { IfOk result (λ path. string_bytes path ≡ dir.now ++ 47 ∷ file_name self.now) }
        ensures err { IfErr result (λ error. IsNameRefusal self.now.seq error) }
        ensures range { (result ≡ Err NumberRange) ↔ (10 ^ 16 ≤ self.now.seq) }
    {
        match self.build_file_name(alloc) {
            Ok(name) => path_to(alloc, dir, name.as_str()),
            Err(error) => Err(error),
        }
    }
}

/// The name of a file with a plus sign in front of the number, which is parsed as without the sign. A number of sixteen
/// digits leaves no room for the sign and has the name without one. Fails with `NumberRange` if the number is longer,
/// or with `Memory`.
pub fn build_signed_file_name(alloc: Global, id: FileId) -> Result<String>
    ensures ok { IfOk result (λ name.
        string_bytes name ≡ number_text true id.seq ++ suffix_of id.queue) }
    ensures err { IfErr result (λ error. IsNameRefusal id.seq error) }
    ensures range { (result ≡ Err NumberRange) ↔ (10 ^ 16 ≤ id.seq) }
{
    signed_name_with(alloc, id.seq, suffix(id.queue))
}

/// The path in a directory of the file whose name has a plus sign. Fails as `build_signed_file_name` does.
pub fn build_signed_file_path(alloc: Global, id: FileId, dir: &str) -> Result<String>
    ensures ok { IfOk result (λ path.
        string_bytes path ≡ dir.now ++ 47 ∷ (number_text true id.seq ++ suffix_of id.queue)) }
    ensures err { IfErr result (λ error. IsNameRefusal id.seq error) }
    ensures range { (result ≡ Err NumberRange) ↔ (10 ^ 16 ≤ id.seq) }
{
    match build_signed_file_name(alloc, id) {
        Ok(name) => path_to(alloc, dir, name.as_str()),
        Err(error) => Err(error),
    }
}

/// The path of a name in a directory.
fn path_to(alloc: Global, dir: &str, name: &str) -> Result<String>
    ensures ok { IfOk result (λ path. string_bytes path ≡ dir.now ++ 47 ∷ name.now) }
    ensures err { IfErr result (λ error. error ≡ Memory) }
{
    match format!(in alloc; "{dir}/{name}") {
        Ok(path) => Ok(path),
        Err(_) => Err(Error::Memory),
    }
}

/// The number of the file with this name, or `None` unless the name is that of a file that is kept for recycling.
pub fn parse_reserved_file_name(file_name: &str) -> Option<FileSeq>
    ensures { (n : ℕ) → (result ≡ Some n) ↔ IsNamed reserved_suffix file_name.now n }
{
    parse_seq_before(file_name, LOG_APPEND_RESERVED_SUFFIX)
}

/// The name of a file that is kept for recycling. Fails with `NumberRange` if the number has more than sixteen digits,
/// or with `Memory`.
pub fn build_reserved_file_name(alloc: Global, seq: FileSeq) -> Result<String>
    ensures ok { IfOk result (λ name. IsNamed reserved_suffix (string_bytes name) seq) }
    ensures exact { IfOk result (λ name. string_bytes name ≡ sixteen_digits seq ++ reserved_suffix) }
    ensures err { IfErr result (λ error. IsNameRefusal seq error) }
    ensures range { (result ≡ Err NumberRange) ↔ (10 ^ 16 ≤ seq) }
{
    name_with(alloc, seq, LOG_APPEND_RESERVED_SUFFIX)
}

/// The name of a file that is kept for recycling, with a plus sign in front of the number if that leaves room for one.
/// Fails as `build_reserved_file_name` does.
pub fn build_signed_reserved_file_name(alloc: Global, seq: FileSeq) -> Result<String>
    ensures ok { IfOk result (λ name. string_bytes name ≡ number_text true seq ++ reserved_suffix) }
    ensures err { IfErr result (λ error. IsNameRefusal seq error) }
    ensures range { (result ≡ Err NumberRange) ↔ (10 ^ 16 ≤ seq) }
{
    signed_name_with(alloc, seq, LOG_APPEND_RESERVED_SUFFIX)
}
