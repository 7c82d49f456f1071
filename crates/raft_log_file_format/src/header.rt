//! The header of a log file: the version of its format, and how its records are aligned.
ghost use Rattle.std.specs.Prelude.{◌≡◌, ◌++◌, ℕ, length, take, OnOk, OnErr, IfErr};
ghost use Rattle.raft_log_record_base.specs.Fault.{DecodesOrMemory, ReadsOrMemory, GivesOrMemory};
ghost use Rattle.raft_log_file_format.specs.Header.{magic, header_at, magic_at, version_at, version_of, payload_at, header_bytes, IsFileHeader, HasWrittenHeader, SaysNoAlignment};

use raft_log_record_base::codec::{self, BytesSlice};
use raft_log_record_base::{Error, Result, Version};
use std::alloc::{AllocError, Global};

/// The first bytes of every log file.
const LOG_FILE_MAGIC_HEADER: &[u8] = b"RAFT-LOG-FILE-HEADER-9986AB3E47F320B394C8E84916EB0ED5";

/// The format of a log file, as its header states it.
#[derive(Clone, Copy, Debug, PartialEq, Eq)]
pub struct LogFileFormat {
    pub version: Version,
    /// Offsets of records are multiples of this number of bytes; 0 if records follow one another without gaps.
    pub alignment: u64,
}

impl Default for LogFileFormat {
    ghost use Rattle.std.specs.Prelude.{◌≡◌};
    ghost use Rattle.raft_log_record_base.specs.declared.pipe_log.Version.TheVariants.{V1};

    ghost is_default = { λ f. f ≡ record { version = V1; alignment = 0 } };

    fn default() -> LogFileFormat {
        LogFileFormat::new(Version::V1, 0)
    }
}

impl LogFileFormat {
    ghost use Rattle.raft_log_file_format.specs.Header.{IsHeaderRefusal};

    pub fn new(version: Version, alignment: u64) -> Self
        ensures version { result.version ≡ version }
        ensures alignment { result.alignment ≡ alignment }
    {
        LogFileFormat { version, alignment }
    }

    /// The length of the longest header.
    pub const fn max_encoded_len() -> usize
        ensures { result ≡ 69 }
    {
        69
    }

    /// How many bytes the header of a file of this version has.
    pub fn encoded_len(version: Version) -> usize
        ensures { (a : ℕ) → length (header_bytes (record { version = version; alignment = a })) ≡ result }
    {
        match version {
            Version::V1 => 61,
            Version::V2 => 69,
        }
    }

    /// Reads a header from the front of a file's bytes, and consumes its bytes, or none if it fails.
    ///
    /// Fails on the first of these: other magic bytes, a truncated version number, an unknown version, a truncated
    /// alignment. The error is `Codec` for a truncated version number, otherwise `Corruption`. Only the text of an
    /// error allocates; without memory for it, the error is `Memory`.
    pub fn decode(alloc: Global, source: &mut BytesSlice<'_>) -> Result<LogFileFormat>
        ensures decodes { DecodesOrMemory IsFileHeader result source.old.now source.new.now }
        ensures exact { ReadsOrMemory result source.old.now source.new.now (header_at source.old.now) }
    {
        read_format(alloc, source)
    }

    /// Appends the header. Fails with `InvalidArgument` if a format of version 1 has an alignment, or with `Memory`. If
    /// it fails, the buffer is unchanged.
    pub fn encode(&self, alloc: Global, out: &mut Vec<u8>) -> Result<()>
        ensures ok { OnOk result (HasWrittenHeader self.now
            × (out.new.items ≡ out.old.items ++ header_bytes self.now)) }
        ensures spelled { OnOk result (IsFileHeader (header_bytes self.now) self.now) }
        ensures err { OnErr result (out.new.items ≡ out.old.items) }
        ensures errors { IfErr result (λ error. IsHeaderRefusal self.now error) }
    {
        if self.version == Version::V1 && self.alignment != 0 {
            return Err(no_alignment(alloc));
        }
        let len = out.len();
        match append_header(self, out) {
            Ok(()) => Ok(()),
            Err(_) => {
                out.truncate(len);
                Err(Error::Memory)
            }
        }
    }
}

/// Reads a header, step by step.
#[tactic(auto, unfolding(crate::specs::Header::header_at))]
fn read_format(alloc: Global, source: &mut BytesSlice<'_>) -> Result<LogFileFormat>
    ensures exact { ReadsOrMemory result source.old.now source.new.now (header_at source.old.now) }
{
    let mut rest: &[u8] = *source;
    read_magic(alloc, &mut rest)?;
    let version = read_version(alloc, &mut rest)?;
    let format = read_payload(alloc, version, &mut rest)?;
    *source = rest;
    Ok(format)
}

/// Reads the magic bytes.
#[tactic(auto, unfolding(crate::specs::Header::magic_at))]
fn read_magic(alloc: Global, source: &mut BytesSlice<'_>) -> Result<()>
    ensures exact { ReadsOrMemory result source.old.now source.new.now (magic_at source.old.now) }
{
    match source.strip_prefix(magic_bytes()) {
        Some(rest) => {
            *source = rest;
            Ok(())
        }
        None => Err(Error::Corruption(format!(in alloc; "log file magic header mismatch")?)),
    }
}

/// Reads a version.
#[tactic(auto, unfolding(crate::specs::Header::version_at))]
fn read_version(alloc: Global, source: &mut BytesSlice<'_>) -> Result<Version>
    ensures exact { ReadsOrMemory result source.old.now source.new.now (version_at source.old.now) }
{
    let mut rest: &[u8] = *source;
    let number = codec::decode_u64(&mut rest)?;
    let version = version_of(alloc, number)?;
    *source = rest;
    Ok(version)
}

/// The version that has this number.
fn version_of(alloc: Global, number: u64) -> Result<Version>
    ensures exact { GivesOrMemory result (version_of number) }
{
    match number {
        1 => Ok(Version::V1),
        2 => Ok(Version::V2),
        _ => Err(Error::Corruption(format!(in alloc; "unrecognized log file version: {number}")?)),
    }
}

/// Reads what follows the version, and returns the format of both.
#[tactic(auto, unfolding(crate::specs::Header::payload_at))]
fn read_payload(
    alloc: Global,
    version: Version,
    source: &mut BytesSlice<'_>,
) -> Result<LogFileFormat>
    ensures exact { ReadsOrMemory result source.old.now source.new.now (payload_at version source.old.now) }
{
    match version {
        Version::V1 => Ok(LogFileFormat::new(version, 0)),
        Version::V2 => match codec::decode_u64(source) {
            Ok(alignment) => Ok(LogFileFormat::new(version, alignment)),
            Err(_) => Err(Error::Corruption(format!(in alloc; "missing header payload")?)),
        },
    }
}

/// The magic bytes.
#[tactic(auto, unfolding(crate::specs::Header::magic))]
fn magic_bytes() -> &'static [u8]
    ensures bytes { result.now ≡ magic }
    ensures len { length result.now ≡ 53 }
{
    LOG_FILE_MAGIC_HEADER
}

/// The error of a header that can't be written.
fn no_alignment(alloc: Global) -> Error
    ensures { SaysNoAlignment result }
{
    match format!(in alloc; "a log file of the first version has no alignment") {
        Ok(text) => Error::InvalidArgument(text),
        Err(_) => Error::Memory,
    }
}

/// Appends the bytes of a header; if it fails, a part of them may be appended.
#[tactic(auto, unfolding(crate::specs::Header::header_bytes))]
fn append_header(format: &LogFileFormat, out: &mut Vec<u8>) -> std::result::Result<(), AllocError>
    ensures ok { OnOk result (out.new.items ≡ out.old.items ++ header_bytes format.now) }
    ensures spelled { OnOk result (HasWrittenHeader format.now → IsFileHeader (header_bytes format.now) format.now) }
    ensures err { OnErr result (take (length out.old.items) out.new.items ≡ out.old.items) }
{
    out.extend_from_slice(magic_bytes())?;
    codec::append_u64(out, format.version.to_u64())?;
    match format.version {
        Version::V1 => Ok(()),
        Version::V2 => codec::append_u64(out, format.alignment),
    }
}
