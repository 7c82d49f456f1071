//! A caller of `raft_log_file_format`: reads a log file's name and first bytes.
ghost use Rattle.std.specs.Prelude.{◌≡◌, ℕ, List, Ok, IfOk, IfSome};
ghost use Rattle.raft_log_file_format.specs.Header.{header_at};
ghost use Rattle.raft_log_file_format.specs.Name.{IsNamed, suffix_of};

use raft_log_file_format::{FileNameExt, LogFileFormat};
use raft_log_record_base::{FileId, Result};
use std::alloc::Global;

/// The file with this name, and the format in the first bytes; none if the name isn't a log file's.
pub fn identify(alloc: Global, name: &str, bytes: &[u8]) -> Result<Option<(FileId, LogFileFormat)>>
    ensures name { IfOk result (λ found. IfSome found (λ f. IsNamed (suffix_of f.0.queue) name.now f.0.seq)) }
    ensures header { IfOk result (λ found. IfSome found (λ f.
        (rest : List ℕ) × (header_at bytes.now ≡ Ok (f.1, rest)))) }
{
    let Some(id) = FileId::parse_file_name(name) else {
        return Ok(None);
    };
    let mut source = bytes;
    let format = LogFileFormat::decode(alloc, &mut source)?;
    Ok(Some((id, format)))
}
