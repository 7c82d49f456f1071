//! The error for a damaged file names the file, and where it is damaged.

ghost use Rattle.std.specs.Prelude.{◌≡◌, IfOk};
ghost use Rattle.std.specs.String.{string_bytes};
ghost use Rattle.raft_log_recovery_read.specs.Naming.{NamesDamage, fault_text, told_damage};

use crate::foreign::queue_name;
use raft_log_record_base::{Error, FileId};
use std::alloc::{AllocError, Global};

/// Returns the error for a file that is damaged after its last good record, which ends at `end`: `Corruption`, with a
/// text that names the queue, the file's number and this offset, and says what is wrong. Returns `Memory` if there is
/// no memory for the text.
pub(crate) fn named_damage(alloc: Global, id: FileId, end: Option<usize>, fault: Error) -> Error
    ensures { NamesDamage id end fault result }
{
    match damage_text(alloc, id, end.unwrap_or(0), fault_text(&fault)) {
        Ok(text) => Error::Corruption(text),
        Err(_) => Error::Memory,
    }
}

/// Returns the text of the error for a file that is damaged in this way.
fn damage_text(alloc: Global, id: FileId, offset: usize, wrong: &str) -> Result<String, AllocError>
    ensures { IfOk result (λ text. string_bytes text ≡ told_damage id offset wrong.now) }
{
    let queue = queue_name(id.queue);
    let seq = id.seq;
    format!(in alloc; "{queue} file {seq}: damaged at offset {offset}: {wrong}")
}

/// Returns what an error says about damaged bytes.
fn fault_text(fault: &Error) -> &str
    ensures { result.now ≡ fault_text fault.now }
{
    match fault {
        Error::Corruption(text) => text.as_str(),
        _ => "a number is cut short or too large",
    }
}
