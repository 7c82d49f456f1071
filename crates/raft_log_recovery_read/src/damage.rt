//! Separates damage from errors that say nothing about the bytes: a failed read, or lack of memory.

ghost use Rattle.std.specs.Prelude.{◌≡◌, ◌↔◌, IsTrue, IfOk, IfErr};
ghost use Rattle.raft_log_recovery_read.specs.Faults.{IsDamage};

use raft_log_record_base::{Error, Result};

/// Whether an error is about the bytes that were read.
fn is_damage(error: &Error) -> bool
    ensures { IsTrue result ↔ IsDamage error.now }
{
    matches!(error, Error::Corruption(_) | Error::Codec(_))
}

/// Returns an error that is about the bytes that were read; fails with any other one.
pub(crate) fn damage(error: Error) -> Result<Error>
    ensures ok { IfOk result (λ same. (same ≡ error) × IsDamage error) }
    ensures err { IfErr result (λ e. (e ≡ error) × (IsDamage error → ⊥)) }
{
    if is_damage(&error) {
        return Ok(error);
    }
    Err(error)
}
