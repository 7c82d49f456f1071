//! Which of the files that were found are copied: one a number.

ghost use Rattle.std.specs.Prelude.{◌≡◌, ◌↔◌, ◌<◌, IsTrue, IfOk, IfErr, length, drop};
ghost use Rattle.raft_log_record_base.specs.declared.errors.Error.TheVariants.{Memory};
ghost use Rattle.raft_log_offline.specs.Sources.{IsOneEach, IsNextAnother, lasts};

use raft_log_record_base::Result;
use raft_log_recovery_scan::scanning::found::FoundFile;
use std::alloc::Global;

/// Returns one of these files for each number, sorted by number. If several have one number, it is the one in the last
/// directory. If two are there, it is the one whose name has a plus sign. Fails only with `Memory`.
pub fn one_each(alloc: Global, mut found: Vec<FoundFile>) -> Result<Vec<FoundFile>>
    ensures ok { IfOk result (λ chosen. IsOneEach found.items chosen.items) }
    ensures err { IfErr result (λ error. error ≡ Memory) }
{
    found.sort_by_key(|file| (file.seq, file.path_id, file.signed))?;
    let chosen = last_of_each(alloc, found.as_slice())?;
    Ok(chosen)
}

/// Of files sorted by number, the last of each number. Fails only with `Memory`.
fn last_of_each(alloc: Global, found: &[FoundFile]) -> Result<Vec<FoundFile>>
    ensures ok { IfOk result (λ chosen. chosen.items ≡ lasts found.now) }
    ensures err { IfErr result (λ error. error ≡ Memory) }
{
    let mut chosen = Vec::new(alloc);
    for at in 0..found.len() {
        if is_next_another(found, at) {
            chosen.push(found[at])?;
        }
    }
    Ok(chosen)
}

/// Whether the file at this place is the last one, or the next one has another number.
fn is_next_another(found: &[FoundFile], at: usize) -> bool
    requires { at < length found.now }
    ensures { IsTrue result ↔ IsNextAnother found.now at }
{
    at + 1 == found.len() || found[at].seq != found[at + 1].seq
}
