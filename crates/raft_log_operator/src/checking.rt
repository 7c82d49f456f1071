//! Checks a log for damage, gaps and holes.
ghost use Rattle.std.specs.Prelude.{◌≡◌, IfOk};
ghost use Rattle.raft_log_operator.specs.Sound.{IsIntactLog};

use crate::fault::{CommandFault, Outcome};
use crate::inspection::{QueueFaults, inspect, write_files};
use raft_log_command_line::Place;
use raft_log_engine::FileSystem;
use std::alloc::Global;
use std::io;
use std::io::Write;

/// Writes a line for each of these, or that there is none:
/// - a gap in a queue's file numbers, or a number that two of its files have;
/// - a damaged file, as `inspect` says;
/// - in each queue, the first hole of each group in its entries.
///
/// `Sound` means that the log is intact. Changes nothing. Fails as `inspect` does, or with `Output` if a write fails.
pub fn check<F: FileSystem, W: Write>(
    alloc: Global,
    files: &F,
    place: &Place,
    out: &mut W,
) -> Result<Outcome, CommandFault>
    ensures { IfOk result (λ outcome. outcome ≡ Outcome.Sound → IsIntactLog place.now (F.disk files.now)) }
{
    let faults = inspect(alloc, files, place)?;
    if faults.are_none() {
        writeln!(out, "no holes, no damage, no gaps")?;
        return Ok(Outcome::Sound);
    }
    write_files(&faults.append, out)?;
    write_files(&faults.rewrite, out)?;
    write_holes(&faults.append, out)?;
    write_holes(&faults.rewrite, out)?;
    Ok(Outcome::Faulty)
}

fn write_holes<W: Write>(faults: &QueueFaults, out: &mut W) -> io::Result<()> {
    for (group, last) in &faults.holes {
        writeln!(out, "group {group}: a hole after entry {last}")?;
    }
    Ok(())
}
