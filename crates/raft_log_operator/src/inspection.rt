//! Inspects a log for faults.
ghost use Rattle.std.specs.Prelude.{◌≡◌, ◌↔◌, IsTrue, IfOk, map};
ghost use Rattle.std.specs.String.{string_bytes};
ghost use Rattle.raft_log_operator.specs.Sound.{InspectsLog, InspectsOne, directories_in};

use crate::fault::CommandFault;
use crate::text::{DamageLine, GapLine};
use raft_log_command_line::Place;
use raft_log_engine::{FileSystem, LogQueue};
use raft_log_fs::Receipt;
use raft_log_inspection::{QueueInspection, inspect_queue};
use raft_log_offline::laws::findings_are_first_holes;
use raft_log_offline::{ConsistencyChecker, Finding};
use std::alloc::{AllocError, Global};
use std::io;
use std::io::Write;

/// The faults of a queue of a log.
#[derive(Drop)]
pub(crate) struct QueueFaults {
    /// The queue.
    pub(crate) queue: LogQueue,
    /// The faults of its files.
    pub(crate) files: QueueInspection,
    /// Its groups with holes, by group, each with the last entry before its first hole.
    pub(crate) holes: Vec<Finding>,
}

impl QueueFaults {
    ghost use Rattle.raft_log_inspection.specs.Intact.{IsClean};

    /// Whether the files have no fault.
    pub(crate) fn has_clean_files(&self) -> bool
        ensures { IsTrue result ↔ IsClean self.now.files }
    {
        self.files.gaps.is_empty() && self.files.damages.is_empty()
    }
}

/// The faults of a log.
#[derive(Drop)]
pub(crate) struct LogFaults {
    /// The faults of Append.
    pub(crate) append: QueueFaults,
    /// The faults of Rewrite.
    pub(crate) rewrite: QueueFaults,
}

impl LogFaults {
    ghost use Rattle.raft_log_operator.specs.Sound.{AreNone, HasCleanFiles};

    /// Whether the files have no fault.
    pub(crate) fn has_clean_files(&self) -> bool
        ensures { IsTrue result ↔ HasCleanFiles self.now }
    {
        self.append.has_clean_files() && self.rewrite.has_clean_files()
    }

    /// Whether there is no fault.
    pub(crate) fn are_none(&self) -> bool
        ensures { IsTrue result ↔ AreNone self.now }
    {
        self.has_clean_files() && self.append.holes.is_empty() && self.rewrite.holes.is_empty()
    }
}

/// Reads all files of a log, and returns its faults: gaps in their numbers, damaged files, and groups with holes in a
/// queue. A file is damaged if an open would truncate or reject it, or if it has a broken entry block. An open may not
/// see the latter. Indexes missing between Rewrite and Append are no hole. Changes nothing.
///
/// Fails with `File` if a directory isn't listed, a file isn't opened or read, or a foreign record follows a file's
/// last good one.
///
/// Fails with `Log` if a file's name begins with a number and isn't that number's, or if memory runs out.
pub(crate) fn inspect<F: FileSystem>(
    alloc: Global,
    files: &F,
    place: &Place,
) -> Result<LogFaults, CommandFault>
    ensures { IfOk result (InspectsLog place.now (F.disk files.now)) }
{
    let paths = paths_of(alloc, place)?;
    let append = inspect_one(alloc, files, LogQueue::Append, paths.as_slice())?;
    let rewrite = inspect_one(alloc, files, LogQueue::Rewrite, paths.as_slice())?;
    Ok(LogFaults { append, rewrite })
}

/// The log's directories, the main one first.
fn paths_of(alloc: Global, place: &Place) -> Result<Vec<String>, AllocError>
    ensures { IfOk result (λ paths. map string_bytes paths.items ≡ directories_in place.now) }
{
    let mut paths = Vec::new(alloc);
    paths.push(String::from_str(alloc, place.directory.as_str())?)?;
    if let Some(spill) = &place.spill_directory {
        paths.push(String::from_str(alloc, spill.as_str())?)?;
    }
    Ok(paths)
}

/// The faults of a queue of the log in these directories.
fn inspect_one<F: FileSystem>(
    alloc: Global,
    files: &F,
    queue: LogQueue,
    paths: &[String],
) -> Result<QueueFaults, CommandFault>
    ensures { IfOk result (InspectsOne queue (map string_bytes paths.now) (F.disk files.now)) }
{
    let mut checker = ConsistencyChecker::new(alloc);
    let mut receipts = Receipt::none();
    let files = inspect_queue(alloc, files, queue, paths, &mut checker, &mut receipts)?;
    findings_are_first_holes();
    let holes = checker.finish()?;
    Ok(QueueFaults {
        queue,
        files,
        holes,
    })
}

/// Writes a line for each gap between a queue's files, and for each damaged one.
pub(crate) fn write_files<W: Write>(faults: &QueueFaults, out: &mut W) -> io::Result<()> {
    for gap in &faults.files.gaps {
        let line = GapLine {
            queue: faults.queue,
            gap: *gap,
        };
        writeln!(out, "{line}")?;
    }
    for damage in &faults.files.damages {
        let line = DamageLine(damage);
        writeln!(out, "{line}")?;
    }
    Ok(())
}
