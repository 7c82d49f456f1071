//! Lists the items of a log.
ghost use Rattle.std.specs.Prelude.{◌↔◌, IsTrue, Option};
ghost use Rattle.raft_log_operator.specs.Listing.{IsListed};

use crate::fault::{CommandFault, Outcome};
use crate::found_file::{FoundFile, find_files};
use crate::text::{FileText, ItemLine};
use raft_log_command_line::Place;
use raft_log_engine::{Error, FileSystem, LogItem, LogItemReader};
use std::alloc::Global;
use std::io::Write;

/// Writes a line for each item of a log, or of the one file whose path is the main one. If a group is named, it leaves
/// out the items of other groups. Rewrite's files are first, and each queue's are in the order of their numbers. For
/// broken bytes in a file it writes a line instead of the rest of the file, and returns `Faulty`. Changes nothing.
///
/// Fails with `File` if a directory isn't listed or a file isn't read, and with `Output` if writing the output fails.
/// Fails with `Log` if memory runs out, or if the one file's name isn't a log file's. What was written stays.
pub fn dump<F: FileSystem, W: Write>(
    alloc: Global,
    files: &F,
    place: &Place,
    group: Option<u64>,
    out: &mut W,
) -> Result<Outcome, CommandFault> {
    let mut outcome = Outcome::Sound;
    for file in find_files(alloc, files, place)? {
        if dump_file(alloc, files, &file, group, out)? == Outcome::Faulty {
            outcome = Outcome::Faulty;
        }
    }
    Ok(outcome)
}

/// Writes a line for each item of a file, or only for those of a group.
fn dump_file<F: FileSystem, W: Write>(
    alloc: Global,
    files: &F,
    file: &FoundFile,
    group: Option<u64>,
    out: &mut W,
) -> Result<Outcome, CommandFault> {
    let mut outcome = Outcome::Sound;
    let path = file.path.as_str();
    let items = match LogItemReader::new_file_reader(alloc, files, path) {
        Ok(items) => items,
        Err(error) => return Err(CommandFault::at(alloc, path, error)),
    };
    for answer in items {
        match answer {
            Ok(item) => {
                if is_listed(&item, group) {
                    let line = ItemLine {
                        id: file.id,
                        item: &item,
                    };
                    writeln!(out, "{line}")?;
                }
            }
            Err(Error::Memory) => return Err(CommandFault::Log(Error::Memory)),
            Err(Error::Io(kind)) => return Err(CommandFault::at(alloc, path, Error::Io(kind))),
            Err(error) => {
                let text = FileText(file.id);
                writeln!(out, "{text}: broken: {error}")?;
                outcome = Outcome::Faulty;
            }
        }
    }
    Ok(outcome)
}

/// Whether a dump of this group lists an item; without a group it lists each.
fn is_listed(item: &LogItem, group: Option<u64>) -> bool
    ensures { IsTrue result ↔ IsListed group item.now }
{
    group.is_none_or(|group| item.raft_group_id == group)
}
