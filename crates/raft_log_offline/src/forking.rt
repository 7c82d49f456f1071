//! A log that no engine has open is copied into a directory.

ghost use Rattle.std.specs.Prelude.{◌≡◌, false, true, [], map, IfOk, IfErr, OnOk};
ghost use Rattle.std.specs.List.{AllZip};
ghost use Rattle.std.specs.String.{string_bytes};
ghost use Rattle.raft_log_record_base.specs.declared.errors.Error.TheVariants.{Memory};
ghost use Rattle.raft_log_file_settings.specs.Settings.{directories_of, settings_of};
ghost use Rattle.raft_log_fs.specs.Reading.{IsListing};
ghost use Rattle.raft_log_recovery_scan.specs.Directories.{FailsToListAll, MakesIfAbsent};
ghost use Rattle.raft_log_recovery_scan.specs.Scanned.{FailsToFindFiles};
ghost use Rattle.raft_log_offline.specs.Copies.{copy_path};
ghost use Rattle.raft_log_offline.specs.Forks.{AllowsFork, CopiesAll, FailsToCopyAll, FailsToFork, FailsToMakeTarget, Forks, IsForkRefusal};
ghost use Rattle.raft_log_offline.specs.Sources.{AreApart, AreSources, AreSourcesOf, AllThere, IsSourceRefusal, source_of};

use crate::choosing::one_each;
use crate::copying::copy_file;
use crate::permission::permit;
use crate::source_file::SourceFile;
use log::Log;
use raft_log_active_file::File;
use raft_log_file_settings::Config;
use raft_log_fs::{FileSystem, Permission};
use raft_log_record_base::{Error, Result};
use raft_log_recovery::paths::paths;
use raft_log_recovery_scan::FileKind;
use raft_log_recovery_scan::scanning::directories::list_directories;
use raft_log_recovery_scan::scanning::found::find_files;
use raft_log_recovery_scan::scanning::opening::open_files;
use std::alloc::Global;
use std::io::ErrorKind;

/// What was copied.
#[derive(Drop, Debug)]
pub struct CopyDetails {
    /// The paths of the copies, those of Rewrite's files first, each queue's by their numbers.
    pub copied: Vec<String>,
    /// Empty: every file is copied.
    pub symlinked: Vec<String>,
}

/// Copies a log that no engine has open into a directory, which is made if it is missing. Copies all files of both
/// queues; of several with one number, the one that `one_each` chooses. Copies no reserved file. Syncs each copy.
/// Nothing of the log changes.
///
/// Before anything is changed, fails:
/// - as `permit` does
/// - with `Io` if a directory of the log isn't there
/// - with `Corruption` if a name in it begins with a number and has more between it and the end
/// - with `Memory`
///
/// Later it fails with `Io` or `Memory`. What was copied stays, and the last copy may be incomplete.
///
/// A file system that has stopped is reported first, as `Io(Other)`, so that no stop is reported as lack of memory.
pub fn fork<F: FileSystem, L: Log>(
    rt: &L,
    alloc: Global,
    source: &Config,
    file_system: &mut F,
    target: &str,
) -> Result<CopyDetails>
    ensures ok { IfOk result (λ details. Forks (settings_of source.now) target.now
        (map string_bytes details.copied.items) (F.disk file_system.old) (F.disk file_system.new)) }
    ensures linked { IfOk result (λ details. details.symlinked.items ≡ []) }
    ensures err { IfErr result (λ error. FailsToFork (settings_of source.now) target.now error
        (F.disk file_system.old) (F.disk file_system.new)) }
    ensures memory { IfErr result (λ error. error ≡ Memory → (F.disk file_system.old).stopped ≡ false) }
{
    if file_system.has_stopped() {
        return Err(Error::Io(ErrorKind::Other));
    }
    let directories = paths(alloc, source)?;
    permit(
        rt,
        alloc,
        source,
        directories.as_slice(),
        file_system,
        target,
    )?;
    let files = find_sources(alloc, file_system, directories.as_slice())?;
    make_target(file_system, target)?;
    let copied = copy_files(alloc, file_system, files.as_slice(), target)?;
    Ok(CopyDetails {
        copied,
        symlinked: Vec::new(alloc),
    })
}

/// The files of both queues in these directories that are copied, open, those of Rewrite first.
fn find_sources<F: FileSystem>(
    alloc: Global,
    file_system: &F,
    paths: &[String],
) -> Result<Vec<SourceFile>>
    ensures ok { IfOk result (λ files.
        AreSources (map string_bytes paths.now) (F.disk file_system.now) files.items) }
    ensures err { IfErr result (IsSourceRefusal (map string_bytes paths.now) (F.disk file_system.now)) }
{
    let listings = list_directories(alloc, file_system, paths)?;
    let names = listings.as_slice();
    let mut files = sources_of(alloc, file_system, FileKind::Rewrite, paths, names)?;
    let mut append = sources_of(alloc, file_system, FileKind::Append, paths, names)?;
    files.append(&mut append)?;
    Ok(files)
}

/// The files of a kind that are to be copied, open.
fn sources_of<F: FileSystem>(
    alloc: Global,
    file_system: &F,
    kind: FileKind,
    paths: &[String],
    listings: &[Vec<String>],
) -> Result<Vec<SourceFile>>
    requires { AllZip (λ path names. IsListing (string_bytes path) (F.disk file_system.now)
        (map string_bytes names.items)) paths.now listings.now }
    ensures ok { IfOk result (λ files.
        AreSourcesOf kind (map string_bytes paths.now) (F.disk file_system.now) files.items) }
    ensures err { IfErr result (FailsToFindFiles (map string_bytes paths.now) (F.disk file_system.now)) }
{
    let found = find_files(alloc, kind, listings)?;
    let chosen = one_each(alloc, found)?;
    let permission = Permission::ReadOnly;
    let files = open_files(
        alloc,
        file_system,
        kind,
        paths,
        permission,
        chosen.as_slice(),
    )?;
    let sources = of_kind(alloc, kind, files.as_slice())?;
    Ok(sources)
}

/// Files of a kind as those that are copied. Fails only with `Memory`.
fn of_kind(alloc: Global, kind: FileKind, files: &[File]) -> Result<Vec<SourceFile>>
    ensures ok { IfOk result (λ sources. sources.items ≡ map (source_of kind) files.now) }
    ensures err { IfErr result (λ error. error ≡ Memory) }
{
    let mut sources = Vec::new(alloc);
    for file in files {
        sources.push(SourceFile {
            kind,
            seq: file.seq,
            handle: file.handle,
        })?;
    }
    Ok(sources)
}

/// Makes a directory unless it is there.
fn make_target<F: FileSystem>(file_system: &mut F, target: &str) -> Result<()>
    ensures ok { OnOk result
        (MakesIfAbsent target.now (F.disk file_system.old) (F.disk file_system.new)) }
    ensures err { IfErr result (λ error. FailsToMakeTarget target.now error
        (F.disk file_system.old) (F.disk file_system.new)) }
{
    match file_system.list(target) {
        Ok(_) => return Ok(()),
        Err(ErrorKind::OutOfMemory) => return Err(Error::Memory),
        Err(_) => {}
    }
    file_system.create_dir(target)?;
    Ok(())
}

/// Copies these files into a directory that is there, syncs each, and returns the copies' paths.
fn copy_files<F: FileSystem>(
    alloc: Global,
    file_system: &mut F,
    files: &[SourceFile],
    target: &str,
) -> Result<Vec<String>>
    requires there { AllThere (F.disk file_system.old) files.now }
    requires apart { AreApart files.now }
    requires home { (F.disk file_system.old).directories target.now ≡ true }
    ensures paths { IfOk result (λ copied.
        map string_bytes copied.items ≡ map (copy_path target.now) files.now) }
    ensures ok { OnOk result (CopiesAll target.now files.now
        (F.disk file_system.old) (F.disk file_system.new)) }
    ensures err { IfErr result (λ error. FailsToCopyAll target.now files.now error
        (F.disk file_system.old) (F.disk file_system.new)) }
{
    let mut copied = Vec::new(alloc);
    for file in files {
        let path = copy_file(alloc, file_system, *file, target)?;
        copied.push(path)?;
    }
    Ok(copied)
}
