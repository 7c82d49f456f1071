//! The file `LOCK` of a log's main directory notes the path of its second one. An open without that directory would
//! take the files in it for purged, and a purge would then lose what is live in them.
use super::fault::DirectoryFault;
use super::load::Found;
use super::locked_directory::LockedDirectory;
use super::log_names::{ListedFile, list_files};
use std::fs::File;
use std::io;
use std::io::ErrorKind;
use std::rt::Files;

/// Fails with `Incomplete` if no second directory is opened, and `LOCK` notes one that has files of a queue or can't be
/// listed. If one is opened for writing, notes its path, unless there is no space for it.
pub(crate) fn settle_second<R: Files<File = File> + AllocGlobal + Clone>(
    rt: &R,
    found: &Found,
    directory: &str,
    second: Option<&str>,
) -> Result<(), DirectoryFault> {
    let Some(main) = found.directories.first() else {
        return Ok(());
    };
    let noted = match main.noted(rt.alloc()) {
        Ok(noted) => noted,
        Err(error) => return Err(DirectoryFault::of_files(rt.alloc(), directory, error)),
    };
    let Some(second) = second else {
        return refuse_alone(rt, directory, noted);
    };
    match noted {
        Some(noted) if noted.as_str() == second => Ok(()),
        _ => note(rt, main, directory, second),
    }
}

/// Fails with `Incomplete` if the directory at the noted path has files of a queue, or can't be listed.
fn refuse_alone<R: Files<File = File> + AllocGlobal + Clone>(
    rt: &R,
    directory: &str,
    noted: Option<String>,
) -> Result<(), DirectoryFault> {
    let Some(second) = noted else {
        return Ok(());
    };
    if has_no_queue_file(list_files(rt, second.as_str())) {
        return Ok(());
    }
    let directory = String::from_str(rt.alloc(), directory)?;
    Err(DirectoryFault::Incomplete { directory, second })
}

/// Whether a directory was listed, and has no file of a queue.
fn has_no_queue_file(listed: Result<Vec<ListedFile>, DirectoryFault>) -> bool {
    match listed {
        Ok(files) => files.iter().all(|file| file.id.is_none()),
        Err(_) => false,
    }
}

/// Notes the path of the second directory in the main one, unless there is no space for it.
fn note<R: Files<File = File> + AllocGlobal>(
    rt: &R,
    main: &LockedDirectory,
    directory: &str,
    second: &str,
) -> Result<(), DirectoryFault> {
    let line = format!(in rt.alloc(); "{second}\n")?;
    match main.note(line.as_str()) {
        Err(error) if !is_full(&error) => {
            Err(DirectoryFault::of_files(rt.alloc(), directory, error))
        }
        _ => Ok(()),
    }
}

/// Whether a call failed because the disk or a quota is full.
fn is_full(error: &io::Error) -> bool {
    matches!(
        error.kind(),
        ErrorKind::StorageFull | ErrorKind::QuotaExceeded
    )
}
