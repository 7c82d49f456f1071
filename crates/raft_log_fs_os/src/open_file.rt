//! An open file, and the messages for a call on it that failed or found no space.
use super::locked_directory::{LockedDirectory, begins_to_lack, directory_of};
use raft_log_fs_traced::Attempt;
use std::fs::File;
use std::io;
use std::io::ErrorKind;

/// An open file with its path.
#[derive(Drop)]
pub(crate) struct OpenFile {
    pub file: File,
    pub path: String,
}

/// Returns the kind of a failed call's error. Prints the error with the path and the task to standard error, as the
/// kind alone names no file.
fn report<R: Eprint>(rt: &R, path: &str, task: &str, error: io::Error) -> ErrorKind {
    let _printed = eprintln!(rt; "{path}: can't {task}: {error}").is_ok();
    error.kind()
}

/// A call's value, or the kind of its error, which is printed as by `report`.
pub(crate) fn reported<R: Eprint, T>(
    rt: &R,
    path: &str,
    task: &str,
    done: io::Result<T>,
) -> Result<T, ErrorKind> {
    match done {
        Ok(value) => Ok(value),
        Err(error) => Err(report(rt, path, task, error)),
    }
}

/// The error for a directory that is not one of the opened ones, and is therefore not made. Prints it, with the path,
/// to standard error.
pub(crate) fn unopened<R: Eprint>(rt: &R, path: &str) -> ErrorKind {
    let _printed = eprintln!(rt;
        "{path}: not made, since it is no directory that was opened"
    ).is_ok();
    ErrorKind::NotFound
}

/// Notes for a file's directory whether an attempt to make the file longer found no space. Prints a warning with the
/// directory and the path to standard error if it did and the last attempt in that directory didn't. The directory of a
/// copy isn't one of these: a lack of space there is printed each time.
pub(crate) fn warn_of_space<R: Eprint>(
    rt: &R,
    directories: &mut [LockedDirectory],
    path: &str,
    attempt: Attempt,
) {
    if begins_to_lack(directories, path, attempt) {
        let directory = directory_of(path);
        let _printed = eprintln!(rt;
            "no space left in {directory}: {path} keeps its length"
        ).is_ok();
    }
}
