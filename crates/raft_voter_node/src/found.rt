//! Counts the files in the directories of a log.
use raft_log_engine::{Config, FileSystem, Permission};
use std::alloc::Global;

/// How many files are in directories, and how many bytes they have.
#[derive(Clone, Copy)]
pub struct Found {
    /// How many files there are.
    pub files: u64,
    /// How many bytes all of them have.
    pub bytes: u64,
}

/// Counts the files in the directories of these settings. A directory that can't be listed counts as empty, and a file
/// that can't be opened isn't counted.
pub fn found_by<F: FileSystem>(files: &F, alloc: Global, config: &Config) -> Found {
    let main = found_in(files, alloc, config.dir.as_str());
    let Some(spill) = &config.spill_dir else {
        return main;
    };
    let more = found_in(files, alloc, spill.as_str());
    Found {
        files: main.files.saturating_add(more.files),
        bytes: main.bytes.saturating_add(more.bytes),
    }
}

/// Counts the files in a directory.
fn found_in<F: FileSystem>(files: &F, alloc: Global, directory: &str) -> Found {
    let mut found = Found { files: 0, bytes: 0 };
    let Ok(names) = files.list(directory) else {
        return found;
    };
    for name in names {
        if let Some(size) = size_of(files, alloc, directory, name.as_str()) {
            found.files = found.files.saturating_add(1);
            found.bytes = found.bytes.saturating_add(size as u64);
        }
    }
    found
}

/// The size of a file in a directory.
fn size_of<F: FileSystem>(files: &F, alloc: Global, directory: &str, name: &str) -> Option<usize> {
    let path = format!(in alloc; "{directory}/{name}").ok()?;
    let handle = files.open(path.as_str(), Permission::ReadOnly).ok()?;
    files.file_size(handle).ok()
}
