//! The directories of a log.
use std::alloc::{AllocError, Global};

/// The directories of a log.
#[derive(Debug, Drop, PartialEq, Eq)]
pub struct Place {
    /// The log's main directory; for a dump, it may be the path of one file.
    pub directory: String,
    /// The log's second directory, if it has one.
    pub spill_directory: Option<String>,
}

impl Place {
    /// This place without the slashes at the end of its paths.
    pub fn trimmed(&self, alloc: Global) -> Result<Place, AllocError> {
        let directory = String::from_str(alloc, trimmed(self.directory.as_str()))?;
        let spill_directory = match &self.spill_directory {
            Some(spill) => Some(String::from_str(alloc, trimmed(spill.as_str()))?),
            None => None,
        };
        Ok(Place {
            directory,
            spill_directory,
        })
    }

    /// The directory of the file whose path is the main one, and that file's path under this directory's spelling.
    pub fn file_in(&self, alloc: Global) -> Result<(String, String), AllocError> {
        let (home, name) = parted(self.directory.as_str());
        let home = String::from_str(alloc, home)?;
        let path = format!(in alloc; "{home}/{name}")?;
        Ok((home, path))
    }
}

/// A path without the slashes at its end. A path of slashes alone stays as it is.
pub fn trimmed(path: &str) -> &str {
    let rest = path.trim_end_matches('/');
    if rest.is_empty() { path } else { rest }
}

/// The directory of a file, and the file's name in it.
pub fn parted(path: &str) -> (&str, &str) {
    match path.rsplit_once('/') {
        Some((home, name)) if home.is_empty() => ("/", name),
        Some((home, name)) => (home, name),
        None => (".", path),
    }
}
