//! A file of a directory, as a name and bytes.

/// A file of a directory.
#[derive(Debug, Drop)]
pub struct StoredFile {
    /// Its name in the directory.
    pub name: String,
    /// Its bytes.
    pub bytes: Vec<u8>,
}
