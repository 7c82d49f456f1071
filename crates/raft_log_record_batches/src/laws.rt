//! Laws of batches, each the contract of an empty function.
ghost use Rattle.raft_log_record_batches.specs.Places.{ReadHasWhatWasAdded, ReadMeansWhatWasAdded};

/// The places that are read of a written batch have, in the block that was written, the bytes that were added.
pub fn read_has_what_was_added()
    ensures { ReadHasWhatWasAdded }
{}

/// What is read of a written batch means what was added to it, if an entry means the bytes at its place.
pub fn read_means_what_was_added()
    ensures { ReadMeansWhatWasAdded }
{}
