//! Laws of the batches in a file's bytes. Each is the contract of an empty function.
ghost use Rattle.raft_log_file_reader.specs.Laws.{OneReading, OneFault, BatchesGoOn, PaddingAligns, BatchesAreFrames, WholeBlockMakesRecord, BatchesOutweighItems};

/// A file's bytes determine which batches are read from an offset on, and where they end. They determine the fault too,
/// if there is one, and then the file doesn't end there.
pub fn one_reading()
    ensures batches { OneReading }
    ensures faults { OneFault }
{}

/// If batches are read up to an offset, and one more from there, then all of them are read.
pub fn batches_go_on()
    ensures { BatchesGoOn }
{}

/// Padding ends at the next multiple of the alignment, and is shorter than the alignment.
pub fn padding_aligns()
    ensures { PaddingAligns }
{}

/// Without an alignment, the batches of a file are the frames that follow one another. A batch whose entry block is
/// whole is a record.
pub fn batches_are_frames()
    ensures frames { BatchesAreFrames }
    ensures records { WholeBlockMakesRecord }
{}

/// A batch has more bytes than items.
pub fn batches_outweigh_items()
    ensures { BatchesOutweighItems }
{}
