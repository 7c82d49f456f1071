//! Laws of the writer of a file.

ghost use Rattle.raft_log_file_writer.specs.Chains.{DurableIsLeft, RestHoldsNothing, WriterBeginsChain, WriterKeepsChain};

use crate::chains::Framing;

/// The durable bytes of a file remain after any stop.
pub fn durable_bytes_are_left()
    ensures { DurableIsLeft }
{}

/// The effects of a writer's calls on a chain of records, for any encoding in which no record is a prefix of another.
pub fn writer_keeps_a_chain<G: Framing>()
    ensures { WriterKeepsChain G.is_frame }
{}

/// A file without records that gets a header is ready for its first record, whatever it held. Each file at rest is one
/// without records.
pub fn writer_begins_a_chain<G: Framing>()
    ensures begins { WriterBeginsChain G.is_frame }
    ensures rest { RestHoldsNothing G.is_frame }
{}
