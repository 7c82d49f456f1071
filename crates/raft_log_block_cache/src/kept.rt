//! A cached block has what was written at its place.

ghost use Rattle.raft_log_block_cache.specs.Blocks.{KeptBlocksAreWritten, KeptBlocksStay, WholeBlocksAreRead};

/// After a block of the log was read through the cache, the cache has the bytes that were written there. A block that
/// was cached before must have been one of this log.
pub fn kept_blocks_are_written()
    ensures { KeptBlocksAreWritten }
{}

/// Reading a block that was written whole to the log fails only with `Memory`, or if the file system can't read its
/// file. It is never reported as damaged, nor its file as missing.
pub fn whole_blocks_are_read()
    ensures { WholeBlocksAreRead }
{}

/// A cached block still has what was written, after every call that keeps the log's bytes: appends, syncs and
/// rotations, whether they succeed or fail. The cache must be cleared after a file leaves the live range.
pub fn kept_blocks_stay()
    ensures { KeptBlocksStay }
{}
