//! What is proved of a pipe, at any point between its calls and inside them.

ghost use Rattle.raft_log_file_pipe.specs.WritingLast.{PipesWriteTheirLast};
ghost use Rattle.raft_log_file_pipe.specs.Laws.{PipesAreFound, PipesAreKept};

use raft_log_active_file::PipeFormat;

/// After any stop without a CRC collision, all records of a pipe's earlier files are read. Of the last file, all
/// durable records and a prefix of the pending ones are read. What the stop leaves is the queue again.
pub fn pipes_are_kept<G: PipeFormat>()
    ensures { (layout : G) → PipesAreKept (G.format layout) (G.own layout) (G.file_paths layout) }
{}

/// Suppose a stop leaves a pipe's files without a CRC collision, the files were found, and the last one was read. Then
/// a pipe may be opened over them. Its queue is the one that was stopped, with its durable records and a prefix of the
/// pending ones.
pub fn stopped_pipes_are_found<G: PipeFormat>()
    ensures { (layout : G) → PipesAreFound (G.format layout) (G.own layout) (G.file_paths layout) }
{}

/// On any disk, a pipe that was opened writes the file that it lists as the active one. What an append wrote may be
/// read at the location that it returned.
pub fn pipes_write_their_last<G: PipeFormat>()
    ensures { (layout : G) → PipesWriteTheirLast (G.file_paths layout) }
{}
