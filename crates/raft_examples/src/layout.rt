//! A caller of `raft_log_active_file`: the layout of a queue whose files are in one directory.

ghost use Rattle.std.specs.Prelude.{◌≡◌, [], ◌∷◌, IfOk};
ghost use Rattle.raft_log_active_file.specs.QueueFiles.{log_paths};

use raft_log_active_file::{LogLayout, PipeFormat};
use raft_log_record_base::LogQueue;
use std::alloc::{AllocError, Global};

/// The layout of a queue whose files are all in this directory, for its pipe.
pub fn layout_in(alloc: Global, queue: LogQueue, directory: &str) -> Result<LogLayout, AllocError>
    ensures queue { IfOk result (λ layout. layout.queue ≡ queue) }
    ensures lies { IfOk result (λ layout.
        ⟦<LogLayout as PipeFormat>⟧.file_paths layout ≡ log_paths queue (directory.now ∷ [])) }
{
    let mut paths = Vec::new(alloc);
    paths.push(String::from_str(alloc, directory)?)?;
    Ok(LogLayout::new(queue, paths))
}
