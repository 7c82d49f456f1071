//! Laws of a log over any file system: what opens, copies and crashes make of it is what the model log becomes. The
//! calls of an engine say so themselves.

ghost use Rattle.raft_log_world_engine.specs.AnyFiles.{CopiesFollowTheModel, EngineCrashesFollowTheModel, FileCrashesFollowTheModel, OpensFollowTheModel};

use raft_log_engine::FileSystem;
use raft_log_recovery_laws::forks::{
    forked_logs_rest, forks_leave_the_source, left_logs_show_alike, targets_are_clear,
};
use raft_log_recovery_laws::in_place::standing_directories_open;
use raft_log_recovery_laws::opens::{
    bare_directories_open, crashed_engines_open, resting_directories_open,
};
use raft_log_recovery_laws::recovered::crashed_logs_rest;

/// If an open of a log's files succeeds or fails, as `Engine::open_with_file_system` says, the model gives this answer
/// too. The engine, or the files, are the log that the model becomes. If a close or a failed open left the files, they
/// must have no CRC collision.
pub fn opens_follow_the_model<F: FileSystem, C>()
    ensures { OpensFollowTheModel C F.disk F.tells_space }
{
    bare_directories_open::<F>();
    resting_directories_open::<F>();
    standing_directories_open::<F>();
}

/// If a copy of a log's files succeeds or fails, as `fork` says, the model gives this answer too. The copy, or the
/// files, are the log that the model becomes. The premise is that of an open. For a copy that succeeds, no directory in
/// the target may have had the name of a log file.
pub fn copies_follow_the_model<F: FileSystem, C>()
    ensures { CopiesFollowTheModel C F.disk }
{
    targets_are_clear();
    forked_logs_rest();
    forks_leave_the_source();
    left_logs_show_alike::<F>();
}

/// What a crash leaves of a log's files, or of an engine's, is the log that the model becomes. The crash must leave no
/// CRC collision, unless the log was at rest.
pub fn crashes_follow_the_model<F: FileSystem, C>()
    ensures files { FileCrashesFollowTheModel C }
    ensures engine { EngineCrashesFollowTheModel C F.disk }
{
    crashed_logs_rest();
    crashed_engines_open::<F>();
}
