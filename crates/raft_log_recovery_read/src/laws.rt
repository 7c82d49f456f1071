//! What the files of a queue contain: the law is a function without a body.

ghost use Rattle.std.specs.Prelude.{List};
ghost use Rattle.raft_log_record_base.specs.declared.pipe_log.LogQueue.{LogQueue};
ghost use Rattle.raft_log_fs.specs.Disk.{Disk};
ghost use Rattle.raft_log_active_file.specs.declared.format.File.{File};
ghost use Rattle.raft_log_file_settings.specs.declared.recovery_mode.RecoveryMode.{RecoveryMode};
ghost use Rattle.raft_log_replay.specs.Segments.{HoldsOne};
ghost use Rattle.raft_log_recovery_read.specs.Segments.{HoldsFile};

/// Each file of a queue has one list of batches, and one thing is to be done with it. The number of workers that read
/// the files makes no difference.
pub fn files_hold_one()
    ensures { (mode : RecoveryMode) (queue : LogQueue) (files : List File) (d : Disk)
        → HoldsOne (HoldsFile mode queue files d) }
{}
