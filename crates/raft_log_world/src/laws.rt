//! Laws on all runs of events on a log. Each is the contract of an empty function.
ghost use Rattle.raft_log_world.specs.Explained.{AllExplained, AllGoOn};
ghost use Rattle.raft_log_world.specs.Kept.{KeepsDurable};

use crate::files::LogFiles;

/// Suppose the first files of a run represent a model log. Then after each event, the engine or the files represent
/// what this log becomes. This ends at the first event that meets a CRC collision, or copies to a target that isn't
/// clear.
pub fn known_logs_go_on<R, S, B, C, F: LogFiles<R, S, B, C>>()
    ensures { AllGoOn F.log }
{}

/// Suppose also that no event of the run meets a CRC collision, and each copy has a clear target. Then the model log
/// gives the answers of the report. The engine or the files at the end represent the log that the model has become.
pub fn runs_are_explained<R, S, B, C, F: LogFiles<R, S, B, C>>()
    ensures { AllExplained F.log }
{}

/// Durable contents stay, after any events that the model explains. Only whole batches are added to them, in order:
/// some of those that were pending or that the events asked to write.
pub fn durable_contents_are_kept<B, C>()
    ensures { KeepsDurable B C }
{}
