//! A law on runs of a log: which of them ask nothing of chance.
#![tactic(auto)]

ghost use Rattle.raft_log_world_engine.specs.Instance.{Parts};
ghost use Rattle.raft_log_run_laws.specs.Quiet.{QuietRunsAskNothing};

use raft_log_recovery_laws::closed::closed_files_meet_the_premise;
use raft_voter_log::chance::losses_leave_no_chance;

/// Suppose that a run of a log begins with a log at rest, each crash of an engine only loses writes, and each close
/// succeeds (`IsQuiet`). Then the model log gives the answers of the run, without a premise on CRC collisions.
pub fn quiet_runs_ask_nothing<S, G, C>()
    ensures { (parts : Parts S G) → QuietRunsAskNothing C parts }
{
    losses_leave_no_chance();
    closed_files_meet_the_premise();
}
