//! Why each round of a run has its outcome, why each purge succeeded or failed, and that the run's stores serve voters.

ghost use Rattle.raft_voter_world.specs.Causes.{EachPurgeHasItsCause, EachRoundHasItsCause, StoresOfRunsServe};

use crate::{VoterDisk, VoterStorage};

/// Each round of a run with replies got them from a store of that run, which may refuse the places that it refused. If
/// a round was cut off, a store of the run cut it off for a cause that it may have, or no store was open. For the cause
/// `FileSystem`, a file call failed in the round, and the store may refuse each place that it refused.
pub fn each_round_has_its_cause<R, S: VoterStorage<R>, F: VoterDisk<R, S>>()
    ensures { EachRoundHasItsCause S.service S.upkeep F.disk }
{}

/// Each purge of a run was a purge of an open store. It succeeded and did its work, or failed for a cause that the
/// store may have. The store serves the same voters afterwards, unless it has failed.
pub fn each_purge_has_its_cause<R, S: VoterStorage<R>, F: VoterDisk<R, S>>()
    ensures { EachPurgeHasItsCause S.service S.upkeep F.disk }
{}

/// Suppose each store of a run whose voters were read at its open served some. Then each store of the run to which
/// something happened had failed, or served some.
pub fn stores_of_runs_serve<R, S: VoterStorage<R>, F: VoterDisk<R, S>>()
    ensures { StoresOfRunsServe S.service S.upkeep F.disk }
{}
