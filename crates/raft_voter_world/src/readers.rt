//! The field `transparent` of a run, for a reader who checks that there was no CRC collision.

ghost use Rattle.raft_voter_world.specs.Readers.{AllGoBy, RunsGoBy};

use crate::{VoterDisk, VoterStorage};

/// Suppose a history starts with files that store no voter, and each open finds the least place that fits. The
/// condition on CRC collisions depends on a proof of what the files leave. After each moment the reader may choose
/// another such proof.
///
/// Without a CRC collision, each open finds a place that fits. Voters that never fail explain the rounds, and can end
/// as any voters that may be left at the end.
pub fn all_go_by<R, S: VoterStorage<R>, F: VoterDisk<R, S>>()
    ensures { AllGoBy S.service S.upkeep F.disk }
{}

/// The same holds for each run that starts with files that store no voter.
pub fn runs_go_by<R, S: VoterStorage<R>, F: VoterDisk<R, S>>()
    ensures { RunsGoBy S.service S.upkeep F.disk }
{}
