//! Rounds in which exactly the requests out of range were refused.

ghost use Rattle.raft_voter_world.specs.Independent.{RoundsAreIndependent, RunsAreIndependent, WholeRoundsAreIndependent};

use crate::{VoterDisk, VoterStorage};
use raft_voter::RoundService;

/// If a store refused exactly the requests out of range in its rounds, each group got the replies of a voter of its
/// own. That voter took the group's requests, one after another. The requests of other groups, and the split into
/// rounds, make no difference. The store serves these voters afterwards.
pub fn rounds_are_independent<R, S: RoundService<R>>()
    ensures { RoundsAreIndependent S.service }
{}

/// The same holds for each list of such rounds, all with replies, by which voters that never fail lead from one world
/// to another.
pub fn whole_rounds_are_independent()
    ensures { WholeRoundsAreIndependent }
{}

/// The same holds for a run whose rounds all got replies and refused exactly the requests out of range, with fresh
/// voters at the start. Its premises: no open lost voters, and each store whose voters were read served some. Purges,
/// closes, opens by any number of workers, crashes and copies between the rounds change no reply.
pub fn runs_are_independent<R, S: VoterStorage<R>, F: VoterDisk<R, S>>()
    ensures { RunsAreIndependent S.service S.upkeep F.disk }
{}
