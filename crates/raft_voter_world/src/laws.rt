//! Laws about each history of a store and its disk. Each is the contract of an empty function.
ghost use Rattle.raft_voter_world.specs.Alike.{AllReplyAlike};
ghost use Rattle.raft_voter_world.specs.Run.{AllExplained, AllTransparent};

use crate::disk::VoterDisk;
use crate::store::VoterStorage;
use raft_voter::RoundService;

/// Suppose each open finds the least place that fits, no open lost voters, and each store whose voters were read at its
/// open served some. Then voters that never fail explain the rounds. Each group's voter took its requests, except two
/// kinds: refused ones, and the tail of each round that was cut off. The tail starts at the same place for all groups.
pub fn rounds_are_explained<R, S: VoterStorage<R>, F: VoterDisk<R, S>>()
    ensures { AllExplained S.service S.upkeep F.disk }
{}

/// Suppose the first files store no voter, and each open finds the least place that fits. Suppose also that no open
/// reads and no crash leaves files with a CRC collision. Then each open finds a place. Voters that never fail explain
/// the rounds, and can end as any voters that may be left at the end. For that, the last round that was cut off may
/// need another cut.
pub fn crashes_are_transparent<R, S: VoterStorage<R>, F: VoterDisk<R, S>>()
    ensures { AllTransparent S.service S.upkeep F.disk }
{}

/// If two stores serve the same voters and refuse the same places (or none) of the same rounds, they give the same
/// replies. One may be on a log and the other in memory, for instance.
pub fn stores_reply_alike<R, S: RoundService<R>, T: RoundService<R>>()
    ensures { AllReplyAlike S.service T.service }
{}
