//! What is left of a store that threads share: laws, each the contract of an empty function.
ghost use Rattle.raft_log_engine.specs.raft_log_engine_core.specs.Reads.{shows_of};
ghost use Rattle.raft_voter_shared_log.specs.Disks.{DisksGoOn};
ghost use Rattle.raft_voter_shared_log.specs.GoingOn.{ClosedStoresGoOn};
ghost use Rattle.raft_voter_shared_log.specs.Joining.{JoinedOpeningsAreExplained};
ghost use Rattle.raft_voter_shared_log.specs.ListedVoters.{ListingsAreVoters};
ghost use Rattle.raft_voter_shared_log.specs.LogOpenings.{LogOpeningsAreExplained, SettledStoresMean};

use raft_log_engine::{EnginePipes, Nobody, PipeLog};
use raft_log_fs::FileSystem;
use raft_voter::RoundService;
use raft_voter_shared::Opening;
use raft_voter_world::{VoterDisk, VoterStorage};

/// Suppose a store, which runs or has failed, leaves voters that are possible after a cut-off round, and is closed. An
/// open, after a crash or in place, finds such voters, unless there is a CRC collision.
pub fn closed_stores_go_on<F: FileSystem>()
    ensures { ClosedStoresGoOn F.disk F.tells_space }
{}

/// Suppose a store was settled, whether that failed or not. Take any crash image of its files, before or after they are
/// closed. It means the voters that the store served at its open, after the records with replies. If the store failed
/// in rounds that it served together, they also took the requests of these below some place. This requires that there
/// is no CRC collision.
pub fn settled_stores_mean<F: FileSystem + Sync>()
    ensures { SettledStoresMean {F = F}
        (λ store. shows_of ⟦<EnginePipes<F, Nobody> as PipeLog>⟧.shown store.store.engine) }
{}

/// Suppose a store is opened several times, the first open finds fresh voters, and each later one finds what the one
/// before left. Voters that never fail explain the journals, one after another. The rounds in which a store failed are
/// cut, as one round. The cut is the place up to which the voters that the next open shows took them.
pub fn joined_openings_are_explained<R, S: RoundService<R>>()
    ensures { JoinedOpeningsAreExplained S.service }
{}

/// On any disk an open, after a crash or without one, finds what the close of a store left, unless there is a CRC
/// collision.
pub fn disks_go_on<R, S: VoterStorage<R>, F: VoterDisk<R, S>>()
    ensures { DisksGoOn S.service F.disk }
{}

/// The same on a log, in any file system: voters that never fail explain the journals of its openings, one after
/// another. The first opening was of directories without a log. If a store had failed, or its close wasn't proper,
/// there is no CRC collision in the files that are opened next. After a proper close of a running store there is no
/// such premise.
pub fn log_openings_are_explained<F: FileSystem + Sync>()
    ensures { LogOpeningsAreExplained F.disk F.tells_space
        (λ store. shows_of ⟦<EnginePipes<F, Nobody> as PipeLog>⟧.shown store.store.engine) }
{}

/// If a shared store lists its voters, these are the voters after the records of some legal history of its rounds.
pub fn listings_are_voters<F: FileSystem + Sync, L: Opening>()
    ensures { ListingsAreVoters {F = F}
        (λ store. shows_of ⟦<EnginePipes<F, Nobody> as PipeLog>⟧.shown store.store.engine) L.served }
{}
