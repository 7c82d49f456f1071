//! The files that a store starts with, by its settings.
ghost use Rattle.std.specs.Prelude.{IfErr, IfOk};
ghost use Rattle.std.specs.Option.{option_map};
ghost use Rattle.std.specs.String.{string_bytes};
ghost use Rattle.raft_voter.specs.Rounds.{fresh_world};
ghost use Rattle.raft_voter.specs.Service.{uncut};
ghost use Rattle.raft_voter_program.specs.StoreSetup.{IsWithoutFiles};

use raft_voter_world::{VoterDisk, VoterStorage};
use std::alloc::Global;

/// Why there are no files.
#[derive(Clone, Copy, Debug, PartialEq, Eq)]
pub enum NoFiles {
    /// The settings are rejected.
    Settings,
    /// Memory ran out.
    Memory,
}

/// Makes the files of a store that has no voters yet, by its settings.
pub trait StoreSetup<R, S: VoterStorage<R>, F: VoterDisk<R, S>> {
    ghost use Rattle.raft_voter_program.specs.StoreSetup.{Setup};

    /// Which files a settings text makes, and which text is rejected.
    ghost setup: { Setup F };

    /// Returns the files of a store with these settings, or with the default ones if there is no text. No voter is
    /// stored in them.
    fn files(&self, rt: &R, alloc: Global, settings: &Option<String>) -> Result<F, NoFiles>
        ensures makes { IfOk result (setup.makes (option_map string_bytes settings.now)) }
        ensures empty { IfOk result (λ files. F.disk.leaves files (uncut fresh_world)) }
        ensures err { IfErr result (IsWithoutFiles setup (option_map string_bytes settings.now)) };
}
