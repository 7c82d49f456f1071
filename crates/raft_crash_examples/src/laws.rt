//! Laws on the files of a log, for users of the callers in this crate.

ghost use Rattle.raft_crash_examples.specs.Copies.{CopiesReadAlike};
ghost use Rattle.raft_crash_examples.specs.Crashing.{SavedValuesAreLoaded};
ghost use Rattle.raft_crash_examples.specs.Following.{LivesFollowTheModel};
ghost use Rattle.raft_crash_examples.specs.Keys.{LastChangeCounts};
ghost use Rattle.raft_crash_examples.specs.Reopening.{ForeignRecordsBehindACloseAreChance};

use raft_log_engine::FileSystem;
use raft_log_recovery_laws::closed::closed_files_meet_the_premise;
use raft_log_world_engine::laws::{
    copies_follow_the_model, crashes_follow_the_model, opens_follow_the_model,
};

/// Opens of a log's files, and crashes of an engine, follow the model log. A proper close leaves the log at rest. This
/// is all that the callers of this crate need to know about files.
pub fn lives_follow_the_model<F: FileSystem>()
    ensures { LivesFollowTheModel F.disk F.tells_space }
{
    opens_follow_the_model::<F, ()>();
    crashes_follow_the_model::<F, ()>();
    closed_files_meet_the_premise();
}

/// `save` saved a key's value over any file system in which no log was before: `load` reads that value from any crash
/// image of the log. This holds for any settings that name the same directories.
pub fn saved_values_are_loaded<F: FileSystem>()
    ensures { SavedValuesAreLoaded F.disk F.tells_space }
{
    lives_follow_the_model::<F>();
}

/// A log had any lives, each of which ended in a close or in a crash. Then a key reads the same from the log and from a
/// copy. This holds for any settings that name the log's directories, and any that name the copy's.
pub fn copies_read_alike<F: FileSystem, C>()
    ensures { CopiesReadAlike F.disk F.tells_space C }
{
    lives_follow_the_model::<F>();
    copies_follow_the_model::<F, ()>();
}

/// The last change of a key gives its value; a key that was deleted has none.
pub fn last_change_counts()
    ensures { LastChangeCounts }
{}

/// If a close leaves another record after all that was written, which no unsynced write passed to the file, there is a
/// CRC collision.
pub fn foreign_records_behind_a_close_are_chance()
    ensures { ForeignRecordsBehindACloseAreChance }
{}
