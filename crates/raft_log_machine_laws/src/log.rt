//! What a log promises about the images that a crash may leave, however they are read.

ghost use Rattle.std.specs.Prelude.{◌≡◌, ℕ, ◌≤◌, List, [], length, take};
ghost use Rattle.raft_log_model_laws.specs.Groups.{taken, Map};
ghost use Rattle.raft_log_model_laws.specs.Item.{Record};
ghost use Rattle.raft_log_machine_laws.specs.Fresh.{nothing_stands};
ghost use Rattle.raft_log_machine_laws.specs.DirectoryImages.{
  IsOwnImage,
  Means,
  MeansNoMore,
  ReadsAsPartOf,
  ReadsNothing,
  ShowsNoMore,
};
ghost use Rattle.raft_log_machine_laws.specs.Log.{IsAt, IsLog, IsLogOf, View};

use crate::file_system::LogImages;
use crate::pipes::TiedFiles;

/// A file system is an empty log if no image that a crash may leave of it has a log.
pub fn no_files_are_the_log_of_nothing<D: LogImages>()
    ensures { (d : D) → ((image : D) → D.readings.leaves d image → ReadsNothing D.readings image)
        → IsLogOf D.readings d nothing_stands [] }
{}

/// A crash loses only pending batches. Each image means the map after a prefix of the pending batches, and means the
/// same from every start of the two queues.
pub fn crash_keeps_what_is_synced<D: LogImages>()
    ensures { (d : D) (m : Map D.Entry D.Value) (pending : List (Record D.Entry D.Value)) (image : D)
        → IsLogOf D.readings d m pending → D.readings.leaves d image
        → (k : ℕ) × (k ≤ length pending) × Means D.readings image (taken m (take k pending)) }
{}

/// An image is a log itself if it is its own image (`IsOwnImage`): then another crash adds nothing to read. Its map is
/// the one after a prefix of the pending batches, and nothing is pending.
pub fn image_is_a_log<D: LogImages>()
    ensures { (d : D) (m : Map D.Entry D.Value) (pending : List (Record D.Entry D.Value)) (image : D)
        → IsLogOf D.readings d m pending → D.readings.leaves d image → IsOwnImage D.readings image
        → (k : ℕ) × (k ≤ length pending) × IsLogOf D.readings image (taken m (take k pending)) [] }
{}

/// If the images of a file system `new` show no more than those of `old`, then `new` is the same log. Each image of
/// `new` means what some image of `old` means.
pub fn no_more_images_are_the_same_log<D: LogImages>()
    ensures log { (old new : D) (m : Map D.Entry D.Value) (pending : List (Record D.Entry D.Value))
        → ShowsNoMore D.readings old new
        → IsLogOf D.readings old m pending → IsLogOf D.readings new m pending }
    ensures means { (old new : D) → ShowsNoMore D.readings old new → MeansNoMore D.readings old new }
{}

/// If each image means what some image before meant, the promise made before still holds.
pub fn promise_is_kept_later<D: LogImages>()
    ensures { (old new : D) (m : Map D.Entry D.Value) (pending : List (Record D.Entry D.Value)) (image : D)
        → IsLogOf D.readings old m pending → MeansNoMore D.readings old new → D.readings.leaves new image
        → (k : ℕ) × (k ≤ length pending) × Means D.readings image (taken m (take k pending)) }
{}

/// A copy is the same log as its source, if what may be read of each of its images may be read of the source. The
/// source must be its own image (`IsOwnImage`).
pub fn fork_is_the_same_log<D: LogImages>()
    ensures { (source copy : D) (m : Map D.Entry D.Value) (pending : List (Record D.Entry D.Value))
        → IsOwnImage D.readings source
        → ((image : D) → D.readings.leaves copy image → ReadsAsPartOf D.readings image source)
        → IsLogOf D.readings source m pending → IsLogOf D.readings copy m pending }
{}

/// The files of a running engine are a log, with the same map and the same pending batches.
pub fn engine_is_a_log<P: TiedFiles>()
    ensures { (s : P) (v : View P.Entry P.Value) (m : Map P.Entry P.Value)
        (pending : List (Record P.Entry P.Value))
        → IsAt (P.ties s) v m pending → IsLog (P.allows s) m pending }
{}
