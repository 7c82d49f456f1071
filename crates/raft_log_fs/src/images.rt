//! Laws of crash images.

ghost use Rattle.raft_log_fs.specs.Laws.{StandsIsImage, SyncedIsOnlyImage, SyncedFileHasOneImage, ImageOfImage, ImageIsSound, AnyByteLeft, ImagesStay, NamedIsUsed, AbsentHoldsNoName};

/// A crash of a sound disk may leave each file with its present content.
pub fn stands_is_an_image()
    ensures { StandsIsImage }
{}

/// If all files of a sound disk are synced, a crash leaves each with its present content.
pub fn synced_files_have_one_image()
    ensures { SyncedIsOnlyImage }
{}

/// If all changes of a file on a sound disk are synced, a crash leaves its present content.
pub fn synced_file_has_one_image()
    ensures { SyncedFileHasOneImage }
{}

/// What a second crash leaves of what the first one left, the first one could have left.
pub fn image_of_an_image_is_an_image()
    ensures { ImageOfImage }
{}

/// What a crash leaves of a sound disk is sound.
pub fn image_of_a_sound_disk_is_sound()
    ensures { ImageIsSound }
{}

/// If a change isn't synced, a crash may leave any byte at each place that it touches: in a written range, or from the
/// size on to which a file was truncated.
pub fn any_byte_may_be_left()
    ensures { AnyByteLeft }
{}

/// What a crash may leave doesn't depend on marks of unreadable places, on counted failures or on a stop.
pub fn images_stay()
    ensures { ImagesStay }
{}

/// On a sound disk, a name leads to a number that was given before, so no name leads to a new file's number.
pub fn names_lead_to_used_numbers()
    ensures { NamedIsUsed }
{}

/// On a sound disk, no name is in a directory that doesn't exist.
pub fn absent_directories_hold_no_name()
    ensures { AbsentHoldsNoName }
{}
