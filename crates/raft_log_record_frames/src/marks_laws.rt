//! Laws of marks and of what items mean, each the contract of an empty function.
ghost use Rattle.raft_log_record_frames.specs.Marking.{MarksAreTold, UserItemsAreNoMarks};
ghost use Rattle.raft_log_record_frames.specs.Meaning.{ReadMeansWritten, UserBatchesArePlain, UserItemsKeepTheMark};

/// An item is read as a part of an atomic group if and only if it is that mark.
pub fn marks_are_told()
    ensures { MarksAreTold }
{}

/// The key of each mark is an internal one, which no user's item may have.
pub fn user_items_are_no_marks()
    ensures { UserItemsAreNoMarks }
{}

/// The items that are read of a written batch mean the same as the batch, if an entry means its length.
pub fn read_means_written()
    ensures { ReadMeansWritten }
{}

/// A batch of what users added is a plain one: it counts at once, each item for what it says.
pub fn user_batches_are_plain()
    ensures { UserBatchesArePlain }
{}

/// What a user adds to a batch doesn't change its mark.
pub fn user_items_keep_the_mark()
    ensures { UserItemsKeepTheMark }
{}
