//! Laws of copies.
ghost use Rattle.raft_log_directory_copies.specs.Laws.{CopiesHoldTheSame};

/// Gathering a directory and laying it out in another one gives that one the same files, with the same bytes.
pub fn copies_hold_the_same()
    ensures { CopiesHoldTheSame }
{}
