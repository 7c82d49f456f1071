//! Laws of the files of the log's own two queues.

ghost use Rattle.raft_log_active_file.specs.LayoutLaws.{LogFilesAreTold, PlacesAreFresh, QueuesAreApart, ReservedNamesAreTheLogs, ZerosHoldNoRecord};

/// It is decidable whether bytes begin with a header of a log file, or with a record of one.
pub fn log_files_are_told()
    ensures { LogFilesAreTold }
{}

/// The two queues have no path in common, whatever their directories are.
pub fn queues_are_apart()
    ensures { QueuesAreApart }
{}

/// Zeros contain no record, so a file may be prefilled with them.
pub fn zeros_hold_no_record()
    ensures { ZerosHoldNoRecord }
{}

/// The names of files that Append keeps for recycling have the suffix that `parse_reserved_file_name` expects.
pub fn reserved_names_are_the_logs()
    ensures { ReservedNamesAreTheLogs }
{}

/// A queue may begin if its directories exist, and no file and no directory is at the path of a number.
pub fn places_are_fresh()
    ensures { PlacesAreFresh }
{}
