//! Laws on the most bytes of a record, computed from the entries, keys and values in its batch. By them a caller knows,
//! before it adds to a batch, that nothing will fail with `Full`.
ghost use Rattle.raft_log_record_batches.specs.Laws.{
  AdditionsRaise,
  BoundedRecordsAreMade,
  EntriesThatFitAreNotFull,
  NoRecordIsLonger,
  WorkedRecords,
};

/// A record has at most 34 bytes, plus 32 for each item, ten for each entry, and the bytes of the entries, keys and
/// values.
pub fn no_record_is_longer()
    ensures { NoRecordIsLonger }
{}

/// An empty batch has the bound 34. An addition raises it by at most 32 bytes, plus ten for each entry, and the bytes
/// of the entries or of the key and value. Merging another batch adds that one's bound, less 34.
pub fn additions_raise()
    ensures { AdditionsRaise }
{}

/// If these entries keep a batch within the limit of 2,147,483,647 bytes of entries, adding them doesn't fail with
/// `Full`.
pub fn entries_that_fit_are_not_full()
    ensures { EntriesThatFitAreNotFull }
{}

/// If a batch's bound is below 2^56, its record is made unless memory runs out.
pub fn bounded_records_are_made()
    ensures { BoundedRecordsAreMade }
{}

/// The lengths and bounds of two example records.
pub fn worked_records()
    ensures { WorkedRecords }
{}
