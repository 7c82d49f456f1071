//! Laws of chains of records in a file, for any encoding of records in which no encoding is a prefix of another.

ghost use Rattle.std.specs.Prelude.{ℕ, List};
ghost use Rattle.raft_log_file_writer.specs.LawsChains.{IsSelfDelimiting, ReadsOneWay, ReadsSome, AgreesUpToEnd};
ghost use Rattle.raft_log_file_writer.specs.KeepsSynced.{ChainKeepsSynced, DurableIsRead, ChainGoesOn, ChainAtRest, ChainGrows, UntouchedPartStays};
ghost use Rattle.raft_log_file_writer.specs.Shortening.{ShortenedIsKept};
ghost use Rattle.raft_log_file_writer.specs.CrashExamples.{TornRecordIsLost, ForeignRecordIsChance, ForeignRecordBehindIsRefused, RecycledFileMeetsIt, SyncedFileHasNoChance};

/// States which bytes encode which record.
pub trait Framing {
    /// The value of a record.
    type Record;

    ghost is_frame: { List ℕ → Self.Record → Type 0 };
}

/// Bytes are read in only one way.
pub fn one_reading<G: Framing>()
    ensures { IsSelfDelimiting G.is_frame → ReadsOneWay G.is_frame }
{}

/// If it is decidable whether a record begins, all bytes can be read.
pub fn some_reading<G: Framing>()
    ensures { IsSelfDelimiting G.is_frame → ReadsSome G.is_frame }
{}

/// If two files agree up to the end of a chain, and one begins with the chain, the other does too.
pub fn agreement<G: Framing>()
    ensures { AgreesUpToEnd G.is_frame }
{}

/// A file continues to hold its chain through writes, growths and truncations.
pub fn chain_goes_on<G: Framing>()
    ensures { ChainGoesOn G.is_frame }
{}

/// A recycled file holds the empty chain, and a file at rest holds what is read of it. A file whose chain was written
/// over stale bytes, and synced, holds that chain.
pub fn chain_at_rest<G: Framing>()
    ensures { IsSelfDelimiting G.is_frame → (start : ℕ) → ChainAtRest G.is_frame start }
{}

/// A record that is written at a chain's end is the next one of the chain, whatever an earlier use of the file left
/// there.
pub fn chain_grows<G: Framing>()
    ensures { IsSelfDelimiting G.is_frame → (start : ℕ) → ChainGrows G.is_frame start }
{}

/// A file that holds a chain keeps its synced records after any stop, if there is no CRC collision.
pub fn synced_records_are_kept<G: Framing>()
    ensures { ChainKeepsSynced G.is_frame }
{}

/// The durable records are read after any stop, without a premise on CRC collisions.
pub fn durable_records_are_read<G: Framing>()
    ensures { DurableIsRead G.is_frame }
{}

/// If a stop leaves only a prefix of an unsynced record, there is no CRC collision, and the record is lost.
pub fn torn_record_is_lost<G: Framing>()
    ensures { TornRecordIsLost G.is_frame }
{}

/// If a stop leaves another record than the one written, that is a CRC collision.
pub fn foreign_record_is_chance<G: Framing>()
    ensures { ForeignRecordIsChance G.is_frame }
{}

/// If another record that isn't stale is synced after a file's chain, the file doesn't hold the chain.
pub fn foreign_record_behind_is_refused<G: Framing>()
    ensures { ForeignRecordBehindIsRefused G.is_frame }
{}

/// A recycled file whose new records are synced meets the premise after any stop, if no record begins after them in its
/// stale bytes.
pub fn recycled_file_meets_the_premise<G: Framing>()
    ensures { RecycledFileMeetsIt G.is_frame }
{}

/// If all bytes of a file are synced, and it was empty when it got its number, no stop leaves a CRC collision.
pub fn synced_file_has_no_chance<G: Framing>()
    ensures { SyncedFileHasNoChance G.is_frame }
{}

/// A file that is truncated after some of its records, and synced, keeps them through both calls, whether they succeed
/// or fail.
pub fn shortened_file_is_kept<G: Framing>()
    ensures { ShortenedIsKept G.is_frame }
{}

/// Synced bytes that no change touches stay unchanged. For example, a header before the records stays.
pub fn untouched_part_stays()
    ensures { UntouchedPartStays }
{}
