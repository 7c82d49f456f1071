//! Laws of records, each the contract of an empty function.
ghost use Rattle.raft_log_record_base.specs.Grammar.{IsReader};
ghost use Rattle.raft_log_record_frames.specs.Record.{IsSoundHeader, header_at};
ghost use Rattle.raft_log_record_frames.specs.Frames.{
  OneHeaderAtAPlace,
  OneFooterAtAPlace,
  OneBlockOfALength,
  OneFrameAtAPlace,
  OneRecordAtAPlace,
  RecordIsFrameAndBlock,
  FramesTakeBytes,
  BlockIsRead,
  FooterIsRead,
  PlacedFooterIsRead,
  FramesAreReadBack,
  RecordsAreReadBack,
  FrameIsRead,
  RecordIsRead,
  RecordIsTold,
  NoFrameInZeros,
};
ghost use Rattle.raft_log_record_frames.specs.Signatures.{SignatureSeparatesFiles};
ghost use Rattle.raft_log_record_frames.specs.Written.{WrittenIsRecord};

/// A footer that is signed for one file is valid in another signed file exactly if the files' numbers have the same low
/// 32 bits.
pub fn signature_separates_files()
    ensures { SignatureSeparatesFiles }
{}

/// At one place of a file there is at most one record. No header, footer, frame or record is the beginning of another
/// one, and none has two contents. A block has no end of its own, so there is at most one of each length.
pub fn one_record_at_a_place()
    ensures headers { OneHeaderAtAPlace }
    ensures footers { OneFooterAtAPlace }
    ensures blocks { OneBlockOfALength }
    ensures frames { OneFrameAtAPlace }
    ensures records { OneRecordAtAPlace }
{}

/// A record is a frame, which is a header and a footer that fit together, with an entry block that is read. A frame has
/// at least 21 bytes more than its block.
pub fn record_is_a_frame_with_a_block()
    ensures parts { RecordIsFrameAndBlock }
    ensures bytes { FramesTakeBytes }
{}

/// A header, an entry block or a footer is read if and only if it is there, and its content is what is read.
pub fn parts_are_read()
    ensures headers { IsReader header_at IsSoundHeader }
    ensures blocks { BlockIsRead }
    ensures footers { FooterIsRead }
    ensures placed { PlacedFooterIsRead }
{}

/// A frame or a record at the front of bytes is read back, whatever follows it.
pub fn records_are_read_back()
    ensures frames { FramesAreReadBack }
    ensures records { RecordsAreReadBack }
{}

/// What is written for items and their entries' bytes is a record of them. Both lengths must fit, and the entries'
/// lengths must add up to the bytes.
pub fn written_is_record()
    ensures { WrittenIsRecord }
{}

/// A frame or a record is at the front of any bytes if and only if it is read there. For any bytes it can be decided
/// whether one is there. None begins within zeros.
pub fn what_stands_at_the_front_is_told()
    ensures frames { FrameIsRead }
    ensures records { RecordIsRead }
    ensures told { RecordIsTold }
    ensures zeros { NoFrameInZeros }
{}
