//! Laws of names and headers.
ghost use Rattle.std.specs.Prelude.{ℕ};
ghost use Rattle.raft_log_record_base.specs.Grammar.{IsPrefixFree};
ghost use Rattle.raft_log_file_format.specs.Header.{IsFileHeader};
ghost use Rattle.raft_log_file_format.specs.Name.{OneQueueAName};

/// No name belongs to files of both queues.
pub fn no_name_is_in_two_queues()
    ensures { OneQueueAName }
{}

/// No header is a prefix of another one, whatever their versions, and no bytes are the header of two formats.
pub fn no_header_begins_another()
    ensures { IsPrefixFree IsFileHeader }
{}
