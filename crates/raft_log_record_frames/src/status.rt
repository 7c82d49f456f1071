//! Which part of an atomic group a batch is. A mark has the number as its last byte.
ghost use Rattle.std.specs.Prelude.{◌≡◌};
ghost use Rattle.raft_log_record_frames.specs.Marking.{status_of};

/// Which part of an atomic group a batch is. A mark has the number as its last byte.
#[derive(Clone, Copy, Debug, PartialEq, Eq)]
pub enum AtomicGroupStatus {
    Begin = 0,
    Middle = 1,
    End = 2,
}

/// The status of this byte, if there is one.
pub(crate) fn status_of(byte: u8) -> Option<AtomicGroupStatus>
    ensures { result ≡ status_of byte }
{
    match byte {
        0 => Some(AtomicGroupStatus::Begin),
        1 => Some(AtomicGroupStatus::Middle),
        2 => Some(AtomicGroupStatus::End),
        _ => None,
    }
}
