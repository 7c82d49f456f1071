//! Zeros between records.
ghost use Rattle.std.specs.Prelude.{◌↔◌, IsTrue};
ghost use Rattle.raft_log_file_format.specs.Padding.{IsZeroPadded};

/// Whether bytes look like padding: there are none, or the first and the last one are 0.
pub fn is_zero_padded(bytes: &[u8]) -> bool
    ensures { IsTrue result ↔ IsZeroPadded bytes.now }
{
    match bytes {
        [] => true,
        [first, .., last] => *first == 0 && *last == 0,
        [only] => *only == 0,
    }
}
