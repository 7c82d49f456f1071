//! Faults and crashes of a world, in the terms of the file system.
ghost use Rattle.std.specs.Prelude.{◌≡◌};
ghost use Rattle.raft_voter_log.specs.Faults.{fault_of, remainder_of};

use raft_log_engine::{Fault as DiskFault, Remainder};
use raft_voter_world::{Fault, Left};

/// The same fault in the file system's terms.
pub fn fault_of(fault: &Fault) -> DiskFault
    ensures { result ≡ fault_of fault.now }
{
    match fault {
        Fault::Stop { calls } => DiskFault::StopAt(*calls),
        Fault::Refuse { calls } => DiskFault::Refuse(*calls),
    }
}

/// What a crash leaves, in the file system's terms.
pub fn remainder_of(left: &Left) -> Remainder
    ensures { result ≡ remainder_of left.now }
{
    match left {
        Left::Last => Remainder::LastSync,
        Left::All => Remainder::AllWritten,
        Left::First { pieces, bytes } => Remainder::First {
            pieces: *pieces as usize,
            bytes: *bytes as usize,
        },
    }
}
