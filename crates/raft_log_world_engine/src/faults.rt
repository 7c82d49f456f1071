//! Faults, in the terms of the file system.

ghost use Rattle.std.specs.Prelude.{◌≡◌};
ghost use Rattle.raft_log_world_engine.specs.Faults.{fault_of, told_of};

use raft_log_engine::Fault as DiskFault;
use raft_log_world::{Answer, Fault};

/// The fault, as the file system has it.
pub fn fault_of(fault: &Fault) -> DiskFault
    ensures { result ≡ fault_of fault.now }
{
    match fault {
        Fault::Refuse { call, part } => DiskFault::RefuseInPart(*call, *part as usize),
        Fault::Stop { call, after } => {
            if *after {
                DiskFault::StopAfter(*call)
            } else {
                DiskFault::StopAt(*call)
            }
        }
    }
}

/// The answer of an arming, which succeeded or not.
pub fn told(done: bool) -> Answer
    ensures { result ≡ told_of done }
{
    if done { Answer::Done } else { Answer::Refused }
}
