//! Which changing calls fail, and at which one the file system stops.
ghost use Rattle.std.specs.Prelude.{◌≡◌, ◌-◌, ◌↔◌, IsTrue, map};
ghost use Rattle.std.specs.List.{Contains};
ghost use Rattle.raft_log_fs_memory.specs.Turns.{nearer, nearer_parts, part_later, front_of};

use super::MemoryFileSystem;
use raft_log_fs::{Fault, Handle, Permission, told_at_stop};
use raft_log_fs_state::Node;
use std::alloc::AllocError;
use std::io::ErrorKind;

impl MemoryFileSystem {
    ghost use Rattle.std.specs.Prelude.{◌≡◌, ◌↔◌, true, false, None, OnOk, OnErr, IfErr, IfOk, IfSome, IsTrue, MatchResult};
    ghost use Rattle.raft_log_fs.specs.Arguments.{IsAfterStop};
    ghost use Rattle.raft_log_fs_memory.specs.Memory.{disk_of, failed_once, unsynced, IsToldOnce};
    ghost use Rattle.raft_log_fs_memory.specs.Turns.{armed, armed_with, call_later, IsSpared, PartFalls, StopsAfter, ArmedRefusalFell, IsCallEnded, IsChangeEnded};
    ghost use Rattle.raft_log_fs_memory.specs.Answers.{HasRefused, HasFallen, RunsWithDirectory, LacksDirectory, RunsWithFile, LacksFile, RunsWithWriter, LacksWriter};

    /// Makes the n-th changing call from now fail with `Other`; it changes nothing. Calls with a wrong argument don't
    /// count. Failures that are already armed stay. 0 arms none. Fails only if memory runs out.
    pub fn refuse_call(&mut self, n: u64) -> Result<(), AllocError>
        ensures same { disk_of self.new ≡ disk_of self.old }
        ensures order { unsynced self.new ≡ unsynced self.old }
        ensures ok { OnOk result (armed self.new ≡ armed_with (Fault.Refuse n) (armed self.old)) }
        ensures err { OnErr result (armed self.new ≡ armed self.old) }
    {
        if n != 0 {
            self.refusals.push(n)?;
        }
        Ok(())
    }

    /// Makes the n-th changing call from now fail in part: a write writes its first `count` bytes, or all if it has
    /// fewer, and they aren't synced. Any other call changes nothing. The error is `Other`; if the write lacks room,
    /// the kind for that.
    ///
    /// Failures that are already armed stay. If several fall at one call, a stop comes first, then `refuse_call`, then
    /// the one that was armed first. 0 arms none. Fails only if memory runs out.
    pub fn refuse_in_part(&mut self, n: u64, count: usize) -> Result<(), AllocError>
        ensures same { disk_of self.new ≡ disk_of self.old }
        ensures order { unsynced self.new ≡ unsynced self.old }
        ensures ok { OnOk result
            (armed self.new ≡ armed_with (Fault.RefuseInPart n count) (armed self.old)) }
        ensures err { OnErr result (armed self.new ≡ armed self.old) }
    {
        if n != 0 {
            self.parts.push((n, count))?;
        }
        Ok(())
    }

    /// Makes the file system stop at the n-th changing call from now, replacing an armed stop. That call fails. A
    /// write, a truncation or an allocation there is made, but not synced, unless there is no room for it. Any other
    /// call isn't made. 0 changes nothing.
    pub fn stop_at(&mut self, n: u64)
        ensures same { disk_of self.new ≡ disk_of self.old }
        ensures order { unsynced self.new ≡ unsynced self.old }
        ensures armed { armed self.new ≡ armed_with (Fault.StopAt n) (armed self.old) }
    {
        if n != 0 {
            self.stop = n;
            self.after = false;
        }
    }

    /// Makes the file system stop after the n-th changing call from now, replacing an armed stop. That call fails, and
    /// is made unless there is no room for it. 0 changes nothing.
    pub fn stop_after(&mut self, n: u64)
        ensures same { disk_of self.new ≡ disk_of self.old }
        ensures order { unsynced self.new ≡ unsynced self.old }
        ensures armed { armed self.new ≡ armed_with (Fault.StopAfter n) (armed self.old) }
    {
        if n != 0 {
            self.stop = n;
            self.after = true;
        }
    }

    // Counts a write, and fails if an armed failure falls at it. Returns whether the file system stops at this call,
    // and, if the write fails in part, how many of its first bytes are written.
    pub(super) fn begin_write(&mut self) -> Result<(bool, Option<usize>), ErrorKind>
        ensures storage { self.new.storage ≡ self.old.storage }
        ensures next { armed self.new ≡ call_later (armed self.old) }
        ensures ok { OnOk result (disk_of self.new ≡ disk_of self.old) }
        ensures stops { IfOk result (λ turn. IsTrue turn.0 ↔ ((armed self.old).stop ≡ 1)) }
        ensures front { IfOk result (λ turn. IfSome turn.1 (λ count. PartFalls count (armed self.old))) }
        ensures spared { IfOk result (λ turn. turn.0 ≡ false → turn.1 ≡ None → IsSpared (armed self.old)) }
        ensures err { IfErr result (λ error. ArmedRefusalFell error self.old self.new) }
    {
        let stops = stop_falls(&mut self.stop);
        let refused = refusal_falls(&mut self.refusals);
        let front = part_falls(&mut self.parts);
        if stops {
            return Ok((true, None));
        }
        if refused {
            return Err(self.fail(ErrorKind::Other));
        }
        Ok((false, front))
    }

    // Ends a write that fails in part. Returns the error of writing its first bytes, if that failed.
    pub(super) fn fail_in_part(&mut self, done: Result<(), ErrorKind>) -> ErrorKind
        ensures storage { self.new.storage ≡ self.old.storage }
        ensures failed { disk_of self.new ≡ failed_once result (disk_of self.old) }
        ensures same { armed self.new ≡ armed self.old }
        ensures kind { MatchResult done (λ v. result ≡ ErrorKind.Other)
            (λ kind. IsToldOnce kind result (disk_of self.old)) }
    {
        match done {
            Ok(()) => self.fail(ErrorKind::Other),
            Err(kind) => self.fail(kind),
        }
    }

    // Counts a changing call that isn't a write, and fails if an armed failure falls at it. Returns whether the file
    // system stops at this call.
    pub(super) fn begin_change(&mut self) -> Result<bool, ErrorKind>
        ensures storage { self.new.storage ≡ self.old.storage }
        ensures next { armed self.new ≡ call_later (armed self.old) }
        ensures ok { OnOk result (disk_of self.new ≡ disk_of self.old) }
        ensures stops { IfOk result (λ stops. IsTrue stops ↔ ((armed self.old).stop ≡ 1)) }
        ensures spared { IfOk result (λ stops. stops ≡ false → IsSpared (armed self.old)) }
        ensures err { IfErr result (λ error. HasRefused error self.old self.new) }
    {
        let (stops, front) = self.begin_write()?;
        match front {
            Some(_) => Err(self.fail(ErrorKind::Other)),
            None => Ok(stops),
        }
    }

    // Counts a call that is done whole or not at all, and fails if an armed failure or a stop before it falls at it.
    // Returns whether the file system stops after this call.
    pub(super) fn begin(&mut self) -> Result<bool, ErrorKind>
        ensures storage { self.new.storage ≡ self.old.storage }
        ensures next { armed self.new ≡ call_later (armed self.old) }
        ensures ok { OnOk result (disk_of self.new ≡ disk_of self.old) }
        ensures stops { IfOk result (λ stops. stops ≡ true → StopsAfter (armed self.old)) }
        ensures spared { IfOk result (λ stops. stops ≡ false → IsSpared (armed self.old)) }
        ensures err { IfErr result (λ error. HasFallen error self.old self.new) }
    {
        let stops = self.begin_change()?;
        if stops && !self.after {
            self.stopped = true;
            return Err(ErrorKind::Other);
        }
        Ok(stops)
    }

    // Ends a call that is done whole or not at all, and that fails only if memory ran out.
    pub(super) fn end(&mut self, stops: bool, done: Result<(), AllocError>) -> Result<(), ErrorKind>
        ensures storage { self.new.storage ≡ self.old.storage }
        ensures same { armed self.new ≡ armed self.old }
        ensures ok { OnOk result ((stops ≡ false) × OnErr done ⊥ × (disk_of self.new ≡ disk_of self.old)) }
        ensures err { IfErr result (λ error.
            IsCallEnded stops done error (disk_of self.old) (disk_of self.new)) }
    {
        match done {
            Ok(()) => self.end_change(stops, Ok(())),
            Err(_) => self.end_change(stops, Err(ErrorKind::OutOfMemory)),
        }
    }

    // Ends a change, which was made or wasn't. At a stop the error is that of the change if it wasn't made, but
    // `ResourceBusy` if memory ran out.
    pub(super) fn end_change(
        &mut self,
        stops: bool,
        done: Result<(), ErrorKind>,
    ) -> Result<(), ErrorKind>
        ensures storage { self.new.storage ≡ self.old.storage }
        ensures same { armed self.new ≡ armed self.old }
        ensures ok { OnOk result ((stops ≡ false) × OnErr done ⊥ × (disk_of self.new ≡ disk_of self.old)) }
        ensures err { IfErr result (λ error.
            IsChangeEnded stops done error (disk_of self.old) (disk_of self.new)) }
    {
        if stops {
            self.stopped = true;
            return match done {
                Ok(()) => Err(ErrorKind::Other),
                Err(kind) => Err(told_at_stop(kind)),
            };
        }
        match done {
            Ok(()) => Ok(()),
            Err(kind) => Err(self.fail(kind)),
        }
    }

    // Counts a failure, and notes the kind that it is reported as. The failure that would make the count 2^64 - 1 stops
    // the file system instead: none is noted, and the error isn't out of memory.
    pub(super) fn fail(&mut self, kind: ErrorKind) -> ErrorKind
        ensures storage { self.new.storage ≡ self.old.storage }
        ensures failed { disk_of self.new ≡ failed_once kind (disk_of self.old) }
        ensures same { armed self.new ≡ armed self.old }
        ensures kind { IsToldOnce kind result (disk_of self.old) }
        ensures other { kind ≡ ErrorKind.Other → result ≡ ErrorKind.Other }
    {
        if self.failures < u64::MAX - 1 {
            self.failures += 1;
            self.kinds.note(&kind);
            kind
        } else {
            self.stopped = true;
            told_at_stop(kind)
        }
    }

    // Fails if the file system has stopped.
    pub(super) fn check_runs(&self) -> Result<(), ErrorKind>
        ensures ok { OnOk result ((disk_of self.now).stopped ≡ false) }
        ensures err { IfErr result (IsAfterStop (disk_of self.now)) }
    {
        if self.stopped {
            Err(ErrorKind::Other)
        } else {
            Ok(())
        }
    }

    // Fails if the file system has stopped, or if a path isn't a directory's.
    pub(super) fn check_directory(&self, path: &str) -> Result<(), ErrorKind>
        ensures ok { OnOk result (RunsWithDirectory path.now (disk_of self.now)) }
        ensures err { IfErr result (LacksDirectory path.now (disk_of self.now)) }
    {
        self.check_runs()?;
        match self.storage.node(path) {
            Some(Node::Directory) => Ok(()),
            Some(Node::File(_)) => Err(ErrorKind::InvalidInput),
            None => Err(ErrorKind::NotFound),
        }
    }

    // Fails if the file system has stopped, or if a handle's file was deleted.
    pub(super) fn check_handle(&self, handle: Handle) -> Result<(), ErrorKind>
        ensures ok { OnOk result (RunsWithFile handle (disk_of self.now)) }
        ensures err { IfErr result (LacksFile handle (disk_of self.now)) }
    {
        self.check_runs()?;
        if self.storage.has(handle.file) {
            Ok(())
        } else {
            Err(ErrorKind::NotFound)
        }
    }

    // Fails as `check_handle` does, or if a handle may only read.
    pub(super) fn check_writer(&self, handle: Handle) -> Result<(), ErrorKind>
        ensures ok { OnOk result (RunsWithWriter handle (disk_of self.now)) }
        ensures err { IfErr result (LacksWriter handle (disk_of self.now)) }
    {
        self.check_handle(handle)?;
        match handle.permission {
            Permission::ReadWrite => Ok(()),
            Permission::ReadOnly => Err(ErrorKind::PermissionDenied),
        }
    }
}

// Counts a call, and returns whether the stop falls at it.
fn stop_falls(stop: &mut u64) -> bool
    ensures later { stop.new ≡ stop.old - 1 }
    ensures falls { IsTrue result ↔ (stop.old ≡ 1) }
{
    if *stop == 0 {
        return false;
    }
    *stop -= 1;
    *stop == 0
}

// Counts a call, and returns whether a failure falls at it.
fn refusal_falls(refusals: &mut Vec<u64>) -> bool
    ensures later { refusals.new.items ≡ nearer refusals.old.items }
    ensures falls { IsTrue result ↔ Contains refusals.old.items 1 }
{
    let falls = refusals.contains(&1);
    refusals.retain(|n| 1 < *n);
    count_down(refusals);
    falls
}

// Counts a call. If a partial failure falls at it, returns how many of its first bytes a write writes.
fn part_falls(parts: &mut Vec<(u64, usize)>) -> Option<usize>
    ensures later { parts.new.items ≡ nearer_parts parts.old.items }
    ensures falls { result ≡ front_of parts.old.items }
{
    let front = next_front(parts);
    parts.retain(|part| 1 < part.0);
    count_down_parts(parts);
    front
}

// If a partial failure falls at the next call, how many of its first bytes a write writes.
fn next_front(parts: &[(u64, usize)]) -> Option<usize>
    ensures { result ≡ front_of parts.now }
{
    for part in parts {
        if part.0 == 1 {
            return Some(part.1);
        }
    }
    None
}

// Subtracts one from each number.
fn count_down(refusals: &mut [u64])
    ensures { refusals.new ≡ map (λ n. n - 1) refusals.old }
{
    for n in refusals.iter_mut() {
        *n = n.saturating_sub(1);
    }
}

// Subtracts one from the number of calls of each partial failure.
fn count_down_parts(parts: &mut [(u64, usize)])
    ensures { parts.new ≡ map part_later parts.old }
{
    for part in parts.iter_mut() {
        part.0 = part.0.saturating_sub(1);
    }
}
