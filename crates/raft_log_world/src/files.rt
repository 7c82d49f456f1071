//! The trait of a log's files, and of an engine that has the log open.
ghost use Rattle.std.specs.Prelude.{IfErr, IfOk};
ghost use Rattle.std.specs.Thread.{IsSync};
ghost use Rattle.raft_log_world.specs.Logs.{Follows};

use crate::event::{Answer, Call, Event, Fault, Purge};
use crate::storage::Storage;
use std::alloc::{AllocError, Global};
use std::thread::Threads;

/// The files of a log while no engine has it open. An open makes an engine `S` of them, which writes batches `B`. A
/// crash leaves what `C` says. Each call ends as the model says, for each model log that the files or the engine
/// represent. Opens, copies and crashes have a premise (`Asks`): no CRC collision, and a clear target of a copy.
pub trait LogFiles<R, S, B, C>: Sized {
    ghost use Rattle.raft_log_world.specs.Logs.{LogOf};

    /// Which model log the files or an engine represent, what a batch changes, what "no CRC collision" means, and which
    /// targets are clear.
    ghost log: { LogOf S Self B C };

    /// Opens the log with this many workers, at least one, which may be threads of the runtime. If it fails, returns
    /// the files, and the log may be opened again.
    fn open<T: Threads + Sync>(self, rt: &T, alloc: Global, workers: u64) -> Result<S, Self>
        requires { IsSync T.row }
        ensures ok { IfOk result (λ engine.
            Follows log (Storage.Closed self) (Event.Open workers) Answer.Done (Storage.Open engine)) }
        ensures err { IfErr result (λ files.
            Follows log (Storage.Closed self) (Event.Open workers) Answer.Refused (Storage.Closed files)) };

    /// Writes a batch. With `sync`, then makes all batches durable. Returns how that ended.
    fn write(engine: &mut S, rt: &R, batch: B, sync: bool) -> Answer
        ensures { Follows log (Storage.Open engine.old) (Event.Serve (Call.Write batch sync)) result
            (Storage.Open engine.new) };

    /// Makes all batches durable. Returns how that ended.
    fn sync(engine: &mut S, rt: &R) -> Answer
        ensures { Follows log (Storage.Open engine.old) (Event.Serve Call.Sync) result
            (Storage.Open engine.new) };

    /// Reads the value of a group's key. Returns it, or how the read failed.
    fn get(engine: &mut S, group: u64, key: Vec<u8>) -> Answer
        ensures { Follows log (Storage.Open engine.old) (Event.Serve (Call.Get group key)) result
            (Storage.Open engine.new) };

    /// Reads the entry of a group at an index. Returns its bytes, or how the read failed.
    fn get_entry(engine: &mut S, group: u64, index: u64) -> Answer
        ensures { Follows log (Storage.Open engine.old) (Event.Serve (Call.GetEntry group index)) result
            (Storage.Open engine.new) };

    /// Reads the first index at which a group has an entry. Returns it, or none if the group has no entry. Only a
    /// failed engine fails it.
    fn first_index(engine: &mut S, group: u64) -> Answer
        ensures { Follows log (Storage.Open engine.old) (Event.Serve (Call.FirstIndex group)) result
            (Storage.Open engine.new) };

    /// Reads the last index at which a group has an entry. Returns it, or none if the group has no entry. Only a failed
    /// engine fails it.
    fn last_index(engine: &mut S, group: u64) -> Answer
        ensures { Follows log (Storage.Open engine.old) (Event.Serve (Call.LastIndex group)) result
            (Storage.Open engine.new) };

    /// Reads the entries of a group from an index on, below another one, up to a greatest size in bytes. Returns them,
    /// at least one if the group has all of the range, and none if it has none; or how the read failed.
    fn fetch(
        engine: &mut S,
        alloc: Global,
        group: u64,
        begin: u64,
        end: u64,
        max: Option<u64>,
    ) -> Answer
        ensures { Follows log (Storage.Open engine.old) (Event.Serve (Call.Fetch group begin end max)) result
            (Storage.Open engine.new) };

    /// Reads the keys of a group from one on, below another one, and their values. Returns them, or how the read
    /// failed.
    fn scan(
        engine: &mut S,
        alloc: Global,
        group: u64,
        start: Option<Vec<u8>>,
        end: Option<Vec<u8>>,
    ) -> Answer
        ensures { Follows log (Storage.Open engine.old) (Event.Serve (Call.Scan group start end)) result
            (Storage.Open engine.new) };

    /// Deletes the entries of a group below an index. Returns how that ended.
    fn compact(engine: &mut S, rt: &R, group: u64, index: u64) -> Answer
        ensures { Follows log (Storage.Open engine.old) (Event.Serve (Call.Compact group index)) result
            (Storage.Open engine.new) };

    /// Collects garbage. Returns how that ended.
    fn purge(engine: &mut S, rt: &R, kind: Purge) -> Answer
        ensures { Follows log (Storage.Open engine.old) (Event.Serve (Call.Purge kind)) result
            (Storage.Open engine.new) };

    /// Closes the log. Returns how that ended, and the files in any case.
    fn close(engine: S, rt: &R) -> (Answer, Self)
        ensures { Follows log (Storage.Open engine) Event.Close result.0 (Storage.Closed result.1) };

    /// Copies the files into a directory. Returns how that ended, and the copy if it succeeded, or else the files.
    fn fork(self, rt: &R, alloc: Global, target: String) -> (Answer, Self)
        ensures { Follows log (Storage.Closed self) (Event.Fork target) result.0 (Storage.Closed result.1) };

    /// Arms a fault of the files. Returns how that ended.
    fn arm(&mut self, fault: &Fault) -> Answer
        ensures { Follows log (Storage.Closed self.old) (Event.Arm fault.now) result (Storage.Closed self.new) };

    /// Arms a fault of the files below an engine. Returns how that ended.
    fn arm_under(engine: &mut S, fault: &Fault) -> Answer
        ensures { Follows log (Storage.Open engine.old) (Event.Arm fault.now) result (Storage.Open engine.new) };

    /// Returns what a crash of the machine leaves of the files. Fails only for lack of memory.
    fn crash(self, left: &C) -> Result<Self, AllocError>
        ensures { IfOk result (λ files.
            Follows log (Storage.Closed self) (Event.Crash left.now) Answer.Done (Storage.Closed files)) };

    /// Returns what a crash of the machine leaves of the files below an engine. Fails only for lack of memory.
    fn crash_under(engine: S, left: &C) -> Result<Self, AllocError>
        ensures { IfOk result (λ files.
            Follows log (Storage.Open engine) (Event.Crash left.now) Answer.Done (Storage.Closed files)) };
}
