//! The files of a queue are read by workers.

ghost use Rattle.std.specs.Prelude.{IfErr, IfOk};
ghost use Rattle.std.specs.Thread.{IsSync};
ghost use Rattle.raft_log_recovery.specs.Reading.{HasReadFiles, FilesAreUnread};

use raft_log_active_file::File;
use raft_log_fs::FileSystem;
use raft_log_record_base::Result;
use raft_log_recovery_read::{FileEnding, QueueSegments};
use raft_log_recovery_scan::RecoveryConfig;
use raft_log_replay::{
    Factory, ReadSegments, ReplayMachine, ReplayThreads, replay_segments_by,
    replay_segments_in_turn,
};
use std::alloc::Global;
use std::marker::Send;
use std::thread::{Threads, join};

/// Reads the files of a queue by workers, on `threads`. Each worker reads consecutive files. Joins what they have read,
/// in the order of the files. Changes nothing; the result says where files are to be truncated. Without a worker no
/// file is read.
///
/// Fails with `Memory`, or with the error of the first part of the files that isn't read or joined: `Io` if a read
/// fails, `Corruption` for damage that isn't tolerated and for a foreign record, or the machine's error.
pub fn recover_files<F: FileSystem + Sync, M: ReplayMachine + Send, FA: Factory<M>>(
    rt: &(impl Threads + Sync),
    alloc: Global,
    threads: ReplayThreads,
    file_system: &F,
    config: RecoveryConfig,
    files: &[File],
    factory: &FA,
) -> Result<ReadSegments<M, FileEnding>>
    ensures ok { IfOk result (λ done. HasReadFiles M.reads config files.now (F.disk file_system.now)
        done.machine done.endings.items) }
    ensures err { IfErr result (FilesAreUnread M.declines config files.now (F.disk file_system.now)) }
{
    let source = QueueSegments {
        alloc,
        file_system,
        queue: config.queue,
        mode: config.mode,
        read_block_size: config.read_block_size as usize,
        files,
    };
    let answer = replay_segments_by(rt, alloc, threads, &source, factory, config.concurrency);
    let QueueSegments {
        alloc: _alloc,
        file_system: _lent,
        queue: _queue,
        mode: _mode,
        read_block_size: _size,
        files: _files,
    } = source;
    answer
}

/// Reads the files of a queue as `recover_files` does, but one after the other on the caller's thread.
///
/// Fails as `recover_files` does.
pub(crate) fn recover_files_in_turn<F: FileSystem + Sync, M: ReplayMachine, FA: Factory<M>>(
    alloc: Global,
    file_system: &F,
    config: RecoveryConfig,
    files: &[File],
    factory: &FA,
) -> Result<ReadSegments<M, FileEnding>>
    ensures ok { IfOk result (λ done. HasReadFiles M.reads config files.now (F.disk file_system.now)
        done.machine done.endings.items) }
    ensures err { IfErr result (FilesAreUnread M.declines config files.now (F.disk file_system.now)) }
{
    let source = QueueSegments {
        alloc,
        file_system,
        queue: config.queue,
        mode: config.mode,
        read_block_size: config.read_block_size as usize,
        files,
    };
    let answer = replay_segments_in_turn(alloc, &source, factory, config.concurrency);
    let QueueSegments {
        alloc: _alloc,
        file_system: _lent,
        queue: _queue,
        mode: _mode,
        read_block_size: _size,
        files: _files,
    } = source;
    answer
}

/// Reads both queues at once, each by its own workers, as `recover_files` does. Neither queue waits for the other.
pub(crate) fn recover_both<
    R: Threads + Sync,
    F: FileSystem + Sync,
    M: ReplayMachine + Send,
    FA: Factory<M>,
>(
    rt: &R,
    alloc: Global,
    threads: ReplayThreads,
    file_system: &F,
    append: RecoveryConfig,
    append_files: &[File],
    rewrite: RecoveryConfig,
    rewrite_files: &[File],
    factory: &FA,
) -> (
    Result<ReadSegments<M, FileEnding>>,
    Result<ReadSegments<M, FileEnding>>,
)
    ensures append_ok { IfOk result.0 (λ done. HasReadFiles M.reads append append_files.now
        (F.disk file_system.now) done.machine done.endings.items) }
    ensures append_err { IfErr result.0
        (FilesAreUnread M.declines append append_files.now (F.disk file_system.now)) }
    ensures rewrite_ok { IfOk result.1 (λ done. HasReadFiles M.reads rewrite rewrite_files.now
        (F.disk file_system.now) done.machine done.endings.items) }
    ensures rewrite_err { IfErr result.1
        (FilesAreUnread M.declines rewrite rewrite_files.now (F.disk file_system.now)) }
{
    join(
        rt,
        || -> Result<ReadSegments<M, FileEnding>>
            requires { IsSync R.row × IsSync F.row }
            ensures ok { IfOk result (λ done. HasReadFiles M.reads append append_files.entry.now
                (F.disk file_system.entry.now) done.machine done.endings.items) }
            ensures err { IfErr result
                (FilesAreUnread M.declines append append_files.entry.now (F.disk file_system.entry.now)) }
        {
            recover_files(
                rt,
                alloc,
                threads,
                file_system,
                append,
                append_files,
                factory,
            )
        },
        || -> Result<ReadSegments<M, FileEnding>>
            requires { IsSync R.row × IsSync F.row }
            ensures ok { IfOk result (λ done. HasReadFiles M.reads rewrite rewrite_files.entry.now
                (F.disk file_system.entry.now) done.machine done.endings.items) }
            ensures err { IfErr result
                (FilesAreUnread M.declines rewrite rewrite_files.entry.now (F.disk file_system.entry.now)) }
        {
            recover_files(
                rt,
                alloc,
                threads,
                file_system,
                rewrite,
                rewrite_files,
                factory,
            )
        },
    )
}
