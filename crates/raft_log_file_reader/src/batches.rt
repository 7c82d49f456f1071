//! Reads the batches of log files, one file after another.
ghost use Rattle.std.specs.Prelude.{◌≡◌, ◌∷◌, [], Err, true, IfOk, IfErr};
ghost use Rattle.raft_log_fs.specs.Reading.{IsOpened};
ghost use Rattle.raft_log_fs.specs.declared.handle.Permission.TheVariants.{ReadOnly};
ghost use Rattle.raft_log_file_reader.specs.Answers.{IsReadOpenRefusal};

use crate::LogItemBatchFileReader;
use crate::log_file::LogFile;
use raft_log_fs::{FileSystem, Handle, Permission};
use raft_log_record_base::{Error, Result};
use raft_log_record_batches::LogItemBatch;
use std::alloc::Global;
use std::io::ErrorKind;
use std::vec::IntoIter;

/// A reader of the batches of log files, one file after another.
///
/// Each call must get the same file system, with unchanged files.
#[derive(Drop)]
pub(crate) struct BatchReader {
    /// The files that aren't opened yet.
    files: IntoIter<LogFile>,
    /// Reads the open file.
    reader: LogItemBatchFileReader,
}

impl BatchReader {
    ghost use Rattle.std.specs.Prelude.{◌+◌, ◌<◌, length, MatchOption, MatchBool, IfSome, OnErr};
    ghost use Rattle.raft_log_fs.specs.Disk.{Disk};
    ghost use Rattle.raft_log_file_reader.specs.Reader.{ReadsHonestly, HasNoneOpen};
    ghost use Rattle.raft_log_file_reader.specs.Answers.{given};
    ghost use Rattle.raft_log_file_reader.specs.ItemBatches.{GivesRest, AnswersGoOn, files_of, most_left};
    ghost use Rattle.raft_log_file_reader.specs.Steps.{ReadsOn, EndsOpen, FailsOpen, OpensNext, HasNoFileLeft, FailsNext};

    /// A reader of these files, with none open. `read_block_size` is as for `LogItemBatchFileReader`.
    pub fn new(alloc: Global, files: Vec<LogFile>, read_block_size: usize) -> Self
        ensures files { files_of result ≡ files.items }
        ensures closed { HasNoneOpen result.reader }
        ensures reading { (d : Disk) → ReadsHonestly d result.reader }
    {
        BatchReader {
            files: files.into_iter(),
            reader: LogItemBatchFileReader::new(alloc, read_block_size),
        }
    }

    /// The next batch of the files; `None` if they have no more. If a file fails, the next call continues with the next
    /// file.
    pub fn next<F: FileSystem>(
        &mut self,
        alloc: Global,
        file_system: &F,
    ) -> Result<Option<LogItemBatch>>
        requires { ReadsHonestly (F.disk file_system.now) self.old.reader }
        ensures reading { ReadsHonestly (F.disk file_system.now) self.new.reader }
        ensures ok { IfOk result (λ found. MatchOption found
            (GivesRest (F.disk file_system.now) self.old [] × GivesRest (F.disk file_system.now) self.new [])
            (λ batch. AnswersGoOn (GivesRest (F.disk file_system.now)) self.old (given batch.items) self.new)) }
        ensures err { IfErr result (λ error.
            AnswersGoOn (GivesRest (F.disk file_system.now)) self.old (Err error ∷ []) self.new) }
        ensures fewer { IfOk result (λ found. IfSome found (λ batch.
            length batch.items + most_left (F.disk file_system.now) self.new
            < most_left (F.disk file_system.now) self.old)) }
        ensures fewer_behind { OnErr result
            (most_left (F.disk file_system.now) self.new < most_left (F.disk file_system.now) self.old) }
    {
        loop {
            if let Some(batch) = self.read_on(alloc, file_system)? {
                return Ok(Some(batch));
            }
            if !self.open_next(alloc, file_system)? {
                return Ok(None);
            }
        }
    }

    /// The next batch of the open file. Closes the file if it has no more, or if it fails.
    fn read_on<F: FileSystem>(
        &mut self,
        alloc: Global,
        file_system: &F,
    ) -> Result<Option<LogItemBatch>>
        requires { ReadsHonestly (F.disk file_system.now) self.old.reader }
        ensures files { self.new.files ≡ self.old.files }
        ensures reading { ReadsHonestly (F.disk file_system.now) self.new.reader }
        ensures ok { IfOk result (λ found. MatchOption found
            (EndsOpen (F.disk file_system.now) self.old.reader self.new.reader)
            (λ batch. ReadsOn (F.disk file_system.now) batch.items self.old.reader self.new.reader)) }
        ensures err { IfErr result (λ error.
            FailsOpen (F.disk file_system.now) error self.old.reader self.new.reader) }
    {
        match self.reader.next(alloc, file_system) {
            Ok(Some(batch)) => Ok(Some(batch)),
            Ok(None) => {
                self.reader.reset();
                Ok(None)
            }
            Err(error) => {
                self.reader.reset();
                Err(error)
            }
        }
    }

    /// Opens the next file, and returns whether there was one. A file that fails is skipped.
    fn open_next<F: FileSystem>(&mut self, alloc: Global, file_system: &F) -> Result<bool>
        requires reading { ReadsHonestly (F.disk file_system.now) self.old.reader }
        requires closed { HasNoneOpen self.old.reader }
        ensures reading { ReadsHonestly (F.disk file_system.now) self.new.reader }
        ensures ok { IfOk result (λ there. MatchBool there
            (OpensNext (F.disk file_system.now) self.old self.new) (HasNoFileLeft self.old self.new)) }
        ensures err { IfErr result (λ error. FailsNext (F.disk file_system.now) error self.old self.new) }
    {
        let Some(file) = self.files.next() else {
            return Ok(false);
        };
        let handle = find(file_system, file.path.as_str())?;
        let _format = self.reader.open(alloc, file_system, file.id, handle)?;
        Ok(true)
    }
}

/// Opens the file at a path for reading. Fails with `Memory` if memory runs out, else with `Io`; after a stop only with
/// `Io`.
fn find<F: FileSystem>(file_system: &F, path: &str) -> Result<Handle>
    ensures ok { IfOk result (λ handle. IsOpened path.now ReadOnly handle (F.disk file_system.now)) }
    ensures err { IfErr result (λ error. IsReadOpenRefusal path.now (F.disk file_system.now) error) }
{
    match file_system.open(path, Permission::ReadOnly) {
        Ok(handle) => Ok(handle),
        Err(kind) if kind == ErrorKind::OutOfMemory => Err(Error::Memory),
        Err(kind) => Err(Error::Io(kind)),
    }
}
