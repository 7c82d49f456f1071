//! Opens the directories of settings, and the log in them.
ghost use Rattle.std.specs.Prelude.{◌≡◌, ℕ, List, None, Some, IfErr, IfOk, OnOk, option_map};
ghost use Rattle.raft_log_engine.specs.raft_log_file_settings.specs.Settings.{settings_of};
ghost use Rattle.raft_log_engine.specs.raft_log_engine_core.specs.Purging.{IsPurgedBy};
ghost use Rattle.raft_log_fs_traced.specs.Directory.{calls_of, disk_of};
ghost use Rattle.raft_log_fs_traced.specs.Space.{spaces_of};
ghost use Rattle.raft_log_fs_os.specs.Loading.{StandsAsFound, StartsFresh};
ghost use Rattle.raft_log_engine_os.specs.Opening.{FailsToOpenIn, IsOpenedAs, OpensIn, limited, with_limit};

use crate::fault::OpenFault;
use log::Log;
use raft_log_engine::{Config, Engine, EnginePipes, PipeLog, ReadableSize};
use raft_log_fs_os::{
    DirectoryFault, DirectoryFileSystem, FileDevice, make_directory, open_directories,
};
use raft_log_fs_traced::Device;
use std::alloc::AllocError;
use std::fs::File;
use std::rt::Files;
use std::thread::Threads;

/// An engine over real directories.
pub type DirectoryEngine<R> = Engine<DirectoryFileSystem<FileDevice<R>>>;

/// Opens the log of these settings in real directories: makes those that don't exist, opens them, sets their limits,
/// and opens the log there. The engine owns the file system, and so the locks of the directories.
///
/// If it fails, the directories are unlocked. `Directory` is a fault of `open_files`. `Log` is an error of
/// `Engine::open_with_file_system`.
pub fn open_engine<
    R: Files<File = File> + Threads + Log + Eprint + AllocGlobal + Clone + Sync + Drop,
>(rt: &R, config: Config) -> Result<DirectoryEngine<R>, OpenFault>
where
    R::Dir: Send + Sync,
    ensures ok { IfOk result (λ engine. OpensIn ⟦<FileDevice<R> as Device>⟧ config
        (⟦<EnginePipes<DirectoryFileSystem<FileDevice<R>>> as PipeLog>⟧.shown engine.pipes)
        engine.tables engine.counts) }
    ensures none { IfOk result (λ engine. engine.cache.place ≡ None) }
    ensures purges { IfOk result (λ engine. IsPurgedBy config engine.thresholds engine.counts.rounds) }
    ensures err { IfErr result (FailsToOpenIn ⟦<FileDevice<R> as Device>⟧ config) }
{
    let files = open_files(rt, &config)?;
    match Engine::open_with_file_system(rt, rt.alloc(), config, files) {
        Ok(engine) => Ok(engine),
        Err(refused) => Err(OpenFault::Log(refused.error)),
    }
}

/// The file system over the directories of these settings. Makes those that don't exist, opens them as
/// `open_directories` does, and sets their limits. Fails as `make_directory` and `open_directories` do, and with
/// `Memory` if there is no memory for a limit.
pub fn open_files<R: Files<File = File> + Threads + Eprint + AllocGlobal + Clone + Sync + Drop>(
    rt: &R,
    config: &Config,
) -> Result<DirectoryFileSystem<FileDevice<R>>, DirectoryFault>
    ensures { IfOk result (IsOpenedAs ⟦<FileDevice<R> as Device>⟧ config.now) }
{
    let mut files = open_made(rt, config)?;
    set_limits(&mut files, config)?;
    Ok(files)
}

/// The file system over the directories of these settings, without limits. Makes those that don't exist.
fn open_made<R: Files<File = File> + Threads + Eprint + AllocGlobal + Clone + Sync + Drop>(
    rt: &R,
    config: &Config,
) -> Result<DirectoryFileSystem<FileDevice<R>>, DirectoryFault>
    ensures fresh { IfOk result (λ files. StartsFresh (disk_of ⟦<FileDevice<R> as Device>⟧ files)) }
    ensures unset { IfOk result (λ files. (directory : List ℕ)
        → spaces_of ⟦<FileDevice<R> as Device>⟧ files directory ≡ None) }
    ensures found { IfOk result (λ files. StandsAsFound (calls_of ⟦<FileDevice<R> as Device>⟧ files)) }
{
    let directory = config.dir.as_str();
    make_directory(rt, directory)?;
    let Some(spill) = &config.spill_dir else {
        return open_directories(rt, directory, None);
    };
    make_directory(rt, spill.as_str())?;
    open_directories(rt, directory, Some(spill.as_str()))
}

/// Sets the limits of these settings, for directories that were opened by other calls than `open_files`. Fails only if
/// memory runs out.
pub fn set_limits<D: Device>(
    files: &mut DirectoryFileSystem<D>,
    config: &Config,
) -> Result<(), AllocError>
    ensures same { disk_of D.Device files.new ≡ disk_of D.Device files.old }
    ensures calls { calls_of D.Device files.new ≡ calls_of D.Device files.old }
    ensures ok { OnOk result (spaces_of D.Device files.new
        ≡ limited (settings_of config.now) (spaces_of D.Device files.old)) }
{
    set_limit(files, config.dir.as_str(), config.dir_limit)?;
    match &config.spill_dir {
        Some(spill) => set_limit(files, spill.as_str(), config.spill_dir_limit),
        None => Ok(()),
    }
}

/// Sets how many bytes the files of a directory may have in all, if there is a limit. Fails only if memory runs out.
fn set_limit<D: Device>(
    files: &mut DirectoryFileSystem<D>,
    directory: &str,
    limit: Option<ReadableSize>,
) -> Result<(), AllocError>
    ensures same { disk_of D.Device files.new ≡ disk_of D.Device files.old }
    ensures calls { calls_of D.Device files.new ≡ calls_of D.Device files.old }
    ensures ok { OnOk result (spaces_of D.Device files.new
        ≡ with_limit (Some directory.now) (option_map (λ size. size.0) limit) (spaces_of D.Device files.old)) }
{
    match limit {
        Some(size) => files.set_space(directory, size.0),
        None => Ok(()),
    }
}
