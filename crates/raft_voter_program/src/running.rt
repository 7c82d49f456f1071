//! The program over a store on a log.
ghost use Rattle.std.specs.Prelude.{◌≡◌, false, true, IfOk, IfSome, OnErr};
ghost use Rattle.std.specs.Io.KnownBytes.{Appends};
ghost use Rattle.raft_voter_program.specs.Carrying.{CarriesOut, StopsEarly, usage_text};
ghost use Rattle.raft_voter_program.specs.Run.{Ends, EndsEarly, WritesSession};
ghost use Rattle.raft_voter_program.specs.Setup.{log_setup};
ghost use Rattle.raft_voter_program.specs.Writing.{StopsWithin};

use crate::arguments::{Arguments, USAGE};
use crate::loading::load;
use crate::over_store::{exit_status, program_over, run_over};
use crate::saving::save;
use crate::setup::LogSetup;
use crate::writing::write_whole;
use log::Log;
use raft_voter::RoundService;
use raft_voter_log::{LogFiles, LogVoters};
use raft_voter_world::{VoterDisk, VoterStorage};
use std::alloc::Global;
use std::env::Env;
use std::fs::File;
use std::io;
use std::io::{Eprint, Input, Print, Read, Write};
use std::rt::Files;
use std::thread::Threads;

/// The whole program over its runtime. Returns the status with which it ends.
/// - Without arguments it runs the session on standard input.
/// - With `--save` and a directory it also keeps its log there.
/// - With `--load` and a directory it lists the voters of the log there.
/// - `--help` prints the usage.
/// - It rejects others with status 2, and prints the usage to standard error.
pub fn start<
    R: Env
        + Input
        + Print
        + Eprint
        + Threads
        + Log
        + Sync
        + Files<File = File>
        + AllocGlobal
        + Clone
        + Drop,
>(rt: &R) -> u8 {
    exit_status(attempt(rt))
}

/// Does what the arguments request.
fn attempt<
    R: Env
        + Input
        + Print
        + Eprint
        + Threads
        + Log
        + Sync
        + Files<File = File>
        + AllocGlobal
        + Clone
        + Drop,
>(rt: &R) -> io::Result<u8> {
    let alloc = rt.alloc();
    let mut reader = rt.reader();
    let mut writer = io::writer(rt);
    let arguments = Arguments::read(rt)?;
    carry_out(rt, alloc, &arguments, &mut reader, &mut writer)
}

/// Does what the arguments request: runs a session, prints the usage, lists the voters of a log, or runs a session and
/// keeps its log. It rejects other arguments, and prints the usage to standard error.
///
/// Fails as `program`, `load` and `save` do, or if the writer fails. Then nothing was written, or a prefix of what may
/// be written, but not all.
pub fn carry_out<
    R: Eprint + Threads + Log + Sync + Files<File = File> + AllocGlobal + Clone + Drop,
    I: Read,
    W: Write,
>(rt: &R, alloc: Global, arguments: &Arguments, reader: &mut I, writer: &mut W) -> io::Result<u8>
    ensures ok { IfOk result (λ status. IfSome (I.remaining reader.old) (λ input.
        CarriesOut ⟦<LogVoters as RoundService<R>>⟧.service ⟦<LogVoters as VoterStorage<R>>⟧.upkeep
        ⟦<LogFiles as VoterDisk<R, LogVoters>>⟧.disk log_setup arguments.now input
        (W.contents writer.old) (W.contents writer.new) status)) }
    ensures err { OnErr result (IfSome (I.remaining reader.old) (λ input.
        StopsEarly ⟦<LogVoters as RoundService<R>>⟧.service ⟦<LogVoters as VoterStorage<R>>⟧.upkeep
        ⟦<LogFiles as VoterDisk<R, LogVoters>>⟧.disk log_setup arguments.now input
        (W.contents writer.old) (W.contents writer.new))) }
{
    match arguments {
        Arguments::Nothing => program(rt, false, alloc, reader, writer),
        Arguments::Help => print_usage(writer),
        Arguments::Load(directory) => load(rt, alloc, directory.as_str(), writer),
        Arguments::Save(directory) => save(rt, alloc, directory.as_str(), reader, writer),
        Arguments::Others => {
            let _told = rt.eprint(USAGE).is_ok();
            program(rt, true, alloc, reader, writer)
        }
    }
}

/// Writes the usage, with status 0. Fails if the writer fails; then a prefix of the usage was written, but not all.
fn print_usage<W: Write>(writer: &mut W) -> io::Result<u8>
    ensures ok { IfOk result (λ status.
        Appends (W.contents writer.old) (W.contents writer.new) usage_text × (status ≡ 0)) }
    ensures err { OnErr result (StopsWithin (W.contents writer.old) (W.contents writer.new) usage_text) }
{
    write_whole(writer, USAGE.as_bytes())?;
    Ok(0)
}

/// `program_over` with a store on a log: runs a session without arguments, and rejects arguments without reading
/// anything. Fails as `run` does.
pub fn program<R: Threads + Log + Sync, I: Read, W: Write>(
    rt: &R,
    has_arguments: bool,
    alloc: Global,
    reader: &mut I,
    writer: &mut W,
) -> io::Result<u8>
    ensures ok { IfOk result (λ status. IfSome (I.remaining reader.old) (λ input.
        Ends (WritesSession ⟦<LogVoters as RoundService<R>>⟧.service ⟦<LogVoters as VoterStorage<R>>⟧.upkeep
        ⟦<LogFiles as VoterDisk<R, LogVoters>>⟧.disk log_setup) has_arguments input
        (W.contents writer.old) (W.contents writer.new) status)) }
    ensures err { OnErr result (IfSome (I.remaining reader.old) (λ input.
        EndsEarly (WritesSession ⟦<LogVoters as RoundService<R>>⟧.service ⟦<LogVoters as VoterStorage<R>>⟧.upkeep
        ⟦<LogFiles as VoterDisk<R, LogVoters>>⟧.disk log_setup) has_arguments input
        (W.contents writer.old) (W.contents writer.new))) }
    ensures unread { has_arguments ≡ true → reader.new ≡ reader.old }
{
    program_over::<R, LogVoters, LogFiles, LogSetup, I, W>(
        rt,
        has_arguments,
        alloc,
        &LogSetup {},
        reader,
        writer,
    )
}

/// `run_over` with a store on a log: reads a session, runs its events, and writes the transcript with a verdict. Or it
/// writes that the settings are rejected, or which line is the first unreadable one.
///
/// Returns status 0 if the verdict is yes, 1 if it is no or the settings are rejected, and 2 for an unreadable line.
/// Fails if memory runs out, or if the reader or the writer fails. Then nothing was written, or a prefix of what may be
/// written, but not all.
pub fn run<R: Threads + Log + Sync, I: Read, W: Write>(
    rt: &R,
    alloc: Global,
    reader: &mut I,
    writer: &mut W,
) -> io::Result<u8>
    ensures ok { IfOk result (λ status. IfSome (I.remaining reader.old) (λ input.
        Ends (WritesSession ⟦<LogVoters as RoundService<R>>⟧.service ⟦<LogVoters as VoterStorage<R>>⟧.upkeep
        ⟦<LogFiles as VoterDisk<R, LogVoters>>⟧.disk log_setup) false input
        (W.contents writer.old) (W.contents writer.new) status)) }
    ensures err { OnErr result (IfSome (I.remaining reader.old) (λ input.
        EndsEarly (WritesSession ⟦<LogVoters as RoundService<R>>⟧.service ⟦<LogVoters as VoterStorage<R>>⟧.upkeep
        ⟦<LogFiles as VoterDisk<R, LogVoters>>⟧.disk log_setup) false input
        (W.contents writer.old) (W.contents writer.new))) }
{
    run_over::<R, LogVoters, LogFiles, LogSetup, I, W>(rt, alloc, &LogSetup {}, reader, writer)
}
