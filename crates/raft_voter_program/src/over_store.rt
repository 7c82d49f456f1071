//! Runs a session: from its bytes to those of its transcript.
ghost use Rattle.std.specs.Prelude.{◌≡◌, ◌≢◌, false, true, None, IfErr, IfOk, IfSome, OnErr, string_bytes, take};
ghost use Rattle.std.specs.IoError.{error_kind};
ghost use Rattle.raft_voter_session.specs.Told.{said};
ghost use Rattle.raft_voter_session.specs.Text.{unreadable_text};
ghost use Rattle.raft_voter_program.specs.Leaving.{EndsLeaving, MayWriteLeaving, WritesLeaving};
ghost use Rattle.raft_voter_program.specs.Run.{Ends, EndsEarly, IsJudged, IsUntoldFor, settings_refused, WritesSession};

use crate::store_setup::{NoFiles, StoreSetup};
use crate::writing::write_whole;
use raft_voter::{Memory, Transcript, judge};
use raft_voter_session::{Session, SessionFault, read_session, write_transcript, write_unreadable};
use raft_voter_world::{VoterDisk, VoterStorage, run_world};
use std::alloc::Global;
use std::env::{Env, FillError};
use std::io;
use std::io::{ErrorKind, Read, Write};
use std::thread::Threads;

/// The most bytes that are read: one more than a session may have, so that a session that is too long is recognized.
const MOST_READ_BYTES: u64 = 268_435_457;

/// The status if the verdict is no, or settings are rejected.
const REFUSED: u8 = 1;

/// The status if arguments are rejected.
const ARGUMENTS_REFUSED: u8 = 2;

/// The status if memory ran out, or reading or writing failed.
const FAULT: u8 = 3;

/// How a session ended.
#[derive(Drop)]
pub struct Ended<F> {
    /// The status for what was written.
    pub status: u8,
    /// The files that its run left, on which no store is open. There are files exactly if a verdict was written, not if
    /// settings are rejected or a line is unreadable.
    pub files: Option<F>,
}

/// The output for a session.
#[derive(Drop)]
struct Told<F> {
    /// The text.
    text: String,
    /// The status for it.
    status: u8,
    /// The files that its run left, if the text has a verdict.
    files: Option<F>,
}

/// Whether there is an argument after the program's name, even one that isn't text.
pub fn has_arguments(env: &impl Env) -> bool {
    !matches!(env.arg(1, &mut []), Err(FillError::NotPresent))
}

/// Returns the exit status of the program: the status of the session, or 3 if memory ran out or reading or writing
/// failed.
pub fn exit_status(ended: io::Result<u8>) -> u8
    ensures ok { IfOk ended (λ status. result ≡ status) }
    ensures err { OnErr ended (result ≡ 3) }
{
    match ended {
        Ok(status) => status,
        Err(_) => FAULT,
    }
}

/// The program: without arguments it runs a session as `run_over` does. With arguments it reads nothing, writes that
/// they are rejected, and returns status 2. Fails as `run_over` does.
pub fn program_over<
    R: Threads + Sync,
    S: VoterStorage<R> + Drop,
    F: VoterDisk<R, S> + Drop,
    C: StoreSetup<R, S, F>,
    I: Read,
    W: Write,
>(
    rt: &R,
    has_arguments: bool,
    alloc: Global,
    setup: &C,
    reader: &mut I,
    writer: &mut W,
) -> io::Result<u8>
    ensures ok { IfOk result (λ status. IfSome (I.remaining reader.old) (λ input.
        Ends (WritesSession S.service S.upkeep F.disk C.setup) has_arguments input
        (W.contents writer.old) (W.contents writer.new) status)) }
    ensures err { OnErr result (IfSome (I.remaining reader.old) (λ input.
        EndsEarly (WritesSession S.service S.upkeep F.disk C.setup) has_arguments input
        (W.contents writer.old) (W.contents writer.new))) }
    ensures retried { IfErr result (λ fault. error_kind fault ≢ ErrorKind.Interrupted) }
    ensures unread { has_arguments ≡ true → reader.new ≡ reader.old }
{
    if has_arguments {
        write_whole(writer, b"arguments refused\n")?;
        return Ok(ARGUMENTS_REFUSED);
    }
    run_over::<R, S, F, C, I, W>(rt, alloc, setup, reader, writer)
}

/// Reads a session, runs its events on a store with its settings, and writes the transcript with a verdict. If the
/// settings are rejected or a line is unreadable, writes that, with the number of the first unreadable line. The status
/// is
/// - 0 if the verdict is yes,
/// - 1 if it is no or the settings are rejected,
/// - 2 for an unreadable line.
///
/// Fails if memory runs out, or if the reader or the writer fails. Then nothing was written, or a prefix of what may be
/// written, but not all. The error isn't `Interrupted`. At most 268,435,457 bytes are read, one more than a session may
/// have.
pub fn run_over<
    R: Threads + Sync,
    S: VoterStorage<R> + Drop,
    F: VoterDisk<R, S> + Drop,
    C: StoreSetup<R, S, F>,
    I: Read,
    W: Write,
>(rt: &R, alloc: Global, setup: &C, reader: &mut I, writer: &mut W) -> io::Result<u8>
    ensures ok { IfOk result (λ status. IfSome (I.remaining reader.old) (λ input.
        Ends (WritesSession S.service S.upkeep F.disk C.setup) false input
        (W.contents writer.old) (W.contents writer.new) status)) }
    ensures err { OnErr result (IfSome (I.remaining reader.old) (λ input.
        EndsEarly (WritesSession S.service S.upkeep F.disk C.setup) false input
        (W.contents writer.old) (W.contents writer.new))) }
    ensures retried { IfErr result (λ fault. error_kind fault ≢ ErrorKind.Interrupted) }
{
    match run_leaving::<R, S, F, C, I, W>(rt, alloc, setup, reader, writer) {
        Ok(ended) => Ok(ended.status),
        Err(fault) => Err(fault),
    }
}

/// Runs a session as `run_over` does. Returns the status and, if a verdict was written, the files that its run left.
pub fn run_leaving<
    R: Threads + Sync,
    S: VoterStorage<R> + Drop,
    F: VoterDisk<R, S> + Drop,
    C: StoreSetup<R, S, F>,
    I: Read,
    W: Write,
>(rt: &R, alloc: Global, setup: &C, reader: &mut I, writer: &mut W) -> io::Result<Ended<F>>
    ensures ok { IfOk result (λ ended. IfSome (I.remaining reader.old) (λ input.
        EndsLeaving (WritesLeaving S.service S.upkeep F.disk C.setup) ended.files input
        (W.contents writer.old) (W.contents writer.new) ended.status)) }
    ensures err { OnErr result (IfSome (I.remaining reader.old) (λ input.
        EndsEarly (WritesSession S.service S.upkeep F.disk C.setup) false input
        (W.contents writer.old) (W.contents writer.new))) }
    ensures retried { IfErr result (λ fault. error_kind fault ≢ ErrorKind.Interrupted) }
{
    let front = read_front(alloc, reader)?;
    run_bytes_leaving::<R, S, F, C, W>(rt, alloc, setup, front.as_slice(), writer)
}

/// Runs the session of these bytes, and writes what `run_over` writes for it. Fails if memory runs out, or if the
/// writer fails. If memory ran out, nothing was written and the error has that kind. If the writer failed, it took a
/// prefix of what may be written.
pub fn run_bytes<
    R: Threads + Sync,
    S: VoterStorage<R> + Drop,
    F: VoterDisk<R, S> + Drop,
    C: StoreSetup<R, S, F>,
    W: Write,
>(rt: &R, alloc: Global, setup: &C, bytes: &[u8], writer: &mut W) -> io::Result<u8>
    ensures ok { IfOk result (λ status. Ends (WritesSession S.service S.upkeep F.disk C.setup) false bytes.now
        (W.contents writer.old) (W.contents writer.new) status) }
    ensures err { IfErr result (λ fault.
        IsUntoldFor (WritesSession S.service S.upkeep F.disk C.setup) bytes.now
        (W.contents writer.old) (W.contents writer.new) (error_kind fault)) }
    ensures retried { IfErr result (λ fault. error_kind fault ≢ ErrorKind.Interrupted) }
{
    match run_bytes_leaving::<R, S, F, C, W>(rt, alloc, setup, bytes, writer) {
        Ok(ended) => Ok(ended.status),
        Err(fault) => Err(fault),
    }
}

/// Runs the session of these bytes as `run_bytes` does. Returns the status and, if a verdict was written, the files
/// that its run left.
pub fn run_bytes_leaving<
    R: Threads + Sync,
    S: VoterStorage<R> + Drop,
    F: VoterDisk<R, S> + Drop,
    C: StoreSetup<R, S, F>,
    W: Write,
>(rt: &R, alloc: Global, setup: &C, bytes: &[u8], writer: &mut W) -> io::Result<Ended<F>>
    ensures ok { IfOk result (λ ended.
        EndsLeaving (WritesLeaving S.service S.upkeep F.disk C.setup) ended.files bytes.now
        (W.contents writer.old) (W.contents writer.new) ended.status) }
    ensures err { IfErr result (λ fault.
        IsUntoldFor (WritesSession S.service S.upkeep F.disk C.setup) bytes.now
        (W.contents writer.old) (W.contents writer.new) (error_kind fault)) }
    ensures retried { IfErr result (λ fault. error_kind fault ≢ ErrorKind.Interrupted) }
{
    let told = match answer::<R, S, F, C>(rt, alloc, setup, bytes) {
        Ok(told) => told,
        Err(Memory) => return Err(io::Error::from(ErrorKind::OutOfMemory)),
    };
    let Told {
        text,
        status,
        files,
    } = told;
    write_whole(writer, text.as_bytes())?;
    Ok(Ended { status, files })
}

/// Reads the bytes of a session; of one that is too long, only one more than a session may have.
fn read_front<I: Read>(alloc: Global, reader: &mut I) -> io::Result<Vec<u8>>
    ensures ok { IfOk result (λ front. IfSome (I.remaining reader.old) (λ input.
        front.items ≡ take 268435457 input)) }
    ensures retried { IfErr result (λ fault. error_kind fault ≢ ErrorKind.Interrupted) }
{
    let mut front = Vec::new(alloc);
    reader.take(MOST_READ_BYTES).read_to_end(&mut front)?;
    Ok(front)
}

/// Returns the output for a session's bytes.
fn answer<
    R: Threads + Sync,
    S: VoterStorage<R> + Drop,
    F: VoterDisk<R, S> + Drop,
    C: StoreSetup<R, S, F>,
>(rt: &R, alloc: Global, setup: &C, input: &[u8]) -> Result<Told<F>, Memory>
    ensures { IfOk result (λ told. MayWriteLeaving (WritesLeaving S.service S.upkeep F.disk C.setup) told.files
        input.now (string_bytes told.text) told.status) }
{
    match read_session(alloc, input) {
        Ok(session) => shown::<R, S, F, C>(rt, alloc, setup, session),
        Err(SessionFault::Unreadable(line)) => unreadable(alloc, line),
        Err(SessionFault::Memory) => Err(Memory),
    }
}

/// Returns the output for a session.
fn shown<
    R: Threads + Sync,
    S: VoterStorage<R> + Drop,
    F: VoterDisk<R, S> + Drop,
    C: StoreSetup<R, S, F>,
>(rt: &R, alloc: Global, setup: &C, session: Session) -> Result<Told<F>, Memory>
    ensures { IfOk result (λ told. WritesLeaving S.service S.upkeep F.disk C.setup told.files
        (said session) (string_bytes told.text) told.status) }
{
    let Session { settings, events } = session;
    let files = match setup.files(rt, alloc, &settings) {
        Ok(files) => files,
        Err(NoFiles::Settings) => return settings_refused(alloc),
        Err(NoFiles::Memory) => return Err(Memory),
    };
    let report = run_world::<R, S, F>(rt, alloc, files, events)?;
    let (text, status) = judged(alloc, &report.transcript, report.cuts.as_slice())?;
    Ok(Told {
        text,
        status,
        files: Some(report.files),
    })
}

/// Returns the text of a transcript and its cuts, with the judge's verdict, and the status for it: 0 for yes and 1 for
/// no.
fn judged(alloc: Global, transcript: &Transcript, cuts: &[usize]) -> Result<(String, u8), Memory>
    ensures { IfOk result (λ told. IsJudged transcript.now.rounds cuts.now (string_bytes told.0) told.1) }
{
    let verdict = judge(alloc, transcript, cuts)?;
    let mut text = String::new(alloc);
    write_transcript(&mut text, transcript, cuts, verdict)?;
    let status = if verdict { 0 } else { REFUSED };
    Ok((text, status))
}

/// Returns the output for settings that are rejected.
fn settings_refused<F>(alloc: Global) -> Result<Told<F>, Memory>
    ensures text { IfOk result (λ told. string_bytes told.text ≡ settings_refused) }
    ensures status { IfOk result (λ told. told.status ≡ 1) }
    ensures files { IfOk result (λ told. told.files ≡ None) }
{
    let text = String::from_str(alloc, "settings refused\n")?;
    Ok(Told {
        text,
        status: REFUSED,
        files: None,
    })
}

/// Returns the output for an unreadable line.
fn unreadable<F>(alloc: Global, line: usize) -> Result<Told<F>, Memory>
    ensures text { IfOk result (λ told. string_bytes told.text ≡ unreadable_text line) }
    ensures status { IfOk result (λ told. told.status ≡ 2) }
    ensures files { IfOk result (λ told. told.files ≡ None) }
{
    let mut text = String::new(alloc);
    write_unreadable(&mut text, line)?;
    Ok(Told {
        text,
        status: 2,
        files: None,
    })
}
