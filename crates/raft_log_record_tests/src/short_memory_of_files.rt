//! Names, headers and settings if memory runs out: each call fails with `Memory`, and succeeds when it is made again.
//! Run it with each allocation failing in turn.
use raft_log_file_format::{FileNameExt, LogFileFormat, build_reserved_file_name};
use raft_log_file_settings::Config;
use raft_log_record_base::{Error, FileId, LogQueue, Result, Version};
use std::alloc::Global;

/// Appends a header of the second version, reads it again, and returns how many bytes it has.
fn header_len(alloc: Global) -> Result<usize> {
    let mut out = Vec::new(alloc);
    let format = LogFileFormat::new(Version::V2, 4096);
    format.encode(alloc, &mut out)?;
    let mut source: &[u8] = out.as_slice();
    LogFileFormat::decode(alloc, &mut source)?;
    Ok(out.len())
}

/// Prints settings, reads them again, and returns how many workers they name.
fn workers(alloc: Global) -> Result<usize> {
    let text = Config::default(alloc).to_toml(alloc)?;
    Ok(Config::from_toml(alloc, text.as_str())?.recovery_threads)
}

/// What a call returns: the length of a name, of a path, of a reserved file's name or of a header, or a number of
/// workers.
fn call(alloc: Global, number: usize) -> Result<usize> {
    let id = FileId::new(LogQueue::Append, 123);
    match number {
        0 => Ok(id.build_file_name(alloc)?.len()),
        1 => Ok(id.build_file_path(alloc, "d")?.len()),
        2 => Ok(build_reserved_file_name(alloc, 123)?.len()),
        3 => header_len(alloc),
        _ => workers(alloc),
    }
}

/// What the calls return.
const ANSWERS: [usize; 5] = [24, 26, 33, 69, 4];

#[test]
fn a_call_without_memory_succeeds_later(rt: HostRuntime) {
    for (number, want) in ANSWERS.iter().enumerate() {
        let answer = match call(rt.alloc(), number) {
            Err(Error::Memory) => call(rt.alloc(), number),
            answer => answer,
        };
        assert!(rt; answer.ok() == Some(*want), "call {number}");
    }
}
