//! Commands: changes of a whole group.
ghost use Rattle.std.specs.Prelude.{◌≡◌, ◌++◌, IsOk, OnOk, OnErr};
ghost use Rattle.raft_log_record_base.specs.Fault.{ReadsOrMemory, DecodesOrMemory};
ghost use Rattle.raft_log_record_items.specs.Items.{IsCommand};
ghost use Rattle.raft_log_record_items.specs.Reading.{command_of_at, command_at};
ghost use Rattle.raft_log_record_items.specs.Writing.{command_bytes, KeepsFront};

use raft_log_record_base::codec::{
    BytesSlice, append_var_u64, decode_var_u64, or_cut_back, read_u8,
};
use raft_log_record_base::{Error, Result};
use std::alloc::{AllocError, Global};

/// The first byte of a `Clean`.
const COMMAND_CLEAN: u8 = 1;

/// The first byte of a `Compact`.
const COMMAND_COMPACT: u8 = 2;

/// A change of a whole group.
#[derive(Clone, Copy, Debug, PartialEq, Eq)]
pub enum Command {
    /// Deletes all entries and keys of the group.
    Clean,
    /// Deletes all entries below the index.
    Compact { index: u64 },
}

impl Command {
    /// Reads a command. Fails with `Codec` if the bytes end early or the index doesn't fit 64 bits. Fails with
    /// `Corruption` for an unknown kind, which the text names. Only that text takes memory. If it fails, it consumes
    /// nothing.
    pub fn decode(alloc: Global, source: &mut BytesSlice<'_>) -> Result<Command>
        ensures decodes { DecodesOrMemory IsCommand result source.old.now source.new.now }
        ensures exact { ReadsOrMemory result source.old.now source.new.now (command_at source.old.now) }
        ensures sure { IsOk (command_at source.old.now) → IsOk result }
    {
        split_command(alloc, source)
    }

    /// Appends the command, each number in its shortest spelling. If it fails, the buffer's bytes are unchanged.
    pub fn encode(&self, out: &mut Vec<u8>) -> Result<(), AllocError>
        ensures ok { OnOk result (out.new.items ≡ out.old.items ++ command_bytes self.now) }
        ensures err { OnErr result (out.new.items ≡ out.old.items) }
        ensures spelled { OnOk result (IsCommand (command_bytes self.now) self.now) }
    {
        let start = out.len();
        or_cut_back(append_command(out, *self), out, start)
    }
}

/// Reads a command.
#[tactic(auto, unfolding(crate::specs::Reading::command_at))]
fn split_command(alloc: Global, source: &mut BytesSlice<'_>) -> Result<Command>
    ensures exact { ReadsOrMemory result source.old.now source.new.now (command_at source.old.now) }
    ensures sure { IsOk (command_at source.old.now) → IsOk result }
{
    let mut rest: &[u8] = *source;
    let kind = read_u8(&mut rest)?;
    let command = split_command_of(alloc, &mut rest, kind)?;
    *source = rest;
    Ok(command)
}

/// Reads the command of this kind.
#[tactic(auto, unfolding(crate::specs::Reading::command_of_at))]
fn split_command_of(alloc: Global, source: &mut BytesSlice<'_>, kind: u8) -> Result<Command>
    ensures exact { ReadsOrMemory result source.old.now source.new.now (command_of_at kind source.old.now) }
    ensures sure { IsOk (command_of_at kind source.old.now) → IsOk result }
{
    if kind == COMMAND_CLEAN {
        return Ok(Command::Clean);
    }
    if kind == COMMAND_COMPACT {
        let index = decode_var_u64(source)?;
        return Ok(Command::Compact { index });
    }
    Err(Error::Corruption(format!(in alloc; "Unrecognized command type: {kind}")?))
}

/// Appends a command.
#[tactic(auto, unfolding(crate::specs::Writing::command_bytes))]
fn append_command(out: &mut Vec<u8>, command: Command) -> Result<(), AllocError>
    ensures ok { OnOk result (out.new.items ≡ out.old.items ++ command_bytes command) }
    ensures err { OnErr result (KeepsFront out.old.items out.new.items) }
    ensures spelled { OnOk result (IsCommand (command_bytes command) command) }
{
    match command {
        Command::Clean => out.push(COMMAND_CLEAN)?,
        Command::Compact { index } => {
            out.push(COMMAND_COMPACT)?;
            append_var_u64(out, index)?;
        }
    }
    Ok(())
}
