//! Reads what comes before a group's entries.
ghost use Rattle.std.specs.Prelude.{IfErr, IfOk};
ghost use Rattle.raft_log_engine_core.specs.Reads.{shows_of};
ghost use Rattle.raft_voter_recovery.specs.Groups.{ForeignPairs, PairsTell, ReadsEnd, ReadsKey, ReadsSpan, ReadsState, TellsHead};
ghost use Rattle.raft_voter_recovery.specs.Reading.{IsUnreadFor};

use crate::Unread;
use raft_log_dual_pipes::PipeLog;
use raft_log_engine_core::LogEngine;
use raft_log_record_items::Bytes;
use raft_voter_messages::{MAX_NUMBER, VoterState, read_state};

/// The one key of a group that has a voter.
const VOTER_KEY: [u8; 5] = *b"voter";

/// What is read of a group before its entries.
#[derive(Clone, Copy)]
pub struct Head {
    /// The voter's state, without its entries.
    pub state: VoterState,
    /// The index after the last entry, or after the base.
    pub end: u64,
}

/// Reads what comes before a group's entries; `None` if the group is empty. Fails as `read_outlines` does.
pub fn read_head<P: PipeLog>(engine: &LogEngine<P>, group: u64) -> Result<Option<Head>, Unread>
    ensures ok { IfOk result (TellsHead (shows_of P.shown engine.now) group) }
    ensures err { IfErr result (λ cause. IsUnreadFor cause (shows_of P.shown engine.now)) }
{
    let Some(state) = read_key(engine, group)? else {
        return read_no_entry(engine, group);
    };
    let end = read_end(engine, group, &state)?;
    Ok(Some(Head { state, end }))
}

/// The state under a group's one key, if it has a key.
fn read_key<P: PipeLog>(engine: &LogEngine<P>, group: u64) -> Result<Option<VoterState>, Unread>
    ensures ok { IfOk result (ReadsKey (shows_of P.shown engine.now) group) }
    ensures err { IfErr result (λ cause. IsUnreadFor cause (shows_of P.shown engine.now)) }
{
    match engine.pairs_within(group, None, None) {
        Ok(pairs) => state_in(group, pairs.as_slice()),
        Err(refusal) => Err(Unread::from_refusal(refusal)),
    }
}

/// The state in a group's keys and values, if there are any: in the value of the one key.
fn state_in(group: u64, pairs: &[(Bytes, Bytes)]) -> Result<Option<VoterState>, Unread>
    ensures ok { IfOk result (λ state. PairsTell state pairs.now) }
    ensures err { IfErr result (ForeignPairs group pairs.now) }
{
    match pairs {
        [] => Ok(None),
        [(key, value)] => {
            if key.as_slice() != VOTER_KEY.as_slice() {
                return Err(Unread::Foreign(group));
            }
            match read_state(value.as_slice()) {
                Ok(state) => Ok(Some(state)),
                Err(_) => Err(Unread::Foreign(group)),
            }
        }
        _ => Err(Unread::Foreign(group)),
    }
}

/// Checks that a group without a key has no entry either.
fn read_no_entry<P: PipeLog>(engine: &LogEngine<P>, group: u64) -> Result<Option<Head>, Unread>
    requires { ReadsKey (shows_of P.shown engine.now) group None }
    ensures ok { IfOk result (TellsHead (shows_of P.shown engine.now) group) }
    ensures err { IfErr result (λ cause. IsUnreadFor cause (shows_of P.shown engine.now)) }
{
    match read_span(engine, group)? {
        None => Ok(None),
        Some(_) => Err(Unread::Foreign(group)),
    }
}

/// The index after the last entry of a group with this state, or after its base.
fn read_end<P: PipeLog>(
    engine: &LogEngine<P>,
    group: u64,
    state: &VoterState,
) -> Result<u64, Unread>
    requires { ReadsState (shows_of P.shown engine.now) group state.now }
    ensures ok { IfOk result (ReadsEnd (shows_of P.shown engine.now) group state.now.base_index) }
    ensures err { IfErr result (λ cause. IsUnreadFor cause (shows_of P.shown engine.now)) }
{
    let Some((first, last)) = read_span(engine, group)? else {
        return Ok(state.base_index + 1);
    };
    if first != state.base_index + 1 {
        return Err(Unread::Foreign(group));
    }
    if last > MAX_NUMBER {
        return Err(Unread::Foreign(group));
    }
    Ok(last + 1)
}

/// The first index of a group and the last one, if it has entries.
fn read_span<P: PipeLog>(engine: &LogEngine<P>, group: u64) -> Result<Option<(u64, u64)>, Unread>
    ensures ok { IfOk result (ReadsSpan (shows_of P.shown engine.now) group) }
    ensures err { IfErr result (λ cause. IsUnreadFor cause (shows_of P.shown engine.now)) }
{
    match engine.first_index(group) {
        Ok(Some(first)) => match engine.last_index(group) {
            Ok(Some(last)) => Ok(Some((first, last))),
            Ok(None) => unreachable!(),
            Err(refusal) => Err(Unread::from_refusal(refusal)),
        },
        Ok(None) => Ok(None),
        Err(refusal) => Err(Unread::from_refusal(refusal)),
    }
}
