//! Scans the keys of a group, in their order or backwards.

ghost use Rattle.std.specs.Fn.{CalledAtTwo};
ghost use Rattle.std.specs.Prelude.{◌≡◌, ◌↔◌, option_copied, IfErr, IfOk, IsTrue, OnOk};
ghost use Rattle.raft_log_record_base.specs.declared.errors.Error.TheVariants as errors;
ghost use Rattle.raft_log_purge.specs.raft_log_engine_laws.specs.Reading.{ReadsKeys};
ghost use Rattle.raft_log_engine_core.specs.ModelCalls.{ArePairsOf, FollowsModel, ModelReads, ScansInModel, ScansMessagesInModel};
ghost use Rattle.raft_log_engine_core.specs.Messages.{CalledAtKey, IsNoMessage, ScansMessages, VisitsMessages};
ghost use Rattle.raft_log_engine_core.specs.Reads.{shows_of, IsFailed, IsUncopied, Lives, ScansKeys};

use super::LogEngine;
use raft_log_dual_pipes::PipeLog;
use raft_log_record_base::{Error, Result};
use raft_log_record_items::{Bytes, Message};
use std::alloc::Global;

impl<P: PipeLog> LogEngine<P> {
    /// Calls back with each key of a group within the bounds and with its value, in the order of the keys' bytes or
    /// backwards. It ends after the first call that returns false. A key is within the bounds if it isn't below the
    /// start and is below the end, if they are given. The time grows with the number of keys within the bounds, also of
    /// those without a value. The callback must have no precondition.
    ///
    /// Fails with `Failed` if the engine has failed, and then calls nothing.
    pub fn scan_raw_messages<C: FnMut(&[u8], &[u8]) -> bool>(
        &self,
        raft_group_id: u64,
        start_key: Option<&[u8]>,
        end_key: Option<&[u8]>,
        reverse: bool,
        callback: C,
    ) -> Result<()>
        requires { C.IsAlwaysCallable callback }
        ensures model { FollowsModel (ModelReads (ScansInModel (CalledAtTwo C.FnMut) callback raft_group_id
            (option_copied start_key.entry) (option_copied end_key.entry) reverse))
            result (shows_of P.shown self.now) (shows_of P.shown self.now) }
        ensures ok { OnOk result (ScansKeys (CalledAtTwo C.FnMut) callback (shows_of P.shown self.now)
            raft_group_id (option_copied start_key.entry) (option_copied end_key.entry) reverse) }
        ensures lived { OnOk result (Lives (shows_of P.shown self.now)) }
        ensures err { IfErr result (IsFailed (shows_of P.shown self.now)) }
    {
        if self.is_failed() {
            return Err(Error::Failed);
        }
        match self.tables.known_table(raft_group_id) {
            Some(table) => {
                table.scan(start_key, end_key, reverse, callback);
                Ok(())
            }
            None => Ok(()),
        }
    }

    /// Calls back with each key of a group within the bounds, and with its value as a message. The keys are in the
    /// order of their bytes, or backwards. The scan ends after the first call that returns false. A key is within the
    /// bounds if it isn't below the start and is below the end, if they are given. A value that isn't a message is
    /// skipped. The keys and values within the bounds are copied first. The callback must have no precondition.
    ///
    /// Fails with `Failed` if the engine has failed, and then calls nothing. If it fails with `Memory`, it may have
    /// called back for some keys.
    pub fn scan_messages<S: Message, C: FnMut(&[u8], S) -> bool>(
        &self,
        raft_group_id: u64,
        start_key: Option<&[u8]>,
        end_key: Option<&[u8]>,
        reverse: bool,
        callback: C,
    ) -> Result<()>
        requires { C.IsAlwaysCallable callback }
        ensures model { FollowsModel (ModelReads (ScansMessagesInModel S.reading (CalledAtKey C.FnMut) callback
            raft_group_id (option_copied start_key.entry) (option_copied end_key.entry) reverse))
            result (shows_of P.shown self.now) (shows_of P.shown self.now) }
        ensures ok { OnOk result (ScansMessages S.reading (CalledAtKey C.FnMut) callback
            (shows_of P.shown self.now) raft_group_id
            (option_copied start_key.entry) (option_copied end_key.entry) reverse) }
        ensures lived { OnOk result (Lives (shows_of P.shown self.now)) }
        ensures err { IfErr result (IsUncopied (shows_of P.shown self.now)) }
    {
        let mut pairs = self.pairs_within(raft_group_id, start_key, end_key)?;
        if reverse {
            pairs.reverse();
        }
        visit(self.alloc, pairs.as_slice(), callback)
    }

    /// Returns copies of the keys of a group within the bounds, and of their values, in the order of the keys' bytes. A
    /// key is within the bounds if it isn't below the start and is below the end, if they are given. Fails with
    /// `Failed` if the engine has failed, or `Memory`.
    pub fn pairs_within(
        &self,
        raft_group_id: u64,
        start_key: Option<&[u8]>,
        end_key: Option<&[u8]>,
    ) -> Result<Vec<(Bytes, Bytes)>>
        ensures model { FollowsModel (ModelReads (ArePairsOf raft_group_id
            (option_copied start_key.entry) (option_copied end_key.entry)))
            result (shows_of P.shown self.now) (shows_of P.shown self.now) }
        ensures ok { IfOk result (λ pairs. ReadsKeys (shows_of P.shown self.now) raft_group_id
            (option_copied start_key.entry) (option_copied end_key.entry) pairs.items) }
        ensures lived { OnOk result (Lives (shows_of P.shown self.now)) }
        ensures err { IfErr result (IsUncopied (shows_of P.shown self.now)) }
    {
        if self.is_failed() {
            return Err(Error::Failed);
        }
        let mut pairs = Vec::new(self.alloc);
        match self.tables.known_table(raft_group_id) {
            Some(table) => match table.fetch_kvs_within(start_key, end_key, &mut pairs) {
                Ok(()) => Ok(pairs),
                Err(_) => Err(Error::Memory),
            },
            None => Ok(pairs),
        }
    }
}

/// Calls back with each key whose value is a message, and with that message, up to the first call that returns false.
/// Fails only with `Memory`.
fn visit<S: Message, C: FnMut(&[u8], S) -> bool>(
    alloc: Global,
    pairs: &[(Bytes, Bytes)],
    mut callback: C,
) -> Result<()>
    requires { C.IsAlwaysCallable callback }
    ensures ok { OnOk result (VisitsMessages S.reading (CalledAtKey C.FnMut) callback pairs.now) }
    ensures err { IfErr result (λ error. error ≡ errors.Memory) }
{
    let mut rest = pairs;
    while let Some((pair, later)) = rest.split_first() {
        if let Some(message) = message_of::<S>(alloc, pair.1.as_slice())? {
            if !callback(pair.0.as_slice(), message) {
                return Ok(());
            }
        }
        rest = later;
    }
    Ok(())
}

/// The message of these bytes, if they are one. Fails only with `Memory`.
fn message_of<S: Message>(alloc: Global, bytes: &[u8]) -> Result<Option<S>>
    ensures ok { IfOk result (λ message. S.reading bytes.now ≡ message) }
    ensures err { IfErr result (λ error. error ≡ errors.Memory) }
{
    match S::parse(alloc, bytes) {
        Ok(message) => Ok(Some(message)),
        Err(error) => {
            if is_no_message(&error) {
                return Ok(None);
            }
            Err(Error::Memory)
        }
    }
}

/// Whether the error says that bytes aren't a message.
fn is_no_message(error: &Error) -> bool
    ensures { IsTrue result ↔ IsNoMessage error.now }
{
    match error {
        Error::Message(_) => true,
        _ => false,
    }
}
