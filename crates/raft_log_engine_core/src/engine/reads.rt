//! Reads that need only an engine's tables.

ghost use Rattle.std.specs.Prelude.{◌≡◌, ◌↔◌, IsTrue, option_map, IfErr, IfOk, OnOk};
ghost use Rattle.raft_log_record_base.specs.declared.errors.Error.TheVariants as errors;
ghost use Rattle.raft_log_memtable_index.specs.Bridge.{bytes_held};
ghost use Rattle.raft_log_memtable.specs.Table.{shown};
ghost use Rattle.raft_log_memtables.specs.Tables.{counts};
ghost use Rattle.raft_log_memtables.specs.Walking.{ListsGroups};
ghost use Rattle.raft_log_purge.specs.raft_log_engine_laws.specs.Reading.{ReadsFirst, ReadsLast, ReadsValue};
ghost use Rattle.raft_log_engine_core.specs.ModelCalls.{FollowsModel, IsValueOf, ModelReads};
ghost use Rattle.raft_log_engine_core.specs.Reads.{shows_of, IsFailed, IsUncopied, Lives, NoneCounts};

use super::LogEngine;
use raft_log_dual_pipes::PipeLog;
use raft_log_memtable::MemTable;
use raft_log_record_base::{Error, Result};
use raft_log_record_items::Bytes;

impl<P: PipeLog> LogEngine<P> {
    /// The index of a group's first entry, if it has one. Fails with `Failed` if the engine has failed.
    pub fn first_index(&self, raft_group_id: u64) -> Result<Option<u64>>
        ensures ok { IfOk result (ReadsFirst (shows_of P.shown self.now) raft_group_id) }
        ensures lived { OnOk result (Lives (shows_of P.shown self.now)) }
        ensures err { IfErr result (IsFailed (shows_of P.shown self.now)) }
    {
        if self.is_failed() {
            return Err(Error::Failed);
        }
        match self.tables.known_table(raft_group_id) {
            Some(table) => Ok(table.first_index()),
            None => Ok(None),
        }
    }

    /// The index of a group's last entry, if it has one. Fails with `Failed` if the engine has failed.
    pub fn last_index(&self, raft_group_id: u64) -> Result<Option<u64>>
        ensures ok { IfOk result (ReadsLast (shows_of P.shown self.now) raft_group_id) }
        ensures lived { OnOk result (Lives (shows_of P.shown self.now)) }
        ensures err { IfErr result (IsFailed (shows_of P.shown self.now)) }
    {
        if self.is_failed() {
            return Err(Error::Failed);
        }
        match self.tables.known_table(raft_group_id) {
            Some(table) => Ok(table.last_index()),
            None => Ok(None),
        }
    }

    /// A copy of the value of a group's key, if it has one. Fails with `Failed` if the engine has failed, or `Memory`.
    pub fn get(&self, raft_group_id: u64, key: &[u8]) -> Result<Option<Vec<u8>>>
        ensures model { FollowsModel (ModelReads (IsValueOf raft_group_id key.now)) result
            (shows_of P.shown self.now) (shows_of P.shown self.now) }
        ensures ok { IfOk result (λ value. ReadsValue (shows_of P.shown self.now) raft_group_id key.now
            (option_map (λ bytes. bytes.items) value)) }
        ensures lived { OnOk result (Lives (shows_of P.shown self.now)) }
        ensures err { IfErr result (IsUncopied (shows_of P.shown self.now)) }
    {
        if self.is_failed() {
            return Err(Error::Failed);
        }
        match self.tables.known_table(raft_group_id) {
            Some(table) => self.copy_value(table, key),
            None => Ok(None),
        }
    }

    /// A copy of the value of a key in a table.
    fn copy_value(&self, table: &MemTable, key: &[u8]) -> Result<Option<Vec<u8>>>
        ensures ok { IfOk result (λ value. option_map (λ bytes. bytes.items) value
            ≡ bytes_held ((shown table.now).held key.now)) }
        ensures err { IfErr result (λ error. error ≡ errors.Memory) }
    {
        match table.get(key) {
            Some(value) => {
                let copy = Bytes::from_slice(self.alloc, value.bytes.as_slice())?;
                Ok(Some(copy.into_vec()))
            }
            None => Ok(None),
        }
    }

    /// The numbers of the groups that took something since they were last cleaned, in ascending order. Fails with
    /// `Failed` if the engine has failed, or `Memory`.
    pub fn raft_groups(&self) -> Result<Vec<u64>>
        ensures ok { IfOk result (λ groups. ListsGroups (counts self.now.tables) groups.items) }
        ensures lived { OnOk result (Lives (shows_of P.shown self.now)) }
        ensures err { IfErr result (IsUncopied (shows_of P.shown self.now)) }
    {
        if self.is_failed() {
            return Err(Error::Failed);
        }
        match self.tables.raft_groups() {
            Ok(groups) => Ok(groups),
            Err(_) => Err(Error::Memory),
        }
    }

    /// Whether no group took anything since it was last cleaned. Takes no memory. Fails with `Failed` if the engine has
    /// failed.
    pub fn is_empty(&self) -> Result<bool>
        ensures ok { IfOk result (λ empty. IsTrue empty ↔ NoneCounts (counts self.now.tables)) }
        ensures lived { OnOk result (Lives (shows_of P.shown self.now)) }
        ensures err { IfErr result (IsFailed (shows_of P.shown self.now)) }
    {
        if self.is_failed() {
            return Err(Error::Failed);
        }
        Ok(self.tables.is_empty())
    }
}
