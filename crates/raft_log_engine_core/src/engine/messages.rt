//! Values of keys, as messages.

ghost use Rattle.std.specs.Prelude.{IfErr, IfOk, OnOk};
ghost use Rattle.raft_log_engine_core.specs.ModelCalls.{FollowsModel, IsMessageIn, ModelReads};
ghost use Rattle.raft_log_engine_core.specs.Reads.{shows_of, Lives};
ghost use Rattle.raft_log_engine_core.specs.Whole.{IsMessageUntold, TellsMessage};

use super::LogEngine;
use raft_log_dual_pipes::PipeLog;
use raft_log_record_base::Result;
use raft_log_record_items::Message;

impl<P: PipeLog> LogEngine<P> {
    /// The value of a group's key as a message, if it has one. Fails with `Failed` if the engine has failed, `Message`
    /// if the value isn't a message, or `Memory`.
    pub fn get_message<S: Message>(&self, raft_group_id: u64, key: &[u8]) -> Result<Option<S>>
        ensures model { FollowsModel (ModelReads (IsMessageIn S.reading raft_group_id key.now)) result
            (shows_of P.shown self.now) (shows_of P.shown self.now) }
        ensures ok { IfOk result (TellsMessage S.reading (shows_of P.shown self.now) raft_group_id key.now) }
        ensures lived { OnOk result (Lives (shows_of P.shown self.now)) }
        ensures err { IfErr result (IsMessageUntold S.reading (shows_of P.shown self.now)
            raft_group_id key.now) }
    {
        let Some(value) = self.get(raft_group_id, key)? else {
            return Ok(None);
        };
        Ok(Some(S::parse(self.alloc, value.as_slice())?))
    }
}
