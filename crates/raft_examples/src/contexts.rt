//! A caller of `raft_log_replay_context`: makes the tables of a log whose queues were read.

ghost use Rattle.std.specs.Prelude.{IfErr, IfOk, List, ◌≡◌};
ghost use Rattle.raft_log_record_base.specs.declared.errors.Error.TheVariants.{Memory};
ghost use Rattle.raft_log_record_base.specs.declared.pipe_log.LogQueue.TheVariants.{Append, Rewrite};
ghost use Rattle.raft_log_replay_context.specs.Context.{ComesOver, HasRead};
ghost use Rattle.raft_log_replay_context.specs.Records.{ReadRecord};
ghost use Rattle.raft_log_memtables.specs.Tables.{IsAtRest};

use raft_log_memtables::MemTables;
use raft_log_record_base::Result;
use raft_log_replay_context::MemTableRecoverContext;

/// The tables of all groups, after Append was read into one context and Rewrite into another.
pub fn tables_of_log(
    append: MemTableRecoverContext,
    rewrite: MemTableRecoverContext,
) -> Result<MemTables>
    ensures ok { IfOk result (λ tables. (of_append of_rewrite : List ReadRecord)
        → HasRead Append of_append append → HasRead Rewrite of_rewrite rewrite
        → ComesOver of_rewrite of_append tables) }
    ensures rest { IfOk result IsAtRest }
    ensures errors { IfErr result (λ error. error ≡ Memory) }
{
    let mut whole = rewrite;
    whole.merge_append_context(append)?;
    Ok(whole.finish())
}
