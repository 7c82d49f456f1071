//! Reads the terms of a group's entries in pieces.
ghost use Rattle.std.specs.Prelude.{◌+◌, ◌-◌, ◌<◌, ◌≤◌, ◌^◌, length, IfErr, IfOk, OnOk};
ghost use Rattle.raft_voter_durability_laws.specs.raft_log_engine_laws.specs.Fetching.{StaysButBlock};
ghost use Rattle.raft_voter_durability_laws.specs.raft_log_engine_laws.specs.raft_log_memtable.specs.Reads.{AreIn};
ghost use Rattle.raft_log_engine_core.specs.Reads.{shows_of};
ghost use Rattle.raft_voter_outline.specs.State.{last_index};
ghost use Rattle.raft_voter_recovery.specs.Reading.{IsUnreadFor};
ghost use Rattle.raft_voter_recovery.specs.Terms.{AddsTerms, AddsTold, AreNotTold};

use crate::Unread;
use crate::entry_head::{EntryHead, EntryHeads};
use raft_log_dual_pipes::PipeLog;
use raft_log_engine_core::LogEngine;
use raft_voter_outline::Outline;
use std::alloc::Global;

/// How many entries' terms are read at once, at most.
const PIECE_ENTRIES: u64 = 1024;

/// Appends the terms of a group's entries from one index on, all below another, to the outline of its voter. Returns
/// how many: at least one, and at most 1,024. The group must have these entries. The entries' own bytes aren't copied,
/// so a piece takes the same memory however long they are.
///
/// Fails as `read_outlines` does; then the outline may only be dropped.
pub fn read_terms_piece<P: PipeLog>(
    alloc: Global,
    engine: &mut LogEngine<P>,
    group: u64,
    from: u64,
    end: u64,
    outline: &mut Outline,
) -> Result<u64, Unread>
    requires some { from < end }
    requires placed { AreIn ((shows_of P.shown engine.old).tables group) from end }
    requires small { last_index outline.old.voter + (end - from) < 2 ^ 63 }
    ensures ok { IfOk result (λ count. AddsTerms (shows_of P.shown engine.old) group from end count
        outline.old.voter outline.new.voter) }
    ensures err { IfErr result (λ cause. IsUnreadFor cause (shows_of P.shown engine.old)) }
    ensures stays { StaysButBlock (shows_of P.shown engine.old) (shows_of P.shown engine.new) }
{
    let to = piece_end(from, end);
    let mut heads: Vec<EntryHead> = Vec::new(alloc);
    match engine.fetch_entries_to::<EntryHeads>(group, from, to, None, &mut heads) {
        Ok(_) => {
            push_terms(outline, group, from, heads.as_slice())?;
            Ok(heads.len() as u64)
        }
        Err(refusal) => Err(Unread::from_refusal(refusal)),
    }
}

/// The end of a piece of the entries from one index on, all below another.
fn piece_end(from: u64, end: u64) -> u64
    requires { from < end }
    ensures some { from < result }
    ensures within { result ≤ end }
    ensures short { result ≤ from + 1024 }
{
    if end - from <= PIECE_ENTRIES {
        return end;
    }
    from + PIECE_ENTRIES
}

/// Appends the terms in these heads to the outline of a voter. The first is the head of the entry at this index.
fn push_terms(
    outline: &mut Outline,
    group: u64,
    first: u64,
    heads: &[EntryHead],
) -> Result<(), Unread>
    requires { last_index outline.old.voter + length heads.now < 2 ^ 63 }
    ensures ok { OnOk result (AddsTold first heads.now outline.old.voter outline.new.voter) }
    ensures err { IfErr result (AreNotTold group first heads.now) }
{
    let mut index = first;
    for head in heads {
        let Some(term) = head.term_at(index) else {
            return Err(Unread::Foreign(group));
        };
        let Ok(()) = outline.push(term) else {
            return Err(Unread::Memory);
        };
        index += 1;
    }
    Ok(())
}
