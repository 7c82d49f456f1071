//! Reads the outlines of all voters.
ghost use Rattle.std.specs.Prelude.{IfErr, IfOk, OnOk};
ghost use Rattle.raft_voter_durability_laws.specs.raft_log_engine_laws.specs.Fetching.{StaysButBlock};
ghost use Rattle.raft_log_engine_core.specs.Reads.{shows_of};
ghost use Rattle.raft_voter_outline.specs.Kept.{outlines_in};
ghost use Rattle.raft_voter_outline.specs.Pairs.{outlines_of};
ghost use Rattle.raft_voter_recovery.specs.Groups.{ReadsHead};
ghost use Rattle.raft_voter_recovery.specs.Listing.{AddsOutline, TellsOutline};
ghost use Rattle.raft_voter_recovery.specs.Reading.{IsUnreadFor, ReadsVoters};
ghost use Rattle.raft_voter_recovery.specs.Terms.{KnowsTerms};

use crate::Unread;
use crate::heads::{Head, read_head};
use crate::terms::read_terms_piece;
use raft_log_dual_pipes::PipeLog;
use raft_log_engine_core::LogEngine;
use raft_voter_outline::{Outline, Outlines};
use std::alloc::Global;

/// The outline of each group's voter, read from the log of an engine that was just opened. If nothing is pending, the
/// log's contents store voters, and these are their outlines.
///
/// It reads the index and term of each entry, in pieces of at most 1,024 entries. It needs memory for the list of
/// groups, a piece, a block of entries, and the outlines. There are at most two copies of the outlines, while they are
/// put into their tree.
///
/// Fails with:
/// - `Foreign` if this group's contents aren't a voter.
/// - `Engine` if the engine has failed, or failed to read a block of entries.
/// - `Memory`.
///
/// Whether it succeeds or fails, the engine is unchanged, except for the block that it read last.
pub fn read_outlines<P: PipeLog>(
    alloc: Global,
    engine: &mut LogEngine<P>,
) -> Result<Outlines, Unread>
    ensures ok { IfOk result (λ outlines.
        ReadsVoters (shows_of P.shown engine.old) (outlines_in outlines)) }
    ensures err { IfErr result (λ cause. IsUnreadFor cause (shows_of P.shown engine.old)) }
    ensures stays { StaysButBlock (shows_of P.shown engine.old) (shows_of P.shown engine.new) }
{
    let groups = match engine.raft_groups() {
        Ok(groups) => groups,
        Err(refusal) => return Err(Unread::from_refusal(refusal)),
    };
    let Ok(mut pairs) = Vec::with_capacity(alloc, groups.len()) else {
        return Err(Unread::Memory);
    };
    for group in groups.as_slice() {
        read_into(alloc, engine, *group, &mut pairs)?;
    }
    let Ok(outlines) = Outlines::from_pairs(alloc, pairs) else {
        return Err(Unread::Memory);
    };
    Ok(outlines)
}

/// Reads the outline of a group's voter and appends it to the others, if the group isn't empty.
fn read_into<P: PipeLog>(
    alloc: Global,
    engine: &mut LogEngine<P>,
    group: u64,
    pairs: &mut Vec<(u64, Outline)>,
) -> Result<(), Unread>
    ensures ok { OnOk result (AddsOutline (shows_of P.shown engine.old) group
        (outlines_of pairs.old.items) (outlines_of pairs.new.items)) }
    ensures err { IfErr result (λ cause. IsUnreadFor cause (shows_of P.shown engine.old)) }
    ensures stays { StaysButBlock (shows_of P.shown engine.old) (shows_of P.shown engine.new) }
{
    let Some(outline) = read_outline(alloc, engine, group)? else {
        return Ok(());
    };
    let Ok(()) = pairs.push((group, outline)) else {
        return Err(Unread::Memory);
    };
    Ok(())
}

/// Reads the outline of a group's voter, if the group isn't empty.
fn read_outline<P: PipeLog>(
    alloc: Global,
    engine: &mut LogEngine<P>,
    group: u64,
) -> Result<Option<Outline>, Unread>
    ensures ok { IfOk result (TellsOutline (shows_of P.shown engine.old) group) }
    ensures err { IfErr result (λ cause. IsUnreadFor cause (shows_of P.shown engine.old)) }
    ensures stays { StaysButBlock (shows_of P.shown engine.old) (shows_of P.shown engine.new) }
{
    let Some(head) = read_head(engine, group)? else {
        return Ok(None);
    };
    let outline = read_terms(alloc, engine, group, &head)?;
    Ok(Some(outline))
}

/// Reads the outline of a group's voter; `head` was read before.
fn read_terms<P: PipeLog>(
    alloc: Global,
    engine: &mut LogEngine<P>,
    group: u64,
    head: &Head,
) -> Result<Outline, Unread>
    requires { ReadsHead (shows_of P.shown engine.old) group head.now }
    ensures ok { IfOk result (λ outline. KnowsTerms (shows_of P.shown engine.old) group
        head.now.state head.now.end outline.voter) }
    ensures err { IfErr result (λ cause. IsUnreadFor cause (shows_of P.shown engine.old)) }
    ensures stays { StaysButBlock (shows_of P.shown engine.old) (shows_of P.shown engine.new) }
{
    let mut outline = Outline::at_base(alloc, &head.state);
    let mut next = head.state.base_index + 1;
    while next < head.end {
        let count = read_terms_piece(alloc, engine, group, next, head.end, &mut outline)?;
        next += count;
    }
    Ok(outline)
}
