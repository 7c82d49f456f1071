//! Which rounds write, decided by the outlines of voters that take what the rounds took.
ghost use Rattle.std.specs.Prelude.{◌≡◌, ◌&&◌, ◌∷◌, [], IfOk, nat_lt, not, OnOk};
ghost use Rattle.raft_voter.specs.Rounds.{fresh_world, is_among, taken_from};
ghost use Rattle.raft_voter_outline.specs.Decisions.{OutlineBecomes};
ghost use Rattle.raft_voter_outline.specs.Kept.{outlines_in};
ghost use Rattle.raft_voter_outline.specs.Outlines.{ChangesEach};
ghost use Rattle.raft_voter_outline.specs.State.{fresh};
ghost use Rattle.raft_voter_timeline.specs.Writes.{AreWrites, StepsOutlines, Takes, TakesIf};

use crate::rounds::{cuts_behind, taken_up_to};
use raft_voter_messages::{Memory, Request, Round};
use raft_voter_outline::{Change, Decision, Outline, Outlines};
use std::alloc::Global;

/// Returns for each round whether it wrote: whether a request that it took changed its group's voter. A store syncs
/// such a round before it replies. All voters count as fresh before the first round. Each round that was cut off uses
/// the next cut.
///
/// Fails with `Memory` if there is no room for the outlines or the result.
pub fn writes_of(alloc: Global, rounds: &[Round], cuts: &[usize]) -> Result<Vec<bool>, Memory>
    ensures { IfOk result (λ writes. AreWrites fresh_world rounds.now cuts.now writes.items) }
{
    let mut outlines = Outlines::new(alloc);
    let mut cuts = cuts;
    let mut writes = Vec::new(alloc);
    for round in rounds {
        let requests = round.requests.as_slice();
        let refused = round.refused.as_slice();
        let up_to = taken_up_to(round, cuts);
        writes.push(take_all(alloc, &mut outlines, requests, refused, up_to)?)?;
        cuts = cuts_behind(round, cuts);
    }
    Ok(writes)
}

/// The outlines take a round's requests up to this place, except the refused ones. Returns whether a voter changed.
fn take_all(
    alloc: Global,
    outlines: &mut Outlines,
    requests: &[(u64, Request)],
    refused: &[usize],
    up_to: usize,
) -> Result<bool, Memory>
    ensures { IfOk result (λ wrote. Takes (outlines_in outlines.old) (outlines_in outlines.new)
        (taken_from 0 up_to refused.now requests.now) wrote) }
{
    let mut wrote = false;
    for (place, (group, request)) in requests.iter().enumerate() {
        let taken = is_taken(place, up_to, refused);
        wrote = take_if(alloc, outlines, *group, request, taken, wrote)?;
    }
    Ok(wrote)
}

/// Whether a round took the request at a place: it is below the end of what was taken, and wasn't refused.
fn is_taken(place: usize, up_to: usize, refused: &[usize]) -> bool
    ensures { result ≡ (nat_lt place up_to && not (is_among refused.now place)) }
{
    place < up_to && !refused.contains(&place)
}

/// A group's outline takes a request, if its round took it. Returns whether this request or an earlier one of the round
/// (`wrote`) changed a voter.
fn take_if(
    alloc: Global,
    outlines: &mut Outlines,
    group: u64,
    request: &Request,
    taken: bool,
    wrote: bool,
) -> Result<bool, Memory>
    ensures { IfOk result (λ now. TakesIf (outlines_in outlines.old) (outlines_in outlines.new)
        (group, request.now) taken wrote now) }
{
    if !taken {
        return Ok(wrote);
    }
    if take(alloc, outlines, group, request)? {
        return Ok(true);
    }
    Ok(wrote)
}

/// A group's outline takes a request. Returns whether its voter changed.
fn take(
    alloc: Global,
    outlines: &mut Outlines,
    group: u64,
    request: &Request,
) -> Result<bool, Memory>
    ensures { IfOk result (λ wrote. Takes (outlines_in outlines.old) (outlines_in outlines.new)
        ((group, request.now) ∷ []) wrote) }
{
    let Decision {
        answer: _answer,
        change,
    } = outlines.decide(group, request);
    let Some(change) = change else {
        return Ok(false);
    };
    change_outline(alloc, outlines, group, &change, request)?;
    Ok(true)
}

/// Makes the change that was decided for a request, in the outline of its group, or in a fresh one that is then kept.
fn change_outline(
    alloc: Global,
    outlines: &mut Outlines,
    group: u64,
    change: &Change,
    request: &Request,
) -> Result<(), Memory>
    requires { ChangesEach (outlines_in outlines.old group) request.now change.now }
    ensures { OnOk result (StepsOutlines (outlines_in outlines.old) (outlines_in outlines.new) (group, request.now)) }
{
    match outlines.get_mut(group) {
        Some(outline) => make(outline, change, request),
        None => put_first(alloc, outlines, group, change, request),
    }
}

/// The same for a group without an outline.
fn put_first(
    alloc: Global,
    outlines: &mut Outlines,
    group: u64,
    change: &Change,
    request: &Request,
) -> Result<(), Memory>
    requires fresh { outlines_in outlines.old group ≡ fresh }
    requires decided { ChangesEach (outlines_in outlines.old group) request.now change.now }
    ensures { OnOk result (StepsOutlines (outlines_in outlines.old) (outlines_in outlines.new) (group, request.now)) }
{
    let mut outline = Outline::new(alloc);
    make(&mut outline, change, request)?;
    outlines.put(group, outline)
}

/// Makes room for a change in an outline, and then makes the change.
fn make(outline: &mut Outline, change: &Change, request: &Request) -> Result<(), Memory>
    requires { ChangesEach outline.old.voter request.now change.now }
    ensures { OnOk result (OutlineBecomes outline.old.voter request.now outline.new.voter) }
{
    outline.reserve(change, request)?;
    outline.apply(change, request);
    Ok(())
}
