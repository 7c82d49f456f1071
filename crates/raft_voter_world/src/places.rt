//! Finds how far a round that was cut off was taken, by the voters after it.
ghost use Rattle.std.specs.Prelude.{◌≡◌, ℕ, true, false, ◌⊎◌, IfOk, IfErr, OnOk};
ghost use Rattle.std.specs.BTreeSet.{contains};
ghost use Rattle.std.specs.Ordering.{nat_cmp};
ghost use Rattle.raft_voter.specs.Voters.{is_listed, world_of};
ghost use Rattle.raft_voter_world.specs.Places.{IsPlaceFound};
ghost use Rattle.raft_voter_world.specs.Differing.{Leave, Marks};

use raft_voter::{Memory, Request, Voters};
use std::alloc::Global;
use std::collections::BTreeSet;

/// Returns the least place up to which taking the round leads from `voters` to those shown, or `None` if no place fits.
/// `voters` take the round up to there, or all of it. Each request is taken once, and only its own group is compared
/// after it.
pub fn find_place(
    alloc: Global,
    voters: &mut Voters,
    shown: &Voters,
    requests: &[(u64, Request)],
    refused: &[usize],
) -> Result<Option<usize>, Memory>
    ensures { IfOk result (IsPlaceFound
        (record { before = world_of voters.old; requests = requests.now; refused = refused.now })
        (world_of shown.now)) }
{
    let mut differing = differing_groups(alloc, voters, shown)?;
    for (place, (group, request)) in requests.iter().enumerate() {
        if differing.is_empty() {
            return Ok(Some(place));
        }
        if refused.contains(&place) {
            continue;
        }
        voters.take(*group, request)?;
        mark(&mut differing, voters, shown, *group)?;
    }
    if differing.is_empty() {
        return Ok(Some(requests.len()));
    }
    Ok(None)
}

/// Returns the groups whose voters differ.
fn differing_groups(alloc: Global, voters: &Voters, shown: &Voters) -> Result<BTreeSet<u64>, Memory>
    ensures { IfOk result (λ differing. (g : ℕ) → Marks (world_of voters.now) (world_of shown.now) differing g) }
{
    let mut differing = BTreeSet::new(alloc);
    let here = voters.groups()?;
    mark_all(&mut differing, voters, shown, here.as_slice())?;
    let there = shown.groups()?;
    mark_all(&mut differing, voters, shown, there.as_slice())?;
    Ok(differing)
}

/// Marks those of these groups whose voters differ. Other groups stay unchanged, or are marked rightly.
fn mark_all(
    differing: &mut BTreeSet<u64>,
    voters: &Voters,
    shown: &Voters,
    groups: &[u64],
) -> Result<(), Memory>
    ensures marked { OnOk result ((g : ℕ) → is_listed groups.now g ≡ true
        → Marks (world_of voters.now) (world_of shown.now) differing.new g) }
    ensures others { OnOk result ((g : ℕ) → Leave (world_of voters.now) (world_of shown.now) differing.old differing.new g) }
{
    for group in groups {
        mark(differing, voters, shown, *group)?;
    }
    Ok(())
}

/// Marks a group exactly if its voters differ. Other groups are unchanged.
fn mark(
    differing: &mut BTreeSet<u64>,
    voters: &Voters,
    shown: &Voters,
    group: u64,
) -> Result<(), Memory>
    ensures marked { OnOk result (Marks (world_of voters.now) (world_of shown.now) differing.new group) }
    ensures others { OnOk result ((g : ℕ) → (g ≡ group → ⊥)
        → contains nat_cmp differing.new g ≡ contains nat_cmp differing.old g) }
{
    if voters.is_same_at(shown, group) {
        differing.remove(&group);
        return Ok(());
    }
    differing.insert(group)?;
    Ok(())
}
