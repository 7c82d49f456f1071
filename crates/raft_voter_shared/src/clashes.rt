//! A quick test that no receipts contradict each other.
ghost use Rattle.std.specs.Prelude.{ℕ, ◌≡◌, ◌≢◌, ◌-◌, ◌<◌, ◌≤◌, length, set, slice_get, true, IfSome, None, Some};
ghost use Rattle.std.specs.BTreeMap.{get};
ghost use Rattle.std.specs.Ordering.{nat_cmp};
ghost use Rattle.raft_voter_shared.specs.Clashing.{AreNoted, NoneClashes, RiseBelow};

use raft_voter_rounds::{Opening, Receipt, Statement};
use std::alloc::Global;
use std::collections::BTreeMap;

/// Returns true only if no receipt from the first place on contradicts another one. `count` records are kept from there
/// on. Looks at each receipt and at each place once. Returns false if memory runs out.
pub fn are_apart<L: Opening>(
    alloc: Global,
    first: usize,
    count: usize,
    receipts: &[Receipt<L>],
) -> bool
    ensures { result ≡ true → NoneClashes first receipts.now }
{
    match noted_turns(alloc, first, count, receipts) {
        Some(turns) => do_rise(alloc, turns.as_slice()),
        None => false,
    }
}

/// Returns the seat and the turn of the receipt at each place. Returns `None` if two have the same place, if one is after
/// the last place, or if memory runs out.
fn noted_turns<L: Opening>(
    alloc: Global,
    first: usize,
    count: usize,
    receipts: &[Receipt<L>],
) -> Option<Vec<Option<(u64, u64)>>>
    ensures { IfSome result (λ turns. AreNoted first receipts.now (length receipts.now) turns.items) }
{
    let mut turns = Vec::new(alloc);
    turns.resize(count, None).ok()?;
    for receipt in receipts {
        if !note_turn(first, &mut turns, receipt.statement()) {
            return None;
        }
    }
    Some(turns)
}

/// Notes the seat and the turn of a receipt at its place, unless this is before the first one. Returns false if the
/// place has a seat already, or there is no such place.
fn note_turn(first: usize, turns: &mut Vec<Option<(u64, u64)>>, receipt: &Statement) -> bool
    ensures before { receipt.now.place < first → turns.new.items ≡ turns.old.items }
    ensures free { result ≡ true → first ≤ receipt.now.place
        → slice_get turns.old.items (receipt.now.place - first) ≡ Some None }
    ensures noted { result ≡ true → first ≤ receipt.now.place
        → turns.new.items ≡ set turns.old.items (receipt.now.place - first) (Some (receipt.now.seat, receipt.now.turn)) }
{
    if receipt.place < first {
        return true;
    }
    let place = receipt.place - first;
    if place >= turns.len() || turns[place].is_some() {
        return false;
    }
    turns[place] = Some((receipt.seat, receipt.turn));
    true
}

/// Returns true only if the turns of each seat rise.
fn do_rise(alloc: Global, turns: &[Option<(u64, u64)>]) -> bool
    ensures { result ≡ true → RiseBelow turns.now (length turns.now) }
{
    let mut last = BTreeMap::new(alloc);
    for noted in turns {
        if let Some((seat, turn)) = noted {
            if !follows(&mut last, *seat, *turn) {
                return false;
            }
        }
    }
    true
}

/// Notes a turn as the last one of its seat. Returns true only if the one before isn't higher.
fn follows(last: &mut BTreeMap<u64, u64>, seat: u64, turn: u64) -> bool
    ensures before { result ≡ true → IfSome (get nat_cmp last.old seat) (λ before. before ≤ turn) }
    ensures noted { result ≡ true → get nat_cmp last.new seat ≡ Some turn }
    ensures others { result ≡ true → (other : ℕ) → other ≢ seat → get nat_cmp last.new other ≡ get nat_cmp last.old other }
{
    match last.insert(seat, turn) {
        Ok(Some(before)) => before <= turn,
        Ok(None) => true,
        Err(_) => false,
    }
}
