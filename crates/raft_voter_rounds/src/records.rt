//! Records of rounds that were served together, and the answers to their callers.
ghost use Rattle.std.specs.Prelude.{◌≡◌, ◌+◌, ◌<◌, ◌≤◌, ◌^◌, ◌++◌, [], true, length, map, sum_by, vec_capacity, vec_len, Err};
ghost use Rattle.std.specs.List.{All, AllZip, flat_map};
ghost use Rattle.raft_voter.specs.Rounds.{are_rising};
ghost use Rattle.raft_voter_rounds.specs.Handing.{HandsOut};
ghost use Rattle.raft_voter_rounds.specs.Noting.{answered_each, cut_each, cut_told, may_cut, told_each};
ghost use Rattle.raft_voter_rounds.specs.declared.receipt.SharedFault.TheVariants as faults;

use crate::copies::copy_reply;
use crate::done::Done;
use crate::job::Part;
use crate::journal::Journal;
use crate::opening::Opening;
use raft_voter::{Cause, Reply, Request};
use raft_voter_history::History;
use std::alloc::Global;
use std::collections::VecDeque;
use std::sync::Wait;
use std::sync::ledger::Book;

/// Returns the replies for the records and those for the callers; both are the same. Each is the store's reply, or
/// `Refused` if the entries of a Read can't be copied for lack of memory. There must be room for both lists.
pub fn hand_out(
    alloc: Global,
    told: Vec<Reply>,
    noted: Vec<Reply>,
    handed: Vec<Reply>,
) -> (Vec<Reply>, Vec<Reply>)
    requires empty { (noted.items ≡ []) × (handed.items ≡ []) }
    requires room { (vec_len told ≤ vec_capacity noted) × (vec_len told ≤ vec_capacity handed) }
    ensures same { result.0.items ≡ result.1.items }
    ensures replies { AllZip HandsOut told.items result.0.items }
{
    let (mut noted, mut handed) = (noted, handed);
    for reply in told {
        let (reply, copy) = twice(alloc, reply);
        noted.push_reserved(reply);
        handed.push_reserved(copy);
    }
    (noted, handed)
}

/// Returns a reply twice, or `Refused` twice if its entries can't be copied for lack of memory.
fn twice(alloc: Global, reply: Reply) -> (Reply, Reply)
    ensures same { result.0 ≡ result.1 }
    ensures handed { HandsOut reply result.0 }
{
    match copy_reply(alloc, &reply) {
        Ok(copy) => (reply, copy),
        Err(_) => (Reply::Refused, Reply::Refused),
    }
}

/// Appends the records of rounds with these requests and replies to the journal, and returns the answers to their
/// callers. Each round has at most 4,096 requests. There must be room for the records and the answers.
pub fn note_answers<L: Opening, R: Wait>(
    rt: &R,
    history: &History<L>,
    journal: &mut Journal<L>,
    book: &mut Book<L>,
    parts: Vec<Part<L>>,
    asked: Vec<(u64, Request)>,
    noted: Vec<Reply>,
    handed: Vec<Reply>,
    room: Vec<Done<L>>,
) -> Vec<Done<L>>
    requires counted { length journal.old.history ≡ book.old.total }
    requires journal { vec_len journal.old.kept + length parts.items ≤ vec_capacity journal.old.kept }
    requires more { length journal.old.history + length parts.items < 2 ^ 64 }
    requires room { (room.items ≡ []) × (length parts.items ≤ vec_capacity room) }
    requires short { All (λ part. part.ticket.count ≤ 4096) parts.items }
    requires same { noted.items ≡ handed.items }
    requires each { flat_map (λ part. part.requests) parts.items ≡ asked.items }
    ensures counted { length journal.new.history ≡ book.new.total }
    ensures journal { journal.new.history ≡ journal.old.history
        ++ answered_each (map (λ part. part.ticket.count) parts.items) asked.items noted.items }
    ensures answers { map (λ done. done.answer) result.items
        ≡ told_each (length journal.old.history) (map (λ part. part.ticket.count) parts.items) noted.items }
    ensures whose { map (λ done. done.ticket) result.items ≡ map (λ part. part.ticket) parts.items }
{
    let mut done = room;
    let mut parts = VecDeque::from_vec(parts);
    let mut asked = VecDeque::from_vec(asked);
    let mut noted = VecDeque::from_vec(noted);
    let mut handed = VecDeque::from_vec(handed);
    while let Some(part) = parts.pop_front() {
        let place = journal.len();
        let (draft, caller) = part.split();
        let (round, replies) = draft.answered(&mut asked, &mut noted, &mut handed);
        let claim = journal.note(rt, history, round);
        done.push_reserved(caller.answered(book, place, replies, claim));
    }
    done
}

/// Appends the records of rounds that were cut off together for this cause to the journal, and returns the answers to
/// their callers. If the cause is `TooLong`, each round has more than 4,096 requests; otherwise none has. `refused` has
/// the refused places of all their requests, rising. There must be room for the records and the answers.
pub fn note_cuts<L: Opening, R: Wait>(
    rt: &R,
    history: &History<L>,
    journal: &mut Journal<L>,
    book: &mut Book<L>,
    cause: Cause,
    parts: Vec<Part<L>>,
    asked: Vec<(u64, Request)>,
    refused: &[usize],
    room: Vec<Done<L>>,
) -> Vec<Done<L>>
    requires counted { length journal.old.history ≡ book.old.total }
    requires journal { vec_len journal.old.kept + length parts.items ≤ vec_capacity journal.old.kept }
    requires more { length journal.old.history + length parts.items < 2 ^ 64 }
    requires room { (room.items ≡ []) × (length parts.items ≤ vec_capacity room) }
    requires cause { All (λ part. may_cut cause part.ticket.count ≡ true) parts.items }
    requires all { sum_by (λ part. part.ticket.count) parts.items ≡ length asked.items }
    requires rising { are_rising 0 (length asked.items) refused.now ≡ true }
    ensures counted { length journal.new.history ≡ book.new.total }
    ensures journal { journal.new.history ≡ journal.old.history
        ++ cut_each 0 (map (λ part. part.ticket.count) parts.items) asked.items refused.now }
    ensures answers { map (λ done. done.answer) result.items
        ≡ cut_told (length journal.old.history) cause (map (λ part. part.ticket.count) parts.items) }
    ensures whose { map (λ done. done.ticket) result.items ≡ map (λ part. part.ticket) parts.items }
{
    let mut told = room;
    let mut left = VecDeque::from_vec(parts);
    let mut asked = VecDeque::from_vec(asked);
    let mut start = 0;
    while let Some(part) = left.pop_front() {
        let place = journal.len();
        let count = part.ticket.count;
        let (draft, caller) = part.split();
        let round = draft.cut_off(&mut asked, refused, start);
        let _claim = journal.note(rt, history, round);
        told.push_reserved(caller.cut_off(book, place, cause));
        start += count;
    }
    told
}

/// Returns the answers to the callers of rounds for whose records there was no memory: `Memory` for each. There must be
/// room for them.
pub fn refuse_all<L: Opening>(parts: Vec<Part<L>>, room: Vec<Done<L>>) -> Vec<Done<L>>
    requires { (room.items ≡ []) × (length parts.items ≤ vec_capacity room) }
    ensures answers { map (λ done. done.answer) result.items
        ≡ map (λ n. Err faults.Memory) (map (λ part. part.ticket.count) parts.items) }
    ensures whose { map (λ done. done.ticket) result.items ≡ map (λ part. part.ticket) parts.items }
{
    let mut done = room;
    let mut refused = VecDeque::from_vec(parts);
    while let Some(part) = refused.pop_front() {
        let (_draft, caller) = part.split();
        done.push_reserved(caller.refused());
    }
    done
}
