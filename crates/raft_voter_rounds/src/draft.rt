//! The memory that the record and the replies of a round need, allocated before it is served.
ghost use Rattle.std.specs.Prelude.{◌≡◌, ◌+◌, ◌≤◌, ◌++◌, [], drop, length, take, vec_capacity, vec_len, IfOk};
ghost use Rattle.raft_voter.specs.Service.{is_refused, refused_from};
ghost use Rattle.raft_voter_rounds.specs.Noting.{answered, cut_off, places_within};

use crate::copies::copy_requests;
use raft_voter::{Items, Memory, Outcome, Reply, Request, Round};
use std::alloc::Global;
use std::collections::VecDeque;

/// The requests of a round for its record. Also room for the replies of the record and of the caller, and for the
/// refused places.
#[derive(Drop)]
pub struct Draft {
    requests: Vec<(u64, Request)>,
    noted: Vec<Reply>,
    handed: Vec<Reply>,
    places: Vec<usize>,
    count: usize,
    ghost empty: { (noted.items ≡ []) × (handed.items ≡ []) × (places.items ≡ []) },
    ghost room: { (count ≤ vec_capacity requests) × (count ≤ vec_capacity noted) × (count ≤ vec_capacity handed)
        × (count ≤ vec_capacity places) },
}

impl Draft {
    /// Returns a draft of a round of these requests.
    pub fn new(alloc: Global, requests: &[(u64, Request)]) -> Result<Draft, Memory>
        ensures requests { IfOk result (λ draft. draft.requests.items ≡ requests.now) }
        ensures count { IfOk result (λ draft. draft.count ≡ length requests.now) }
    {
        let count = requests.len();
        let noted = Vec::with_capacity(alloc, count)?;
        let handed = Vec::with_capacity(alloc, count)?;
        let places = Vec::with_capacity(alloc, count)?;
        let requests = copy_requests(alloc, requests)?.into_vec();
        Ok(Draft {
            requests,
            noted,
            handed,
            places,
            count,
        })
    }

    /// Moves the requests to the end of a list that has room for them. The draft keeps the room that they had.
    pub fn hand_over(&mut self, asked: &mut Vec<(u64, Request)>)
        requires { vec_len asked.old + length self.old.requests.items ≤ vec_capacity asked.old }
        ensures asked { asked.new.items ≡ asked.old.items ++ self.old.requests.items }
        ensures none { self.new.requests.items ≡ [] }
        ensures count { self.new.count ≡ self.old.count }
    {
        let Draft {
            requests,
            noted: _,
            handed: _,
            places: _,
            count: _,
        } = self;
        let _moved = asked.append(requests);
    }

    /// Returns the record of the round, and the replies for its caller. They have the first requests and replies of
    /// these queues, which are removed.
    pub fn answered(
        self,
        asked: &mut VecDeque<(u64, Request)>,
        noted: &mut VecDeque<Reply>,
        handed: &mut VecDeque<Reply>,
    ) -> (Round, Items<Reply>)
        requires { self.requests.items ≡ [] }
        ensures round { result.0 ≡ answered (take self.count asked.old.items) (take self.count noted.old.items) }
        ensures replies { result.1 ≡ take self.count handed.old.items }
        ensures asked { asked.new.items ≡ drop self.count asked.old.items }
        ensures noted { noted.new.items ≡ drop self.count noted.old.items }
        ensures handed { handed.new.items ≡ drop self.count handed.old.items }
    {
        let Draft {
            requests: asked_room,
            noted: noted_room,
            handed: handed_room,
            places,
            count,
        } = self;
        let requests = front(asked, count, asked_room);
        let replies = front(noted, count, noted_room);
        let handed = front(handed, count, handed_room);
        let within = requests.len().min(replies.len());
        let refused = refused_places(&replies.as_slice()[..within], places);
        let round = Round {
            requests: Items::from_vec(requests),
            refused,
            outcome: Outcome::Answered(Items::from_vec(replies)),
        };
        (round, Items::from_vec(handed))
    }

    /// Returns the record of the round if it was cut off. It has the first requests of `asked`, which are removed.
    /// `refused` has the refused places of all rounds that were served together, and this one's first request is at
    /// place `start`.
    pub fn cut_off(
        self,
        asked: &mut VecDeque<(u64, Request)>,
        refused: &[usize],
        start: usize,
    ) -> Round
        requires none { self.requests.items ≡ [] }
        requires few { length (places_within start self.count refused.now) ≤ self.count }
        ensures round { result ≡ cut_off (take self.count asked.old.items)
            (places_within start self.count refused.now) }
        ensures asked { asked.new.items ≡ drop self.count asked.old.items }
    {
        let Draft {
            requests: asked_room,
            noted: _noted,
            handed: _handed,
            places,
            count,
        } = self;
        let own = front(asked, count, asked_room);
        let refused = places_within(refused, start, count, places);
        Round {
            requests: Items::from_vec(own),
            refused,
            outcome: Outcome::Cut,
        }
    }
}

/// Removes the first `count` items of a queue, or all if it has fewer. Returns them in a list that has room for them.
fn front<T>(queue: &mut VecDeque<T>, count: usize, room: Vec<T>) -> Vec<T>
    requires empty { room.items ≡ [] }
    requires room { count ≤ vec_capacity room }
    ensures front { result.items ≡ take count queue.old.items }
    ensures rest { queue.new.items ≡ drop count queue.old.items }
{
    let mut front = room;
    for _ in 0..count {
        match queue.pop_front() {
            Some(item) => front.push_reserved(item),
            None => return front,
        }
    }
    front
}

/// Returns the places whose reply is `Refused`. There must be room for them.
fn refused_places(replies: &[Reply], room: Vec<usize>) -> Items<usize>
    requires empty { room.items ≡ [] }
    requires room { vec_len room + length replies.now ≤ vec_capacity room }
    ensures { result ≡ refused_from 0 replies.now }
{
    let mut places = room;
    for (place, reply) in replies.iter().enumerate() {
        if !is_refused(reply) {
            continue;
        }
        places.push_reserved(place);
    }
    Items::from_vec(places)
}

/// Whether a reply is `Refused`.
fn is_refused(reply: &Reply) -> bool
    ensures { result ≡ is_refused reply.now }
{
    matches!(reply, Reply::Refused)
}

/// Returns the places in a round of `count` requests whose first one is at place `start`; they count from there. There
/// must be room for them.
fn places_within(places: &[usize], start: usize, count: usize, room: Vec<usize>) -> Items<usize>
    requires empty { room.items ≡ [] }
    requires room { length (places_within start count places.now) ≤ vec_capacity room }
    ensures { result ≡ places_within start count places.now }
{
    let mut within = room;
    for place in places {
        if *place < start || *place - start >= count {
            continue;
        }
        within.push_reserved(*place - start);
    }
    Items::from_vec(within)
}
