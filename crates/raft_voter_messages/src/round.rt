//! Rounds of requests and their outcomes.
use crate::{Items, Reply, Request};

/// The outcome of a round.
#[derive(Debug, PartialEq, Drop)]
pub enum Outcome {
    /// Each request has its reply, in the same order.
    Answered(Items<Reply>),
    /// The round ended without replies.
    Cut,
}

/// Requests to the voters of many groups that were submitted together.
#[derive(Debug, PartialEq, Drop)]
pub struct Round {
    /// The requests with their groups, in the order in which they are served. Places count from 0.
    pub requests: Items<(u64, Request)>,
    /// The places of the refused requests, in rising order. Nothing of them is taken, and in `Answered` their reply is
    /// `Refused`.
    pub refused: Items<usize>,
    /// The outcome of the round.
    pub outcome: Outcome,
}

/// Rounds in the order in which they were served.
#[derive(Debug, PartialEq, Drop)]
pub struct Transcript {
    /// The rounds.
    pub rounds: Items<Round>,
}
