//! What a thread does at its seat of a shared store.

ghost use Rattle.std.specs.Prelude.{◌≡◌, ◌++◌, IfOk};
ghost use Rattle.raft_shared_examples.specs.Seats.{place_in, receipts_in, IsReceiptOf};

use raft_voter::{Request, RoundService};
use raft_voter_shared_log::{Opening, Receipt, Seat, SharedFault, SharedStore};
use std::alloc::AllocError;
use std::sync::Wait;

/// A seat after its round, and the receipt of the round, or why it has none.
#[derive(Drop)]
pub struct Served<L: Opening> {
    /// The seat.
    pub seat: Seat<L>,
    /// The receipt.
    pub answer: Result<Receipt<L>, SharedFault>,
}

/// Serves a round at a seat.
pub fn serve_round<R: Wait, S: RoundService<R>, L: Opening>(
    rt: &R,
    shared: &SharedStore<R, S, L>,
    seat: Seat<L>,
    requests: &[(u64, Request)],
) -> Served<L>
    ensures parts { result.seat.parts ≡ seat.parts }
    ensures requests { IsReceiptOf requests.now result.answer }
{
    let mut seat = seat;
    let answer = shared.serve(rt, &mut seat, requests);
    Served { seat, answer }
}

/// Adds the receipt of a round to those of others, if it has one. Returns them with the place of the round's record.
pub fn add_receipt<L: Opening>(
    receipts: Vec<Receipt<L>>,
    answer: Result<Receipt<L>, SharedFault>,
) -> Result<(Vec<Receipt<L>>, Option<usize>), AllocError>
    ensures receipts { IfOk result (λ all. all.0.items ≡ receipts.items ++ receipts_in answer) }
    ensures place { IfOk result (λ all. all.1 ≡ place_in answer) }
{
    let mut receipts = receipts;
    match answer {
        Ok(receipt) => {
            let place = receipt.statement().place;
            receipts.push(receipt)?;
            Ok((receipts, Some(place)))
        }
        Err(_) => Ok((receipts, None)),
    }
}
