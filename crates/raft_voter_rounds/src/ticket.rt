//! Which round a caller waits for.
ghost use Rattle.std.specs.Prelude.{◌≡◌};
ghost use Rattle.std.specs.Bool.{Decides};

/// A seat's next round, named by numbers. No two rounds in a journal have the same `number` and `turn`.
#[derive(Clone, Copy)]
pub struct Ticket {
    /// The number of the seat.
    pub number: u64,
    /// How many parts of the ledger the seat has.
    pub parts: u64,
    /// How many rounds of the seat are in the journal before it.
    pub turn: u64,
    /// How many requests the round has.
    pub count: usize,
}

impl Ticket {
    /// Whether this is the other ticket's round.
    pub fn is_same(&self, other: &Ticket) -> bool
        ensures { Decides result (self.now ≡ other.now) }
    {
        self.number == other.number
            && self.parts == other.parts
            && self.turn == other.turn
            && self.count == other.count
    }
}
