//! What a crash leaves, as a test chooses it.

/// What a crash leaves of the unsynced changes. They are in the order of the calls, over all files that still have a
/// name.
#[derive(Debug, Drop)]
pub enum Remainder {
    /// No change: each file as it was last synced.
    LastSync,
    /// All changes.
    AllWritten,
    /// The first changes whole, and of the next one, if it is a write, its first bytes. The rest is lost.
    First {
        /// How many are whole.
        pieces: usize,
        /// How many bytes of the next one.
        bytes: usize,
    },
    /// What each piece says of its change; changes past the end of the list are lost.
    Pieces(Vec<Piece>),
}

/// What a crash leaves of one change.
#[derive(Debug, Drop)]
pub enum Piece {
    /// All of the change.
    Keep,
    /// Nothing.
    Lose,
    /// Other bytes in place of a write's, at most as many. A truncation or a growth is kept whole.
    Bytes(Vec<u8>),
}
