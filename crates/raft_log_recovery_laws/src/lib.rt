//! Laws of opening a log, for use in proofs. They say which contents an open finds in the files that an engine left: in
//! place, after a crash, and in a fork. They also say what an open that fails leaves.
//!
//! Each public function here is a law over the definitions of `specs/`: it does nothing, and its contract is
//! what is proved.
#![tactic(auto)]

pub mod closed;
pub mod forks;
pub mod found;
pub mod in_place;
pub mod kept;
pub mod opens;
pub mod recovered;
