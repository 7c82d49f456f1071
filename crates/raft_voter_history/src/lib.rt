//! The history of a store of voters: the records of all rounds that it served. It exists in proofs alone and takes no
//! memory. One keeper adds records to it. A claim says which records are in it, from which place on.
#![tactic(auto)]

mod claim;
mod history;
mod keeper;
mod rule;

pub use claim::Claim;
pub use history::{FreshHistory, History, Named};
pub use keeper::Keeper;
