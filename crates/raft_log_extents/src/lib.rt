//! The places of a group's entries, and capacity for more. They are kept as runs: entries that are adjacent in one
//! block, and then entries that are each alone in a block.
#![tactic(auto)]

pub mod bounds;
pub mod place;
pub mod places;
pub mod run;
pub mod runs;
pub mod spot;
mod words;

pub use bounds::Bounds;
pub use place::Place;
pub use places::{entry_of, place_of};
pub use run::Run;
pub use runs::Runs;
