//! Lists that contracts see as their elements.
#![tactic(auto)]

mod items;

pub use items::{Bytes, Items};
