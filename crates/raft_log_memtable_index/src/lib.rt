//! The state of a group's table: the places of its entries and the values of its keys, with room for more; how it shows
//! in contracts; and laws that tie a table's changes to the machine's steps.
#![tactic(auto)]

pub mod group_files;
pub mod key_map;
pub mod laws;
pub mod places;
pub mod replay_laws;

pub use group_files::GroupFiles;
pub use key_map::{HeldValue, KeyMap, lesser};
pub use places::Places;
