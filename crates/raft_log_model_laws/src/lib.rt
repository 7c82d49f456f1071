//! The meaning of a log: definitions in `specs/`, and here the laws about them.
//!
//! Each law is a function without a body. What it ensures is proved, and holds for every kind of content. `E`
//! represents an entry, as its bytes, its length in a record or its place in a file. `V` represents a key's value.
//! * [`meaning`]: the last word on each slot counts; [`renaming`]: whatever represents an entry;
//! * [`groups`]: many groups in one queue, and atomic groups of records;
//! * [`segments`], [`tables`]: what is read apart and joined, and kept in memory, means the same;
//! * [`hostile`]: runs past the end, and gaps; [`examples`], [`wrong_rules`]: short logs.
#![tactic(auto)]

pub mod examples;
pub mod groups;
pub mod hostile;
pub mod meaning;
pub mod renaming;
pub mod segments;
pub mod tables;
pub mod wrong_rules;
