//! A node of Raft voters, as a program runs it: a store of voters on a log over any file system. It reads lines of the
//! session language, and writes the lines of each round after what they say is durable.
#![tactic(auto)]

mod asking;
mod found;
mod node;
mod rounds;
mod running;

pub use asking::{Asked, read_asked};
pub use node::Node;
pub use rounds::serve_round;
pub use running::run;
