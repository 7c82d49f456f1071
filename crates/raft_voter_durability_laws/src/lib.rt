//! Voters in an engine's log, for stores that serve rounds by an engine: what each call of the engine does to the
//! voters, whether it succeeds or fails.
//!
//! Each public function is a law over the definitions of `specs/`: it does nothing, and its contract is what is proved.
//! A law starts from what the contracts of the engine's calls say of its log.
//! * [`requests`]: one request of a round, served, turned down, or the one at which the engine failed;
//! * [`rounds`]: rounds, and their replies; [`calls`]: purges, closes, forks and opens; [`examples`]: a round.
#![tactic(auto)]

pub mod calls;
pub mod examples;
pub mod requests;
pub mod rounds;
