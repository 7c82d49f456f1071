//! Draws a session as SVG: its events from top to bottom, each round with its requests and their results.
//!
//! `titles_of` makes a line for each event, `lines_of` the lines of the rounds of a run, and `svg_of` writes the lines.
//! `writes_of` decides which rounds wrote, so that only those end as durable. `draw_run` does all of it for events on
//! any store.
#![tactic(auto)]

mod drawing;
mod escape;
mod head;
pub mod laws;
mod line;
mod picture;
mod requests;
mod rounds;
mod titles;
mod writes;

pub use drawing::draw_run;
pub use escape::push_escaped;
pub use line::{Line, Mark};
pub use picture::svg_of;
pub use rounds::lines_of;
pub use titles::titles_of;
pub use writes::writes_of;
