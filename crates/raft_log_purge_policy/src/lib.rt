//! Which queues a purge collects, and up to which files. Which groups a purge of Append asks its caller to compact, and
//! which it rewrites itself: first for one group, by its table, then for all.
#![tactic(auto)]

pub mod picking;
pub mod rounds;
pub mod rules;
pub mod survey;
pub mod thresholds;
pub mod watermarks;

pub use picking::{GroupLists, answered_groups};
pub use rounds::Rounds;
pub use survey::{Survey, survey_groups, survey_unless_known};
pub use thresholds::Thresholds;
pub use watermarks::{Watermarks, append_watermarks, is_any_past, takes_append, takes_rewrite};
