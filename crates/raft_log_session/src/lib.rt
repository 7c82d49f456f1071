//! The texts of sessions on a log: reads settings and events, and writes answers.
#![tactic(auto)]

mod answers;
mod bytes;
mod changes;
mod events;
mod forms;
mod reading;
mod session;
mod settings;
mod words;

pub use answers::{write_answer, write_verdict};
pub use reading::read_session;
pub use session::{Session, SessionEvent, SessionFault};
