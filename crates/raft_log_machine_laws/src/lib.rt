//! Laws: no step of the log's engine, and no crash, loses what was written and synced.
//!
//! Each public function here is a law over the definitions of `specs/`. It does nothing, and its contract is what is
//! proved.
//! * [`survival`]: what a directory holds, step by step, in terms of the records of the two queues;
//! * [`machine`]: the queues with the engine's whereabouts, each event, and every schedule of them;
//! * [`files`]: the same for numbered files, from every file at which a recovery may begin;
//! * [`append_calls`], [`rewrite_calls`], [`open`]: what each call on a queue, and each open, keeps of an engine's log;
//! * [`moves`], [`writes`], [`notes`]: how an engine's view and its noted files follow what happens to the files;
//! * [`log`]: what a log promises about the images that a crash may leave;
//! * [`replay`]: whatever a crash leaves can be read: no holes, and no broken atomic groups;
//! * [`images`]: in whatever image a crash leaves, the entries are one run, and it can be opened;
//! * [`purge`]: a purge changes nothing of what the directory means;
//! * [`example`]: a schedule with two purges and a crash, step by step;
//! * [`wrong_rules`]: rules that look right, and what each loses.
#![tactic(auto)]

pub mod append_calls;
pub mod example;
pub mod file_system;
pub mod files;
pub mod images;
pub mod log;
pub mod machine;
pub mod model;
pub mod moves;
pub mod notes;
pub mod open;
pub mod pipes;
pub mod purge;
pub mod replay;
pub mod rewrite_calls;
pub mod survival;
pub mod writes;
pub mod wrong_rules;
