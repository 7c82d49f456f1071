//! Proved callers of the crates that users call; the pages `CALLING.md` show them.
#![tactic(auto)]

pub mod atomic_groups;
pub mod base;
pub mod blocks;
pub mod builder;
pub mod consistency;
pub mod contexts;
pub mod dual_pipes;
pub mod dump;
pub mod file;
pub mod fork;
pub mod format;
pub mod frames;
pub mod items;
pub mod layout;
pub mod listeners;
pub mod log_disk;
pub mod memory_files;
pub mod opening;
pub mod outline;
pub mod pipes;
pub mod records;
pub mod recovery;
pub mod replay;
pub mod rewriting;
pub mod segments;
pub mod settings;
pub mod tables;
pub mod told_pipes;
pub mod voter;
pub mod voter_messages;
pub mod voter_service;
pub mod voter_session;
