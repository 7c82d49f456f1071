//! The settings of a log.
#![tactic(auto)]

pub mod config;
pub mod fault;
mod printing;
mod reading;
pub mod recovery_mode;

pub use config::Config;
pub use fault::ConfigFault;
pub use recovery_mode::RecoveryMode;
