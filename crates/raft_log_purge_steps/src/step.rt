//! What a step of a purge returns.

ghost use Rattle.std.specs.Prelude.{◌≡◌, []};

use std::alloc::Global;

/// What a step of a purge returns.
#[derive(Drop)]
pub struct PurgeStep {
    /// The groups that the caller is asked to compact, from the least up.
    pub answered: Vec<u64>,
    /// Whether the purge may not be done yet.
    pub more: bool,
}

impl PurgeStep {
    /// A step that asks for no group.
    pub(crate) fn silent(alloc: Global, more: bool) -> PurgeStep
        ensures answered { result.answered.items ≡ [] }
        ensures more { result.more ≡ more }
    {
        PurgeStep {
            answered: Vec::new(alloc),
            more,
        }
    }
}
