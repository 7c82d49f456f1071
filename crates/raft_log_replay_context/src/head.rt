//! What a segment does with an atomic group that may be open before it.
ghost use Rattle.std.specs.Prelude.{◌≡◌, ◌++◌, IfOk};
ghost use Rattle.raft_log_model_laws.specs.Fragments.{then_head};
ghost use Rattle.raft_log_model_laws.specs.Fragments.Head.{GoesOn};
ghost use Rattle.raft_log_replay_context.specs.Pieces.{head_of, parts_seen, Reading};

use crate::part::GroupPart;
use std::alloc::AllocError;

/// What a segment does with the group of a number, which may be open before it.
#[derive(Drop)]
pub(crate) enum GroupHead {
    /// The group continues with these records, and neither ends nor begins anew.
    GoesOn(Vec<GroupPart>),
    /// The group ends, with these records up to its end.
    Ends(Vec<GroupPart>),
    /// A group of its number begins first: the open one is cut short.
    BeginsAnew,
}

impl GroupHead {
    /// What this segment and the next one do, one after the other.
    pub(crate) fn then(self, later: GroupHead) -> Result<GroupHead, AllocError>
        ensures { IfOk result (λ both. (φ : Reading)
            → head_of φ both ≡ then_head (head_of φ self) (head_of φ later)) }
    {
        match self {
            GroupHead::GoesOn(parts) => go_on(parts, later),
            known => Ok(known),
        }
    }
}

/// What a group that continues with these records does in the next segment.
fn go_on(parts: Vec<GroupPart>, later: GroupHead) -> Result<GroupHead, AllocError>
    ensures { IfOk result (λ both. (φ : Reading)
        → head_of φ both ≡ then_head (GoesOn (parts_seen φ parts.items)) (head_of φ later)) }
{
    match later {
        GroupHead::GoesOn(more) => Ok(GroupHead::GoesOn(joined(parts, more)?)),
        GroupHead::Ends(more) => Ok(GroupHead::Ends(joined(parts, more)?)),
        GroupHead::BeginsAnew => Ok(GroupHead::BeginsAnew),
    }
}

/// These records, and then those.
pub(crate) fn joined(
    parts: Vec<GroupPart>,
    more: Vec<GroupPart>,
) -> Result<Vec<GroupPart>, AllocError>
    ensures { IfOk result (λ both. (φ : Reading)
        → parts_seen φ both.items ≡ parts_seen φ parts.items ++ parts_seen φ more.items) }
{
    let mut parts = parts;
    let mut more = more;
    parts.append(&mut more)?;
    Ok(parts)
}
