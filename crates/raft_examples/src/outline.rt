//! A caller of `raft_voter_outline`.
ghost use Rattle.std.specs.Prelude.{◌≡◌, IfOk, OnErr, OnOk};
ghost use Rattle.raft_voter_outline.specs.Decisions.{OutlineBecomes};
ghost use Rattle.raft_voter_outline.specs.Outlines.{IsReplyOfEach};

use raft_voter_outline::{Answer, Decision, Memory, Outline, Request};

/// Takes a request, and returns the reply. A store writes the change after room was made for it and before anything
/// changes. If memory runs out, the outline is unchanged.
pub fn take(outline: &mut Outline, request: &Request) -> Result<Answer, Memory>
    ensures answers { IfOk result (IsReplyOfEach outline.old.voter request.now) }
    ensures ok { OnOk result (OutlineBecomes outline.old.voter request.now outline.new.voter) }
    ensures err { OnErr result (outline.new.voter ≡ outline.old.voter) }
{
    let Decision { answer, change } = outline.decide(request);
    let Some(change) = change else {
        return Ok(answer);
    };
    outline.reserve(&change, request)?;
    // here the change is written
    outline.apply(&change, request);
    Ok(answer)
}
