//! A law about text in a picture.
ghost use Rattle.raft_voter_timeline.specs.Escape.{EscapedHasNoMark};

/// No byte of an escaped text begins or ends a tag of the picture, or ends one of its attributes.
pub fn escaped_text_has_no_mark()
    ensures { EscapedHasNoMark }
{}
