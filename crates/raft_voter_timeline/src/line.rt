//! The lines of the picture.
ghost use Rattle.std.specs.Prelude.{◌≡◌, IfOk};
ghost use Rattle.raft_voter_timeline.specs.Marks.{is_round, mark_name};

use raft_voter_messages::Memory;
use std::alloc::Global;

/// The most characters of a text of a line: as many as the picture's narrower column can show.
const MOST_CHARACTERS: usize = 60;

/// What a line shows: it decides what is drawn next to its words.
#[derive(Clone, Copy)]
pub enum Mark {
    /// An event that needs only its words: an open, a close, a purge, a copy.
    Event,
    /// A fault that is set for a later call.
    Armed,
    /// The machine stops.
    Crash,
    /// A round without its result.
    Round,
    /// A round that got replies.
    Answered,
    /// A round that was cut off.
    CutOff,
    /// A request that was taken.
    Taken,
    /// A request that was refused.
    Refused,
    /// A request that was lost with its round.
    Lost,
    /// The end of a round that wrote: it synced what it took, and then got replies.
    Durable,
    /// The end of a round that got replies and changed no voter: it had nothing to sync.
    Unchanged,
    /// The cut of a round that was cut off: the requests below are lost.
    Cut,
}

impl Mark {
    /// Returns its name in the picture, by which its line is drawn.
    pub fn name(self) -> &'static str
        ensures { result.now ≡ mark_name self }
    {
        match self {
            Mark::Event => "event",
            Mark::Armed => "armed",
            Mark::Crash => "crash",
            Mark::Round => "round",
            Mark::Answered => "answered",
            Mark::CutOff => "cut-off",
            Mark::Taken => "taken",
            Mark::Refused => "refused",
            Mark::Lost => "lost",
            Mark::Durable => "durable",
            Mark::Unchanged => "unchanged",
            Mark::Cut => "cut",
        }
    }
}

/// A line of the picture.
#[derive(Drop)]
pub struct Line {
    /// Its mark.
    pub mark: Mark,
    /// What happened.
    pub text: String,
    /// The result.
    pub outcome: String,
}

impl Line {
    /// Returns a line with these words. Of words with more than 60 characters it has the first 60
    /// and two dots. Fails only with `Memory`.
    pub fn new(alloc: Global, mark: Mark, text: &str, outcome: &str) -> Result<Line, Memory>
        ensures { IfOk result (λ line. line.mark ≡ mark) }
    {
        let text = shortened(alloc, text)?;
        let outcome = shortened(alloc, outcome)?;
        Ok(Line {
            mark,
            text,
            outcome,
        })
    }

    /// Whether it is the line of a round without its result.
    pub fn is_round(&self) -> bool
        ensures { result ≡ is_round self.now.mark }
    {
        matches!(self.mark, Mark::Round)
    }
}

/// Returns a text or, if it is too long, a prefix of it followed by two dots.
fn shortened(alloc: Global, text: &str) -> Result<String, Memory> {
    let mut short = String::new(alloc);
    for (place, character) in text.chars().enumerate() {
        if place == MOST_CHARACTERS {
            short.push_str("..")?;
            return Ok(short);
        }
        short.push(character)?;
    }
    Ok(short)
}
