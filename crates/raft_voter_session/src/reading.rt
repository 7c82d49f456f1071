//! A session while its lines are read.
ghost use Rattle.std.specs.Prelude.{◌≡◌, Ok, IfOk, IfErr, Some, string_bytes};
ghost use Rattle.raft_voter_session.specs.Told.{said, told};
ghost use Rattle.raft_voter_session.specs.Session.{adds_event, after_asked, after_line, after_outside, after_setting, begins_settings, finish, no_progress, nothing};
ghost use Rattle.raft_voter_session.specs.Fault.{TellsLineFault};

use crate::events::read_event;
use crate::requests::read_request;
use crate::session::{Session, SessionFault};
use crate::words::read_text;
use raft_voter_messages::{Items, Memory, Request};
use raft_voter_world::Event;
use std::alloc::Global;
use std::collections::VecDeque;
use std::marker::Model;

/// The most bytes of a line, without its line feed.
const MOST_LINE_BYTES: usize = 4_194_304;

/// What the lines so far have begun and not ended.
#[derive(Drop)]
pub enum Begun {
    /// Nothing.
    Nothing,
    /// The settings, with their text so far.
    Settings(String),
    /// A round, with these requests.
    Round(Items<(u64, Request)>),
}

/// The session that the lines so far encode, and what they have begun.
#[derive(Drop)]
pub struct Reading {
    session: Session,
    begun: Begun,
}

impl Model for Reading {
    ghost use Rattle.raft_voter_session.specs.Told.{said};
    ghost use Rattle.raft_voter_session.specs.Session.{Progress, open_part};

    ghost Value = { Progress };

    ghost view = { λ r. record { session = said r.session; begun = open_part r.begun } };
}

impl Reading {
    /// Returns the state before the first line.
    pub fn new(alloc: Global) -> Reading
        ensures { result ≡ no_progress }
    {
        let session = Session {
            settings: None,
            events: VecDeque::new(alloc),
        };
        Reading {
            session,
            begun: Begun::Nothing,
        }
    }

    /// Reads one more line, without its line feed. Returns `None` if it is unreadable.
    pub fn after(self, alloc: Global, line: &[u8]) -> Result<Option<Reading>, Memory>
        ensures { IfOk result (λ next. next ≡ after_line line.now self) }
    {
        if line.len() > MOST_LINE_BYTES {
            return Ok(None);
        }
        let Reading { session, begun } = self;
        match begun {
            Begun::Nothing => outside(alloc, session, line),
            Begun::Settings(text) => with_setting(session, text, line),
            Begun::Round(requests) => with_request(alloc, session, requests, line),
        }
    }

    /// Returns the session if it is whole: nothing is begun, nothing follows the last line (`rest`), and it wasn't too
    /// long (`is_whole`). Otherwise fails with `Unreadable` and this number.
    pub fn finish(self, is_whole: bool, rest: &[u8], number: usize) -> Result<Session, SessionFault>
        ensures ok { IfOk result (λ session. finish number is_whole rest.now self ≡ Ok (said session)) }
        ensures err { IfErr result (TellsLineFault (finish number is_whole rest.now self)) }
    {
        let Reading { session, begun } = self;
        if !rest.is_empty() || !is_whole || !matches!(begun, Begun::Nothing) {
            return Err(SessionFault::Unreadable(number));
        }
        Ok(session)
    }
}

/// The state after a line that ended what was begun.
fn ended(session: Session) -> Option<Reading>
    ensures { result ≡ Some (record { session = said session; begun = nothing }) }
{
    Some(Reading {
        session,
        begun: Begun::Nothing,
    })
}

/// Adds an event.
fn with_event(session: Session, event: Event) -> Result<Option<Reading>, Memory>
    ensures { IfOk result (λ next. next ≡ adds_event (said session) (told event)) }
{
    let Session {
        settings,
        mut events,
    } = session;
    events.push_back(event)?;
    Ok(ended(Session { settings, events }))
}

/// Begins the settings. Returns `None` if anything was read before.
fn settings_begin(alloc: Global, session: Session) -> Option<Reading>
    ensures { result ≡ begins_settings (said session) }
{
    if session.settings.is_some() || !session.events.is_empty() {
        return None;
    }
    Some(Reading {
        session,
        begun: Begun::Settings(String::new(alloc)),
    })
}

/// Reads one more line, while nothing is begun.
fn outside(alloc: Global, session: Session, line: &[u8]) -> Result<Option<Reading>, Memory>
    ensures { IfOk result (λ next. next ≡ after_outside line.now (said session)) }
{
    if line == b"config".as_slice() {
        return Ok(settings_begin(alloc, session));
    }
    if line == b"round".as_slice() {
        let begun = Begun::Round(Items::new(alloc));
        return Ok(Some(Reading { session, begun }));
    }
    match read_event(alloc, line)? {
        Some(event) => with_event(session, event),
        None => Ok(None),
    }
}

/// Reads one more line of the settings, after this text of theirs.
fn with_setting(session: Session, text: String, line: &[u8]) -> Result<Option<Reading>, Memory>
    ensures { IfOk result (λ next. next ≡ after_setting line.now (said session) (string_bytes text)) }
{
    let Session { settings, events } = session;
    if line == b"end".as_slice() {
        let settings = Some(text);
        return Ok(ended(Session { settings, events }));
    }
    let Some(line) = read_text(line) else {
        return Ok(None);
    };
    let mut text = text;
    text.push_str(line)?;
    text.push_str("\n")?;
    Ok(Some(Reading {
        session: Session { settings, events },
        begun: Begun::Settings(text),
    }))
}

/// Reads one more line of a round, after these requests.
fn with_request(
    alloc: Global,
    session: Session,
    requests: Items<(u64, Request)>,
    line: &[u8],
) -> Result<Option<Reading>, Memory>
    ensures { IfOk result (λ next. next ≡ after_asked line.now (said session) requests) }
{
    if line == b"end".as_slice() {
        return with_event(session, Event::Round { requests });
    }
    let Some(asked) = read_request(alloc, line)? else {
        return Ok(None);
    };
    let mut requests = requests;
    requests.push(asked)?;
    Ok(Some(Reading {
        session,
        begun: Begun::Round(requests),
    }))
}
