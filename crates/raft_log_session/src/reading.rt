//! A session while its lines are read.
use crate::changes::read_change;
use crate::events::read_event;
use crate::forms::form_of;
use crate::session::{Session, SessionFault, Unread};
use crate::settings::{read_settings, usual_settings};
use crate::words::{Words, end_of_word, split_at_byte};
use raft_lists::Items;
use raft_log_judge::Batch;
use raft_log_world::{Call, Event};
use std::alloc::{AllocError, Global};

/// Reads the session of a text. A line that begins with `#` is a comment, and an empty line means nothing. Fails at the
/// first line that can't be read, if changes after the last `write` are left, or if memory runs out.
pub fn read_session(alloc: Global, text: &[u8]) -> Result<Session, SessionFault> {
    let mut reading = Reading::new(alloc)?;
    let mut left = text;
    let mut number: usize = 1;
    while let Some((line, rest)) = split_at_byte(left, b'\n') {
        reading.take(alloc, number, line)?;
        left = rest;
        number = number.saturating_add(1);
    }
    reading.take(alloc, number, left)?;
    reading.finish()
}

/// The session of the lines so far, and the batch that they fill.
#[derive(Drop)]
struct Reading {
    session: Session,
    batch: Batch,
    /// Whether any line had a command.
    is_begun: bool,
}

impl Reading {
    /// The state before the first line.
    fn new(alloc: Global) -> Result<Reading, AllocError> {
        Ok(Reading {
            session: Session {
                config: usual_settings(alloc)?,
                events: Vec::new(alloc),
            },
            batch: Items::new(alloc),
            is_begun: false,
        })
    }

    /// Reads one more line, which has this number.
    fn take(&mut self, alloc: Global, number: usize, line: &[u8]) -> Result<(), SessionFault> {
        if line.is_empty() || line.starts_with(b"#".as_slice()) {
            return Ok(());
        }
        let (word, text) = line.split_at(end_of_word(line));
        let Ok(word) = std::str::from_utf8(word) else {
            return Err(SessionFault::Unknown(number));
        };
        let Some(form) = form_of(word) else {
            return Err(SessionFault::Unknown(number));
        };
        match self.read(alloc, word, text) {
            Ok(()) => Ok(()),
            Err(Unread::Form) => Err(SessionFault::Unreadable(number, form)),
            Err(Unread::Memory) => Err(SessionFault::Memory),
        }
    }

    /// Reads the command of a line, by its first word and the rest of it.
    fn read(&mut self, alloc: Global, word: &str, text: &[u8]) -> Result<(), Unread> {
        if word == "settings" {
            return self.read_settings(alloc, text);
        }
        self.is_begun = true;
        let mut words = Words::new(alloc, text);
        if word == "write" {
            let sync = words.is_last(b" sync");
            words.end()?;
            return self.add_write(alloc, sync);
        }
        if let Some(change) = read_change(word, &mut words)? {
            words.end()?;
            self.batch.push(change)?;
            return Ok(());
        }
        let Some(event) = read_event(word, &mut words)? else {
            return Err(Unread::Form);
        };
        words.end()?;
        self.session.events.push(event)?;
        Ok(())
    }

    /// Reads the settings. Fails if another command came before.
    fn read_settings(&mut self, alloc: Global, text: &[u8]) -> Result<(), Unread> {
        if self.is_begun {
            return Err(Unread::Form);
        }
        self.is_begun = true;
        self.session.config = read_settings(alloc, text)?;
        Ok(())
    }

    /// Adds a write of the batch, with a sync or not.
    fn add_write(&mut self, alloc: Global, sync: bool) -> Result<(), Unread> {
        let mut batch = Items::new(alloc);
        std::mem::swap(&mut self.batch, &mut batch);
        self.session
            .events
            .push(Event::Serve(Call::Write { batch, sync }))?;
        Ok(())
    }

    /// Returns the session. Fails if the last batch isn't written.
    fn finish(self) -> Result<Session, SessionFault> {
        let Reading {
            session,
            batch,
            is_begun: _is_begun,
        } = self;
        if !batch.is_empty() {
            return Err(SessionFault::Unwritten);
        }
        Ok(session)
    }
}
