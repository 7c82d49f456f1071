//! Several listeners, notified in their order.

ghost use Rattle.std.specs.Prelude.{◌≡◌};
ghost use Rattle.raft_log_file_listeners.specs.Least.{AllHoldBack, BothHoldBack, lesser};

use crate::event_listener::EventListener;
use raft_log_record_base::{FileBlockHandle, FileId, FileSeq, LogQueue};

/// Listeners, which are notified in their order, and after them the engine's own hook.
#[derive(Drop)]
pub struct Listeners<H> {
    listeners: Vec<Box<dyn EventListener>>,
    hook: H,
}

impl<H: EventListener> Listeners<H> {
    /// These listeners, the hook last.
    pub fn new(listeners: Vec<Box<dyn EventListener>>, hook: H) -> Listeners<H>
        ensures listeners { result.listeners ≡ listeners }
        ensures hook { result.hook ≡ hook }
    {
        Listeners { listeners, hook }
    }

    /// The hook.
    pub fn hook(&self) -> &H
        ensures { result.now ≡ self.now.hook }
    {
        &self.hook
    }
}

impl<H: EventListener> EventListener for Listeners<H> {
    ghost holds_back = { λ all queue. BothHoldBack
        (AllHoldBack (λ one. (EventListener-box one).holds_back one.value queue) all.listeners.items)
        (H.holds_back all.hook queue) };

    ghost hears = { λ one old new. H.hears one old.hook new.hook };

    fn post_new_log_file(&mut self, file_id: FileId) {
        for listener in self.listeners.iter_mut() {
            listener.post_new_log_file(file_id);
        }
        self.hook.post_new_log_file(file_id);
    }

    fn on_append_log_file(&mut self, handle: FileBlockHandle) {
        for listener in self.listeners.iter_mut() {
            listener.on_append_log_file(handle);
        }
        self.hook.on_append_log_file(handle);
    }

    fn post_apply_memtables(&mut self, file_id: FileId) {
        for listener in self.listeners.iter_mut() {
            listener.post_apply_memtables(file_id);
        }
        self.hook.post_apply_memtables(file_id);
    }

    /// The least number that one of them returns.
    fn first_file_not_ready_for_purge(&self, queue: LogQueue) -> Option<FileSeq> {
        let least = least_of(self.listeners.as_slice(), queue);
        lesser(least, self.hook.first_file_not_ready_for_purge(queue))
    }

    fn post_purge(&mut self, file_id: FileId) {
        for listener in self.listeners.iter_mut() {
            listener.post_purge(file_id);
        }
        self.hook.post_purge(file_id);
    }
}

/// The least number that one of these listeners returns.
fn least_of(listeners: &[Box<dyn EventListener>], queue: LogQueue) -> Option<FileSeq>
    ensures { AllHoldBack (λ one. holds_back one queue) listeners.now result }
{
    let mut least = None;
    for listener in listeners {
        least = lesser(least, held_by(listener, queue));
    }
    least
}

/// What a listener returns.
fn held_by(listener: &Box<dyn EventListener>, queue: LogQueue) -> Option<FileSeq>
    ensures { holds_back listener.now queue result }
{
    listener.first_file_not_ready_for_purge(queue)
}

/// The lesser of two numbers if both are there, else the one that is.
pub fn lesser(one: Option<FileSeq>, other: Option<FileSeq>) -> Option<FileSeq>
    ensures { result ≡ lesser one other }
{
    match (one, other) {
        (Some(one), Some(other)) => Some(one.min(other)),
        (None, other) => other,
        (one, None) => one,
    }
}
