//! Serves rounds of requests.
ghost use Rattle.std.specs.Prelude.{◌≡◌, ◌+◌, ◌<◌, ◌≤◌, ◌++◌, ◌∷◌, [], false, length, All, vec_capacity, vec_len, IfErr, IfOk, OnErr, OnOk};
ghost use Rattle.raft_log_engine.specs.raft_log_engine_core.specs.Reads.{shows_of};
ghost use Rattle.raft_voter.specs.Service.{refused_from};

use super::LogVoterStore;
use crate::refusals::{Refusal, RefusalCause, note, note_told};
use log::Log;
use raft_log_engine::PipeLog;
use raft_voter::{Cause, MAX_ROUND_REQUESTS, RoundFault};
use raft_voter_messages::{Items, Reply, Request};

impl<P: PipeLog> LogVoterStore<P> {
    ghost use Rattle.std.specs.Prelude.{IfSome, OnSome};
    ghost use Rattle.raft_log_engine.specs.raft_log_engine_laws.specs.EngineState.{has_failed};
    ghost use Rattle.raft_voter.specs.Service.{FailsAs, IsAlive, TakesNothing};
    ghost use Rattle.raft_voter_outline.specs.Kept.{outlines_in};
    ghost use Rattle.raft_voter_durability_laws.specs.Requests.{Broke};
    ghost use Rattle.raft_voter_store.specs.Counting.{after_fault, with_round, CountsRound};
    ghost use Rattle.raft_voter_store.specs.Refusals.{AppendsCutRefusals, AppendsRefusals, AreExcused};
    ghost use Rattle.raft_voter_store.specs.Rounds.{CutsRoundOff, GoesOn, NotesOn, Passes, RoundIsAnswered, StopsAt};
    ghost use Rattle.raft_voter_store.specs.Silence.{AsksForNone, IfVoterStays, IfVotersStay, ReadsAlone};

    /// Serves the requests in order, and returns one reply for each. The reply is `Refused` for a request that is out
    /// of range or was rejected. It returns the replies after all that was written is synced; if nothing was written it
    /// doesn't sync.
    ///
    /// Checks for `TooLong`, `Failed` and `Memory`, in this order, before it serves anything. It fails with
    /// `FileSystem` if the engine failed at a request, or the sync failed; some of the first requests may be taken
    /// then.
    pub fn serve<R: Log>(
        &mut self,
        rt: &R,
        requests: &[(u64, Request)],
    ) -> Result<Items<Reply>, RoundFault>
        ensures ok { IfOk result (λ told. RoundIsAnswered requests.now told
            (shows_of P.shown self.old.engine) (shows_of P.shown self.new.engine)
            (outlines_in self.old.outlines) (outlines_in self.new.outlines)) }
        ensures excused { IfOk result (λ told. AreExcused requests.now told
            (shows_of P.shown self.old.engine) (shows_of P.shown self.new.engine) (outlines_in self.old.outlines)) }
        ensures all { IfOk result (λ told. length told ≡ length requests.now) }
        ensures short { OnOk result (length requests.now ≤ 4096) }
        ensures lives { OnOk result (IsAlive (has_failed (shows_of P.shown self.old.engine))
            (has_failed (shows_of P.shown self.new.engine))) }

        ensures err { IfErr result (λ fault. TakesNothing fault.cause
            → (self.new ≡ self.old) × (fault.refused ≡ [])) }
        ensures cut { IfErr result (λ fault. fault.cause ≡ Cause.FileSystem
            → CutsRoundOff requests.now fault.refused (shows_of P.shown self.old.engine)
            (shows_of P.shown self.new.engine) (outlines_in self.old.outlines)) }
        ensures errors { IfErr result (λ fault. FailsAs fault.cause (length requests.now)
            (has_failed (shows_of P.shown self.old.engine)) (has_failed (shows_of P.shown self.new.engine))) }

        // A round with replies is counted, and its sync if it wrote a record. A round that was cut off in its midst is
        // counted without a sync.
        ensures counted { IfOk result (λ told. CountsRound requests.now told
            (shows_of P.shown self.old.engine) (shows_of P.shown self.new.engine)
            (outlines_in self.old.outlines) (outlines_in self.new.outlines) self.old.work self.new.work) }
        ensures faults { IfErr result (λ fault. self.new.work
            ≡ after_fault fault.cause self.old.work (length requests.now)) }

        // A round that changes no voter only reads: it writes and syncs no file. So the files, what is pending in them
        // and the failures that were counted are unchanged. If it also requests no entries, it leaves the whole store
        // unchanged, with its file system, except that it counts the round and its requests.
        ensures quiet { IfVotersStay (outlines_in self.old.outlines) requests.now
            (ReadsAlone (shows_of P.shown self.old.engine) (shows_of P.shown self.new.engine)
            self.old.outlines self.new.outlines) }
        ensures idle { OnOk result (All AsksForNone requests.now
            → IfVotersStay (outlines_in self.old.outlines) requests.now
            (self.new ≡ record self.old { work = with_round self.old.work (length requests.now) false })) }
        ensures unmoved { OnErr result (All AsksForNone requests.now
            → IfVotersStay (outlines_in self.old.outlines) requests.now (self.new ≡ self.old)) }
    {
        let mut refusals: Vec<Refusal> = Vec::new(self.alloc);
        self.serve_noting(rt, requests, &mut refusals, 0)
    }

    /// Serves a round as `serve` does, and appends its refusals to `refusals`, each with its cause, in the order of the
    /// requests. If it fails with `FileSystem`, it appends those at the fault's places. If it fails for another cause,
    /// it appends nothing.
    ///
    /// Fails as `serve` does. The error is also `Memory` if there is no memory for one refusal for each request.
    pub fn serve_with_causes<R: Log>(
        &mut self,
        rt: &R,
        requests: &[(u64, Request)],
        refusals: &mut Vec<Refusal>,
    ) -> Result<Items<Reply>, RoundFault>
        ensures ok { IfOk result (λ told. RoundIsAnswered requests.now told
            (shows_of P.shown self.old.engine) (shows_of P.shown self.new.engine)
            (outlines_in self.old.outlines) (outlines_in self.new.outlines)) }
        ensures excused { IfOk result (λ told. AreExcused requests.now told
            (shows_of P.shown self.old.engine) (shows_of P.shown self.new.engine) (outlines_in self.old.outlines)) }
        ensures all { IfOk result (λ told. length told ≡ length requests.now) }
        ensures short { OnOk result (length requests.now ≤ 4096) }
        ensures lives { OnOk result (IsAlive (has_failed (shows_of P.shown self.old.engine))
            (has_failed (shows_of P.shown self.new.engine))) }

        ensures err { IfErr result (λ fault. TakesNothing fault.cause
            → (self.new ≡ self.old) × (fault.refused ≡ [])) }
        ensures cut { IfErr result (λ fault. fault.cause ≡ Cause.FileSystem
            → CutsRoundOff requests.now fault.refused (shows_of P.shown self.old.engine)
            (shows_of P.shown self.new.engine) (outlines_in self.old.outlines)) }
        ensures errors { IfErr result (λ fault. FailsAs fault.cause (length requests.now)
            (has_failed (shows_of P.shown self.old.engine)) (has_failed (shows_of P.shown self.new.engine))) }

        // A round with replies is counted, and its sync if it wrote a record. A round that was cut off in its midst is
        // counted without a sync.
        ensures counted { IfOk result (λ told. CountsRound requests.now told
            (shows_of P.shown self.old.engine) (shows_of P.shown self.new.engine)
            (outlines_in self.old.outlines) (outlines_in self.new.outlines) self.old.work self.new.work) }
        ensures faults { IfErr result (λ fault. self.new.work
            ≡ after_fault fault.cause self.old.work (length requests.now)) }

        // A round that changes no voter only reads: it writes and syncs no file. So the files, what is pending in them
        // and the failures that were counted are unchanged. If it also requests no entries, it leaves the whole store
        // unchanged, with its file system, except that it counts the round and its requests.
        ensures quiet { IfVotersStay (outlines_in self.old.outlines) requests.now
            (ReadsAlone (shows_of P.shown self.old.engine) (shows_of P.shown self.new.engine)
            self.old.outlines self.new.outlines) }
        ensures idle { OnOk result (All AsksForNone requests.now
            → IfVotersStay (outlines_in self.old.outlines) requests.now
            (self.new ≡ record self.old { work = with_round self.old.work (length requests.now) false })) }
        ensures unmoved { OnErr result (All AsksForNone requests.now
            → IfVotersStay (outlines_in self.old.outlines) requests.now (self.new ≡ self.old)) }

        // Each refusal is appended with its cause. Nothing is appended if no request was served.
        ensures causes { IfOk result (λ told. AppendsRefusals requests.now told
            refusals.old.items refusals.new.items
            (shows_of P.shown self.old.engine) (shows_of P.shown self.new.engine) (outlines_in self.old.outlines)) }
        ensures cut_causes { IfErr result (λ fault. fault.cause ≡ Cause.FileSystem
            → AppendsCutRefusals requests.now fault.refused refusals.old.items refusals.new.items
            (shows_of P.shown self.old.engine) (shows_of P.shown self.new.engine) (outlines_in self.old.outlines)) }
        ensures none { IfErr result (λ fault. TakesNothing fault.cause
            → refusals.new.items ≡ refusals.old.items) }
    {
        self.serve_noting(rt, requests, refusals, requests.len())
    }

    /// Serves a round as `serve` does, and notes its refusals, if `room` is at least the number of requests. It makes
    /// room for so many refusals before it serves anything.
    fn serve_noting<R: Log>(
        &mut self,
        rt: &R,
        requests: &[(u64, Request)],
        refusals: &mut Vec<Refusal>,
        room: usize,
    ) -> Result<Items<Reply>, RoundFault>
        ensures ok { IfOk result (λ told. RoundIsAnswered requests.now told
            (shows_of P.shown self.old.engine) (shows_of P.shown self.new.engine)
            (outlines_in self.old.outlines) (outlines_in self.new.outlines)) }
        ensures excused { IfOk result (λ told. AreExcused requests.now told
            (shows_of P.shown self.old.engine) (shows_of P.shown self.new.engine) (outlines_in self.old.outlines)) }
        ensures all { IfOk result (λ told. length told ≡ length requests.now) }
        ensures short { OnOk result (length requests.now ≤ 4096) }
        ensures lives { OnOk result (IsAlive (has_failed (shows_of P.shown self.old.engine))
            (has_failed (shows_of P.shown self.new.engine))) }

        ensures err { IfErr result (λ fault. TakesNothing fault.cause
            → (self.new ≡ self.old) × (fault.refused ≡ [])) }
        ensures cut { IfErr result (λ fault. fault.cause ≡ Cause.FileSystem
            → CutsRoundOff requests.now fault.refused (shows_of P.shown self.old.engine)
            (shows_of P.shown self.new.engine) (outlines_in self.old.outlines)) }
        ensures errors { IfErr result (λ fault. FailsAs fault.cause (length requests.now)
            (has_failed (shows_of P.shown self.old.engine)) (has_failed (shows_of P.shown self.new.engine))) }

        // A round with replies is counted, and its sync if it wrote a record. A round that was cut off in its midst is
        // counted without a sync.
        ensures counted { IfOk result (λ told. CountsRound requests.now told
            (shows_of P.shown self.old.engine) (shows_of P.shown self.new.engine)
            (outlines_in self.old.outlines) (outlines_in self.new.outlines) self.old.work self.new.work) }
        ensures faults { IfErr result (λ fault. self.new.work
            ≡ after_fault fault.cause self.old.work (length requests.now)) }

        // A round that changes no voter only reads: it writes and syncs no file. So the files, what is pending in them
        // and the failures that were counted are unchanged. If it also requests no entries, it leaves the whole store
        // unchanged, with its file system, except that it counts the round and its requests.
        ensures quiet { IfVotersStay (outlines_in self.old.outlines) requests.now
            (ReadsAlone (shows_of P.shown self.old.engine) (shows_of P.shown self.new.engine)
            self.old.outlines self.new.outlines) }
        ensures idle { OnOk result (All AsksForNone requests.now
            → IfVotersStay (outlines_in self.old.outlines) requests.now
            (self.new ≡ record self.old { work = with_round self.old.work (length requests.now) false })) }
        ensures unmoved { OnErr result (All AsksForNone requests.now
            → IfVotersStay (outlines_in self.old.outlines) requests.now (self.new ≡ self.old)) }

        // With room for all refusals, each is noted with its cause. Nothing is noted if no request was served.
        ensures causes { IfOk result (λ told. length requests.now ≤ room → AppendsRefusals requests.now told
            refusals.old.items refusals.new.items
            (shows_of P.shown self.old.engine) (shows_of P.shown self.new.engine) (outlines_in self.old.outlines)) }
        ensures cut_causes { IfErr result (λ fault. fault.cause ≡ Cause.FileSystem
            → length requests.now ≤ room → AppendsCutRefusals requests.now fault.refused
            refusals.old.items refusals.new.items
            (shows_of P.shown self.old.engine) (shows_of P.shown self.new.engine) (outlines_in self.old.outlines)) }
        ensures none { IfErr result (λ fault. TakesNothing fault.cause
            → refusals.new.items ≡ refusals.old.items) }
    {
        if requests.len() > MAX_ROUND_REQUESTS {
            return Err(RoundFault::new(self.alloc, Cause::TooLong));
        }
        if self.engine.is_failed() {
            return Err(RoundFault::new(self.alloc, Cause::Failed));
        }
        let Ok(()) = refusals.reserve(room) else {
            return Err(RoundFault::new(self.alloc, Cause::Memory));
        };
        let Ok(mut replies) = Vec::with_capacity(self.alloc, requests.len()) else {
            return Err(RoundFault::new(self.alloc, Cause::Memory));
        };
        let Ok(places) = Vec::with_capacity(self.alloc, requests.len()) else {
            return Err(RoundFault::new(self.alloc, Cause::Memory));
        };
        let before = self.work;
        let Some(wrote) = self.take_all(rt, requests, &mut replies, refusals) else {
            self.work = before.with_round(requests.len(), false);
            return Err(cut_off(replies.as_slice(), places));
        };
        if wrote {
            let Ok(()) = self.engine.sync(rt) else {
                self.work = before.with_round(requests.len(), false);
                return Err(cut_off(replies.as_slice(), places));
            };
        }
        self.work = before.with_round(requests.len(), wrote);
        Ok(Items::from_vec(replies))
    }

    /// Serves the requests in order, and appends their replies, for which there is room; a request that is rejected
    /// gets `Refused`. Notes the refusals as far as there is room. Returns whether a record was written, or none if the
    /// engine failed at a request.
    fn take_all<R: Log>(
        &mut self,
        rt: &R,
        requests: &[(u64, Request)],
        replies: &mut Vec<Reply>,
        refusals: &mut Vec<Refusal>,
    ) -> Option<bool>
        requires lives { has_failed (shows_of P.shown self.old.engine) ≡ false }
        requires empty { replies.old.items ≡ [] }
        requires room { vec_len replies.old + length requests.now ≤ vec_capacity replies.old }
        ensures went { IfSome result (λ wrote. Passes requests.now replies.new.items wrote
            (shows_of P.shown self.old.engine) (shows_of P.shown self.new.engine)
            (outlines_in self.old.outlines) (outlines_in self.new.outlines)) }
        ensures broke { result ≡ None → StopsAt requests.now replies.new.items
            (shows_of P.shown self.old.engine) (shows_of P.shown self.new.engine)
            (outlines_in self.old.outlines) }
        ensures all { OnSome result (length replies.new.items ≡ length requests.now) }
        ensures few { length replies.new.items ≤ length requests.now }
        ensures noted { vec_len refusals.old + length requests.now ≤ vec_capacity refusals.old
            → AppendsRefusals requests.now replies.new.items refusals.old.items refusals.new.items
            (shows_of P.shown self.old.engine) (shows_of P.shown self.new.engine) (outlines_in self.old.outlines) }
        ensures unwritten { IfSome result (λ wrote. IfVotersStay (outlines_in self.old.outlines)
            requests.now (wrote ≡ false)) }
        ensures quiet { IfVotersStay (outlines_in self.old.outlines) requests.now
            (ReadsAlone (shows_of P.shown self.old.engine) (shows_of P.shown self.new.engine)
            self.old.outlines self.new.outlines) }
        ensures idle { All AsksForNone requests.now
            → IfVotersStay (outlines_in self.old.outlines) requests.now (self.new ≡ self.old) }
    {
        let mut wrote = false;
        for (group, request) in requests {
            let Some(more) = self.serve_one(rt, *group, request, wrote, replies, refusals) else {
                return None;
            };
            wrote = more;
        }
        Some(wrote)
    }

    /// Serves one request of a round. Appends its reply, for which there is room, or `Refused` if it is rejected. Notes
    /// its refusal if there is room. Returns whether a record was written by then, or none if the engine failed at the
    /// request.
    fn serve_one<R: Log>(
        &mut self,
        rt: &R,
        group: u64,
        request: &Request,
        wrote: bool,
        replies: &mut Vec<Reply>,
        refusals: &mut Vec<Refusal>,
    ) -> Option<bool>
        requires lives { has_failed (shows_of P.shown self.old.engine) ≡ false }
        requires room { vec_len replies.old < vec_capacity replies.old }
        ensures went { IfSome result (λ more. GoesOn (group, request.now) wrote more
            replies.old.items replies.new.items
            (shows_of P.shown self.old.engine) (shows_of P.shown self.new.engine)
            (outlines_in self.old.outlines) (outlines_in self.new.outlines)) }
        ensures lives { OnSome result (has_failed (shows_of P.shown self.new.engine) ≡ false) }
        ensures count { OnSome result (length replies.new.items ≡ length replies.old.items + 1) }
        ensures len { OnSome result (vec_len replies.new ≡ vec_len replies.old + 1) }
        ensures room { OnSome result (vec_capacity replies.old ≤ vec_capacity replies.new) }
        ensures noted { OnSome result (vec_len refusals.old < vec_capacity refusals.old
            → NotesOn (group, request.now) replies.old.items replies.new.items
            refusals.old.items refusals.new.items
            (shows_of P.shown self.old.engine) (shows_of P.shown self.new.engine) (outlines_in self.old.outlines)) }
        ensures notes { vec_len refusals.new ≤ vec_len refusals.old + 1 }
        ensures note_room { vec_capacity refusals.old ≤ vec_capacity refusals.new }
        ensures unnoted { result ≡ None → refusals.new.items ≡ refusals.old.items }
        ensures broke { result ≡ None → Broke (group, request.now)
            (shows_of P.shown self.old.engine) (shows_of P.shown self.new.engine)
            (outlines_in self.old.outlines) }
        ensures untold { result ≡ None → replies.new.items ≡ replies.old.items }
        ensures unwritten { IfSome result (λ more. IfVoterStays (outlines_in self.old.outlines)
            (group, request.now) (more ≡ wrote)) }
        ensures quiet { IfVoterStays (outlines_in self.old.outlines) (group, request.now)
            (ReadsAlone (shows_of P.shown self.old.engine) (shows_of P.shown self.new.engine)
            self.old.outlines self.new.outlines) }
        ensures idle { AsksForNone (group, request.now)
            → IfVoterStays (outlines_in self.old.outlines) (group, request.now) (self.new ≡ self.old) }
    {
        match self.take(rt, group, request) {
            Ok(taken) => {
                note_told(refusals, replies.len(), &taken.reply);
                replies.push_reserved(taken.reply);
                Some(wrote || taken.wrote)
            }
            Err(error) => {
                if self.engine.is_failed() {
                    return None;
                }
                note(refusals, replies.len(), RefusalCause::Rejected(error));
                replies.push_reserved(Reply::Refused);
                Some(wrote)
            }
        }
    }
}

/// The fault of a round that had these replies when the file system failed; there is room for its places.
fn cut_off(replies: &[Reply], places: Vec<usize>) -> RoundFault
    requires empty { places.items ≡ [] }
    requires room { vec_len places + length replies.now ≤ vec_capacity places }
    ensures { result ≡ record { refused = refused_from 0 replies.now; cause = Cause.FileSystem } }
{
    let mut refused = places;
    for place in 0..replies.len() {
        note_refused(&mut refused, place, &replies[place]);
    }
    RoundFault {
        refused: Items::from_vec(refused),
        cause: Cause::FileSystem,
    }
}

/// Appends a place if its reply is `Refused`; there is room for it.
fn note_refused(refused: &mut Vec<usize>, place: usize, reply: &Reply)
    requires { vec_len refused.old < vec_capacity refused.old }
    ensures places { refused.new.items ≡ refused.old.items ++ refused_from place (reply.now ∷ []) }
    ensures len { vec_len refused.new ≤ vec_len refused.old + 1 }
    ensures room { vec_capacity refused.old ≤ vec_capacity refused.new }
{
    match reply {
        Reply::Refused => refused.push_reserved(place),
        _ => {}
    }
}
