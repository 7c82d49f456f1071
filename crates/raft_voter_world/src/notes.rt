//! The notes of a run: its rounds, how far those that were cut off were taken, and the voters.
ghost use Rattle.std.specs.Prelude.{◌≡◌, ℕ, ◌++◌, ◌∷◌, [], IsTrue, Option, None, IfOk, OnOk};
ghost use Rattle.raft_voter.specs.Rounds.{are_rising, fresh_world};
ghost use Rattle.raft_voter.specs.Voters.{world_of};
ghost use Rattle.raft_voter_world.specs.Places.{IsPlaceFound};
ghost use Rattle.raft_voter_world.specs.Notes.{cut_of, NotesAnswered, NotesCut, NotesIdle, Settles, NotesShown};

use crate::places::find_place;
use crate::report::WorldReport;
use raft_voter::{Items, Memory, Round, Transcript, Voters};
use std::alloc::Global;

/// A round that was cut off, of which a part may have been taken; the next open shows how far. Also the rounds after
/// it, of which nothing was taken, with their cuts.
#[derive(Drop)]
struct Unsettled {
    round: Round,
    rounds: Vec<Round>,
    cuts: Vec<usize>,
}

/// The notes of a run: the settled rounds, with the cuts of those that were cut off; the voters after them; the round
/// that isn't settled, if there is one; and the events that lost voters.
#[derive(Drop)]
pub struct Notes {
    alloc: Global,
    voters: Voters,
    rounds: Vec<Round>,
    cuts: Vec<usize>,
    unsettled: Option<Unsettled>,
    lost: Vec<usize>,
}

impl Notes {
    /// Returns the notes of a run in which nothing happened yet.
    pub fn new(alloc: Global) -> Notes
        ensures world { world_of result.voters ≡ fresh_world }
        ensures none { result.unsettled ≡ None }
        ensures rounds { result.rounds.items ≡ [] }
        ensures cuts { result.cuts.items ≡ [] }
        ensures lost { result.lost.items ≡ [] }
    {
        Notes {
            alloc,
            voters: Voters::new(alloc),
            rounds: Vec::new(alloc),
            cuts: Vec::new(alloc),
            unsettled: None,
            lost: Vec::new(alloc),
        }
    }

    /// Adds a round that got replies; the voters take its requests. Requires that no round is unsettled, and that the
    /// round's refused places are rising.
    pub fn answered(&mut self, round: Round) -> Result<(), Memory>
        requires none { self.old.unsettled ≡ None }
        requires rising { (high : ℕ) × IsTrue (are_rising 0 high round.refused) }
        ensures { OnOk result (NotesAnswered self.old round self.new) }
    {
        self.voters
            .serve(round.requests.as_slice(), round.refused.as_slice())?;
        self.rounds.push(round)?;
        Ok(())
    }

    /// Adds a round that was cut off, and may have been taken up to some place. Requires that no round is unsettled.
    pub fn cut_off(&mut self, round: Round)
        requires none { self.old.unsettled ≡ None }
        ensures { NotesCut self.old round self.new }
    {
        self.unsettled = Some(Unsettled {
            round,
            rounds: Vec::new(self.alloc),
            cuts: Vec::new(self.alloc),
        });
    }

    /// Adds a round that was cut off, and of which nothing was taken: its cut is 0.
    pub fn idle(&mut self, round: Round) -> Result<(), Memory>
        ensures { OnOk result (NotesIdle self.old round self.new) }
    {
        match &mut self.unsettled {
            Some(unsettled) => {
                unsettled.rounds.push(round)?;
                unsettled.cuts.push(0)?;
                Ok(())
            }
            None => {
                self.rounds.push(round)?;
                self.cuts.push(0)?;
                Ok(())
            }
        }
    }

    /// Notes that an open showed these voters: the unsettled round was taken up to the least place that fits. If no
    /// place fits, this event lost voters, and the cut is 0.
    pub fn show(&mut self, event: usize, shown: Voters) -> Result<(), Memory>
        ensures { OnOk result ((place : Option ℕ) × NotesShown self.old event (world_of shown) place self.new) }
    {
        let found = self.look_for(&shown)?;
        self.voters = shown;
        match found {
            Some(place) => self.settle(place),
            None => {
                self.lost.push(event)?;
                self.settle(0)
            }
        }
    }

    /// Returns the least place up to which taking the unsettled round leads to these voters, or `None` if no place
    /// fits. If no round is unsettled, returns 0 if these are the voters. The voters take the round up to there, or all
    /// of it.
    fn look_for(&mut self, shown: &Voters) -> Result<Option<usize>, Memory>
        ensures found { IfOk result (IsPlaceFound (cut_of self.old) (world_of shown.now)) }
        ensures rounds { self.new.rounds ≡ self.old.rounds }
        ensures cuts { self.new.cuts ≡ self.old.cuts }
        ensures unsettled { self.new.unsettled ≡ self.old.unsettled }
        ensures lost { self.new.lost ≡ self.old.lost }
    {
        let voters = &mut self.voters;
        match &self.unsettled {
            Some(unsettled) => {
                let requests = unsettled.round.requests.as_slice();
                let refused = unsettled.round.refused.as_slice();
                find_place(self.alloc, voters, shown, requests, refused)
            }
            None => find_place(self.alloc, voters, shown, &[], &[]),
        }
    }

    /// Returns the report of a run that left these files.
    pub fn into_report<F>(self, files: F) -> WorldReport<F>
        ensures { result ≡ record {
          transcript = record { rounds = self.rounds.items };
          cuts = self.cuts.items;
          files = files;
          lost = self.lost.items;
        } }
    {
        WorldReport {
            transcript: Transcript {
                rounds: Items::from_vec(self.rounds),
            },
            cuts: Items::from_vec(self.cuts),
            files,
            lost: Items::from_vec(self.lost),
        }
    }

    /// Settles the run: the unsettled round, if there is one, was taken up to this place.
    pub fn settle(&mut self, place: usize) -> Result<(), Memory>
        ensures settles { OnOk result (Settles self.old place self.new) }
        ensures voters { self.new.voters ≡ self.old.voters }
        ensures lost { self.new.lost ≡ self.old.lost }
    {
        let Some(mut unsettled) = self.unsettled.take() else {
            return Ok(());
        };
        self.rounds.push(unsettled.round)?;
        self.rounds.append(&mut unsettled.rounds)?;
        self.cuts.push(place)?;
        self.cuts.append(&mut unsettled.cuts)?;
        Ok(())
    }
}
