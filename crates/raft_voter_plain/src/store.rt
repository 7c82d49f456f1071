//! Voters of many groups in memory, and the plain file that keeps them.
ghost use Rattle.std.specs.Prelude.{◌≡◌, ◌+◌, ◌^◌, ◌<◌, ◌≤◌, [], false, length, vec_capacity, vec_len, IfErr, IfOk, OnErr, OnOk};
ghost use Rattle.raft_voter.specs.Rounds.{after_one, put, TakesFirst};
ghost use Rattle.raft_voter_plain.specs.Content.{after_crash, all_synced, whole};
ghost use Rattle.raft_voter.specs.Rules.{reply};
ghost use Rattle.raft_voter_plain.specs.Damage.{StandsForNothing, TellsDamage};
ghost use Rattle.raft_voter_plain.specs.Records.{may_change, StandsFor, voter_record, world_in};
ghost use Rattle.raft_voter.specs.Service.{AnswersRound, CutRound, CutsOff, FailsAs, FindsVoters, IsAlive, IsFromOutside, LeavesInFiles, LeavesStanding, out_of_range, refused_from, TakesNothing};
ghost use Rattle.raft_voter_plain.specs.Store.{OneIsRefused, FileIsRefusedFor, FileStandsBehind, AnswersNone, plain_files, plain_voters, Takes, TakesAll, world_of};

use crate::file::PlainFile;
use crate::record::{OpenFault, read_voter_record, voter_record};
use raft_voter::{
    Cause, FilesRefused, Items, MAX_ROUND_REQUESTS, Memory, Reply, Request, RoundFault,
    RoundService, StoreFiles, Voter,
};
use std::alloc::Global;
use std::collections::BTreeMap;

/// The voters of many groups in memory, and the file that keeps them. The file is in memory too: if memory runs out in
/// the middle of a round, the round is cut off with `FileSystem`, and the store has failed.
#[derive(Drop)]
pub struct PlainVoters {
    pub alloc: Global,
    pub file: PlainFile,
    pub voters: BTreeMap<u64, Voter>,
    pub failed: bool,
}

/// The error of an open that failed: the fault, and the file.
#[derive(Drop)]
pub struct FileRefused {
    /// The fault.
    pub fault: OpenFault,
    /// The file, returned to the caller.
    pub file: PlainFile,
}

impl PlainVoters {
    /// Opens a file: reads it whole, takes the last record of each group as its voter, and syncs all that was written.
    /// The store hasn't failed then.
    ///
    /// Fails with `Damaged` only if the bytes aren't a sequence of records, or with `Memory`. Then the file is returned
    /// unchanged. An empty file always opens.
    pub fn open(alloc: Global, file: PlainFile) -> Result<PlainVoters, FileRefused>
        ensures synced { IfOk result (λ store. store.file ≡ all_synced file) }
        ensures voters { IfOk result (λ store. StandsFor (whole file) (world_of store)) }
        ensures alive { IfOk result (λ store. store.failed ≡ false) }
        ensures err { IfErr result (λ refused. TellsDamage (StandsForNothing (whole file)) refused.fault) }
        ensures same { IfErr result (λ refused. refused.file ≡ file) }
        ensures errors { OnErr result (0 < length (whole file)) }
    {
        let mut file = file;
        match read_voters(alloc, file.bytes()) {
            Ok(voters) => {
                file.sync();
                Ok(PlainVoters {
                    alloc,
                    file,
                    voters,
                    failed: false,
                })
            }
            Err(fault) => Err(FileRefused { fault, file }),
        }
    }

    /// The voters take requests in order, and their changes are appended to the file. Returns the replies in `replies`,
    /// which must be empty and have room for them. If memory runs out, the voters took a prefix of the requests, and
    /// the synced bytes are unchanged. It can't run out if there are no requests.
    fn take_all(
        &mut self,
        requests: &[(u64, Request)],
        mut replies: Vec<Reply>,
    ) -> Result<Items<Reply>, Memory>
        requires empty { replies.items ≡ [] }
        requires room { vec_len replies + length requests.now ≤ vec_capacity replies }
        ensures ok { IfOk result (λ replies. TakesAll self.old requests.now replies self.new) }
        ensures err { OnErr result (AnswersNone self.old requests.now self.new) }
        ensures errors { OnErr result (0 < length requests.now) }
        ensures failed { self.new.failed ≡ self.old.failed }
    {
        for (group, request) in requests {
            let reply = self.take(*group, request)?;
            replies.push_reserved(reply);
        }
        Ok(Items::from_vec(replies))
    }

    /// A group's voter takes a request, and its change is appended to the file. If memory runs out, the voter may have
    /// taken the request, and the file is unchanged.
    fn take(&mut self, group: u64, request: &Request) -> Result<Reply, Memory>
        ensures ok { IfOk result (λ told. Takes self.old (group, request.now) told self.new) }
        ensures err { OnErr result (OneIsRefused self.old (group, request.now) self.new) }
        ensures failed { self.new.failed ≡ self.old.failed }
    {
        let reply = step(self.alloc, &mut self.voters, group, request)?;
        if !may_change(request) {
            return Ok(reply);
        }
        let record = record_of(self.alloc, &self.voters, group)?;
        self.file.append(record.as_slice())?;
        Ok(reply)
    }

    /// Returns the file.
    pub fn into_file(self) -> PlainFile
        ensures { result ≡ self.file }
    {
        let PlainVoters {
            alloc: _alloc,
            file,
            voters: _voters,
            failed: _failed,
        } = self;
        file
    }
}

impl<R> RoundService<R> for PlainVoters {
    ghost service = { plain_voters };

    fn serve(&mut self, _rt: &R, requests: &[(u64, Request)]) -> Result<Items<Reply>, RoundFault>
        ensures ok { IfOk result (λ told. AnswersRound plain_voters requests.now told self.old self.new) }

        // Exactly the requests out of range are refused.
        ensures refused { IfOk result (λ told. refused_from 0 told ≡ out_of_range 0 requests.now) }
        ensures short { OnOk result (length requests.now ≤ 4096) }
        ensures lives { OnOk result (IsAlive self.old.failed self.new.failed) }
        ensures err { IfErr result (λ fault.
            CutsOff plain_voters fault.cause fault.refused requests.now self.old self.new) }
        ensures errors { IfErr result (λ fault. FailsAs fault.cause (length requests.now) self.old.failed
            self.new.failed) }

        // A fault that takes no request leaves everything unchanged. After any fault, some of the first requests were
        // taken in memory.
        ensures same { IfErr result (λ fault. TakesNothing fault.cause → self.new ≡ self.old) }
        ensures taken { IfErr result (λ fault.
            TakesFirst (world_of self.old) requests.now fault.refused (world_of self.new)) }
    {
        if requests.len() > MAX_ROUND_REQUESTS {
            return Err(RoundFault::new(self.alloc, Cause::TooLong));
        }
        if self.failed {
            return Err(RoundFault::new(self.alloc, Cause::Failed));
        }
        let Ok(room) = Vec::with_capacity(self.alloc, requests.len()) else {
            return Err(RoundFault::new(self.alloc, Cause::Memory));
        };
        let Ok(replies) = self.take_all(requests, room) else {
            self.failed = true;
            return Err(RoundFault::new(self.alloc, Cause::FileSystem));
        };
        self.file.sync();
        Ok(replies)
    }
}

impl<R> StoreFiles<R, PlainVoters> for PlainFile {
    ghost files = { plain_files };

    fn open(self, _rt: &R, alloc: Global) -> Result<PlainVoters, FilesRefused<PlainFile>>
        ensures opens { IfOk result (λ store. store.file ≡ all_synced self) }
        ensures finds { IfOk result (FindsVoters plain_voters plain_files self) }
        ensures alive { IfOk result (λ store. store.failed ≡ false) }
        ensures err { IfErr result (λ refused.
            FileIsRefusedFor self refused.cause × (refused.files ≡ self)) }
        ensures stands { IfErr result (λ refused. LeavesStanding plain_files self self refused.files) }
        ensures errors { IfErr result (λ refused. IsFromOutside refused.cause) }

        // A file that a store wrote can always be read: its open fails only for lack of memory. An empty file always
        // opens.
        ensures readable { IfErr result (λ refused.
            (cut : CutRound) → FileStandsBehind self cut → refused.cause ≡ Cause.Memory) }
        ensures some { OnErr result (0 < length (whole self)) }
    {
        match PlainVoters::open(alloc, self) {
            Ok(store) => Ok(store),
            Err(
                FileRefused {
                    fault: OpenFault::Memory,
                    file,
                },
            ) => Err(FilesRefused {
                cause: Cause::Memory,
                files: file,
            }),
            Err(
                FileRefused {
                    fault: OpenFault::Damaged,
                    file,
                },
            ) => Err(FilesRefused {
                cause: Cause::FileSystem,
                files: file,
            }),
        }
    }

    fn close(store: PlainVoters, _rt: &R) -> PlainFile
        ensures closes { result ≡ store.file }
        ensures stands { LeavesInFiles plain_voters plain_files store result }
    {
        store.into_file()
    }

    fn after_crash(self) -> Result<PlainFile, Memory>
        ensures crashes { IfOk result (λ left. left ≡ after_crash self) }
        ensures stands { IfOk result (λ left. LeavesStanding plain_files left self left) }
        ensures err { OnErr result ⊥ }
    {
        let mut file = self;
        file.crash();
        Ok(file)
    }
}

/// A group's voter takes a request and returns the reply. If memory runs out, no voter changes.
fn step(
    alloc: Global,
    voters: &mut BTreeMap<u64, Voter>,
    group: u64,
    request: &Request,
) -> Result<Reply, Memory>
    ensures replies { IfOk result (λ told. told ≡ reply (world_in voters.old group) request.now) }
    ensures changes { OnOk result
        (world_in voters.new ≡ after_one (world_in voters.old) (group, request.now)) }
    ensures refused { OnErr result (world_in voters.new ≡ world_in voters.old) }
{
    let voter = voters.entry(group)?.or_insert(Voter::new(alloc));
    voter.step(request)
}

/// Returns the record of a group's voter.
fn record_of(alloc: Global, voters: &BTreeMap<u64, Voter>, group: u64) -> Result<Vec<u8>, Memory>
    ensures bytes { IfOk result (λ bytes. bytes.items ≡ voter_record (group, world_in voters.now group)) }
    ensures small { (world_in voters.now group).base_index + length (world_in voters.now group).log < 2 ^ 63 }
{
    match voters.get(&group) {
        Some(voter) => voter_record(alloc, group, voter),
        None => voter_record(alloc, group, &Voter::new(alloc)),
    }
}

/// Whether a request may change its voter.
fn may_change(request: &Request) -> bool
    ensures { result ≡ may_change request.now }
{
    match request {
        Request::Read { from: _, to: _ } | Request::Status => false,
        _ => request.in_range(),
    }
}

/// Reads the voters that a file's bytes store. Fails with `Damaged` only if they aren't a sequence of records.
fn read_voters(alloc: Global, bytes: &[u8]) -> Result<BTreeMap<u64, Voter>, OpenFault>
    ensures ok { IfOk result (λ voters. StandsFor bytes.now (world_in voters)) }
    ensures err { IfErr result (TellsDamage (StandsForNothing bytes.now)) }
    ensures errors { OnErr result (0 < length bytes.now) }
{
    let mut voters = BTreeMap::new(alloc);
    let mut left = bytes;
    while !left.is_empty() {
        let (group, voter, rest) = read_voter_record(alloc, left)?;
        set_voter(&mut voters, group, voter)?;
        left = rest;
    }
    Ok(voters)
}

/// Replaces a group's voter.
fn set_voter(voters: &mut BTreeMap<u64, Voter>, group: u64, voter: Voter) -> Result<(), Memory>
    ensures { OnOk result (world_in voters.new ≡ put (world_in voters.old) group voter) }
{
    match voters.insert(group, voter) {
        Ok(_) => Ok(()),
        Err(_) => Err(Memory),
    }
}
