//! Numbered files: at which of them a recovery may begin, what it reads, and that the laws on records hold for files.

ghost use Rattle.std.specs.Prelude.{◌≡◌, ℕ, ◌+◌, ◌∷◌, List, ◌++◌, []};
ghost use Rattle.raft_log_model_laws.specs.Groups.{Map};
ghost use Rattle.raft_log_model_laws.specs.Item.{Record};
ghost use Rattle.raft_log_machine_laws.specs.Directory.{fresh_directory, Directory, DirectoryEvent, DirectorySteps, OpensInFiles, ReplaysInFiles};
ghost use Rattle.raft_log_machine_laws.specs.Files.{
  numbered_from,
  queue_of,
  records_of,
  store_of,
  LogFile,
  FileEvent,
  FileQueue,
  FileStep,
  IsNumbered,
  IsRead,
  SurvivesInFiles,
};
ghost use Rattle.raft_log_machine_laws.specs.Queue.{left, raised, reread, synced};
ghost use Rattle.raft_log_machine_laws.specs.Survival.{Survives};

/// A recovery may begin at any file up to the first of the live range, as long as no number is missing. It reads a
/// suffix of the records below the live range, then the synced ones in it, then the pending ones that the image kept.
/// It never reads files before a gap.
pub fn reading_is_an_end<E, V>()
    ensures { (n : ℕ) (q : FileQueue E V) (kept : List (Record E V)) (s : ℕ) (files : List (LogFile E V))
        → IsNumbered n q → IsRead n q kept s files
        → (cut back : List (Record E V)) × (cut ++ back ≡ (queue_of q).gone)
        × (records_of files ≡ back ++ ((queue_of q).live ++ kept)) }
{}

/// What survives as records survives as numbered files, from every pair of files at which a recovery may begin.
pub fn records_survive_in_files<E, V>()
    ensures { (n : ℕ) (r : FileQueue E V) (k : ℕ) (a : FileQueue E V) (m : Map E V)
        (batches : List (Record E V)) → IsNumbered n r → IsNumbered k a
        → Survives (store_of r a) m batches → SurvivesInFiles n r k a m batches }
{}

/// Each change of a queue's files keeps their numbers in order: consecutive after the last gap, and lower before it.
/// The first number after the last gap, `numbered_from`, never falls.
pub fn numbers_stay_in_order<E, V>()
    ensures { (e : FileEvent E V) (n : ℕ) (q p : FileQueue E V) → FileStep e q p → IsNumbered n q
        → IsNumbered (numbered_from n e) p }
{}

/// A sync of the active file is a sync of the records.
pub fn sync_of_files<E, V>()
    ensures { (q : FileQueue E V) → queue_of (record q { synced = q.synced ++ q.pending; pending = [] })
        ≡ synced (queue_of q) }
{}

/// For the records, a rotation is only a sync, whether the new file is recycled or not.
pub fn rotation_of_files<E, V>()
    ensures { (q : FileQueue E V)
        → queue_of (record q {
          full = q.full ++ record { number = q.last; records = q.synced ++ q.pending } ∷ [];
          last = q.last + 1;
          synced = [];
          pending = [];
        })
        ≡ synced (queue_of q) }
{}

/// If the first files leave the live range, their records do.
pub fn rise_of_files<E, V>()
    ensures { (q : FileQueue E V) (out stay : List (LogFile E V)) → out ++ stay ≡ q.full
        → (queue_of (record q { gone = q.gone ++ out; full = stay })
        ≡ raised (queue_of q) (records_of out) (records_of stay ++ q.synced))
        × (records_of out ++ (records_of stay ++ q.synced) ≡ (queue_of q).live) }
{}

/// If a gone file is deleted or renamed, its records and all before them are lost, whichever gone file it is.
pub fn loss_of_files<E, V>()
    ensures { (q : FileQueue E V) (before : List (LogFile E V)) (file : LogFile E V)
        (rest : List (LogFile E V)) → before ++ file ∷ rest ≡ q.gone
        → (queue_of (record q { behind = q.behind ++ before; gone = rest })
        ≡ left (queue_of q) (records_of rest))
        × ((records_of before ++ file.records) ++ records_of rest ≡ (queue_of q).gone) }
{}

/// For the records, an open that reads the files `again` and the live range of an image is a `reread`.
pub fn reading_of_files<E, V>()
    ensures { (q : FileQueue E V) (below again : List (LogFile E V)) (kept : List (Record E V))
        → below ++ again ≡ q.gone
        → (queue_of
        (record q { gone = below; full = again ++ q.full; synced = q.synced ++ kept; pending = [] })
        ≡ reread (queue_of q) (records_of below) (records_of again) kept)
        × (records_of below ++ records_of again ≡ (queue_of q).gone) }
{}

/// Start from two queues with an empty file 1 each. After every schedule of events and of changes of files, the
/// directory survives as its map. It does so from every pair of files at which a recovery may begin.
pub fn survives_in_files_always<E, V>()
    ensures { (events : List (DirectoryEvent E V)) (d : Directory E V)
        → DirectorySteps fresh_directory events d
        → SurvivesInFiles d.rewrite_from d.rewrite d.append_from d.append d.machine.map d.append.pending }
{}

/// After every such schedule reading succeeds, whatever an image kept, and from every file at which a recovery may
/// begin. Numbers rise, no run leaves a hole in either queue, and Rewrite's atomic groups are unbroken.
pub fn replays_in_files_always<E, V>()
    ensures { (events : List (DirectoryEvent E V)) (d : Directory E V)
        → DirectorySteps fresh_directory events d
        → ReplaysInFiles d.rewrite_from d.rewrite d.append_from d.append }
{}

/// After every such schedule each reading can be opened, whatever an image kept, and from every pair of files at which
/// a recovery may begin. There is an open after which the files that were read are the live ranges.
pub fn opens_in_files_always<E, V>()
    ensures { (events : List (DirectoryEvent E V)) (d : Directory E V)
        → DirectorySteps fresh_directory events d → OpensInFiles d }
{}
