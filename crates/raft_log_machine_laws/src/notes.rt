//! The files noted for each slot. A queue may begin at the least of them, because the files that stay hold all that the
//! queue stores.

ghost use Rattle.std.specs.Prelude.{◌≡◌, ◌⊎◌, ◌∷◌, ℕ, List, ◌++◌, [], Option};
ghost use Rattle.raft_log_model_laws.specs.Groups.{appended, rewritten, Map};
ghost use Rattle.raft_log_model_laws.specs.Item.{Item, Record};
ghost use Rattle.raft_log_model_laws.specs.Meaning.{says, Content, Slot};
ghost use Rattle.raft_log_machine_laws.specs.Files.{records_of, span, FileQueue, IsNumbered, LogFile};
ghost use Rattle.raft_log_machine_laws.specs.Survival.{IsSpoken};
ghost use Rattle.raft_log_machine_laws.specs.Whereabouts.{CarriesAll, GrowsBy, HasAppended, HasRewritten, OwesNothing, Whereabouts};
ghost use Rattle.raft_log_machine_laws.specs.Log.{Stands, View};
ghost use Rattle.raft_log_machine_laws.specs.Model.{running, with_append, with_rewrite, Files, IsModelSound};
ghost use Rattle.raft_log_machine_laws.specs.Moves.{grown, raised_files, Moved};
ghost use Rattle.raft_log_machine_laws.specs.Notes.{
  AllBelow,
  AppendStandsFrom,
  AreNoted,
  AreNotedInRewrite,
  IsAppended,
  IsInRewrite,
  Notes,
  RewriteStandsFrom,
  SpeaksFrom,
};

/// Suppose that what counts of Rewrite from a file on says something of a slot. It still does after each record (a
/// begin, a middle or an end), and after syncs, rotations and losses.
pub fn what_speaks_goes_on<E, V>()
    ensures grown { (q : FileQueue E V) (y : Record E V) (g n : ℕ) (s : Slot)
        → SpeaksFrom q g n s → SpeaksFrom (grown q y) g n s }
    ensures moved { (from : ℕ) (q : FileQueue E V) (p : Moved from q) (g n : ℕ) (s : Slot)
        → SpeaksFrom q g n s → SpeaksFrom p.queue g n s }
{}

/// If Append begins at the least file noted for it, or before it, the records that stay hold all that is stored in
/// Append. Nothing may be pending in it.
pub fn noted_files_have_what_is_appended<E, V>()
    ensures { (f : Files E V) (m : Map E V) (whereabouts : ℕ → Whereabouts) (notes : Notes) (n : ℕ)
        (out stay : List (LogFile E V)) → IsModelSound (running f m whereabouts) → f.append.pending ≡ []
        → out ++ stay ≡ f.append.full → AllBelow n out
        → AppendStandsFrom n whereabouts notes → AreNoted whereabouts notes f.append
        → (g : ℕ) → HasAppended (whereabouts g) (appended g (records_of stay ++ f.append.synced)) }
{}

/// Suppose Rewrite begins at the least file noted for it, or before that, and nothing is pending in either queue. Then
/// what counts of the records that stay holds all that is stored there, atomic groups too.
pub fn noted_files_have_what_is_rewritten<E, V>()
    ensures { (f : Files E V) (m : Map E V) (whereabouts : ℕ → Whereabouts) (notes : Notes) (n : ℕ)
        (out stay : List (LogFile E V)) → IsModelSound (running f m whereabouts) → f.append.pending ≡ []
        → f.rewrite.pending ≡ [] → out ++ stay ≡ f.rewrite.full → AllBelow n out
        → RewriteStandsFrom n m whereabouts notes → AreNotedInRewrite m whereabouts notes f.rewrite
        → (g : ℕ) → HasRewritten (m g) (whereabouts g) (rewritten g (records_of stay ++ f.rewrite.synced)) }
{}

/// The view stays true after either queue is raised to a file at or below the least noted one. Nothing may be pending
/// in either queue; for Append no tombstone may be owed either.
pub fn raises_are_followed<E, V>()
    ensures append { (v : View E V) (f : Files E V) (m : Map E V) (n : ℕ) (out stay : List (LogFile E V))
        → f.rewrite.pending ≡ [] → out ++ stay ≡ f.append.full → AllBelow n out
        → ((g : ℕ) → OwesNothing (v.whereabouts g)) → AppendStandsFrom n v.whereabouts v.noted
        → Stands v f m [] → Stands v (with_append f f.append_from (raised_files f.append out stay)) m [] }
    ensures rewrite { (v : View E V) (f : Files E V) (m : Map E V) (n : ℕ) (out stay : List (LogFile E V))
        → f.rewrite.pending ≡ [] → out ++ stay ≡ f.rewrite.full → AllBelow n out
        → RewriteStandsFrom n v.map v.whereabouts v.noted_in_rewrite
        → Stands v f m [] → Stands v (with_rewrite f f.rewrite_from (raised_files f.rewrite out stay)) m [] }
{}

/// A full rewrite leaves one file. Once nothing is stored in Append, no file of it is noted, so it may begin at any of
/// its files. All files but the last are below the last. Once it is raised to the last, its live range is that file
/// alone.
pub fn full_rewrite_leaves_one_file<E, V>()
    ensures notes { (v : View E V) → ((g : ℕ) (s : Slot) → IsAppended (v.whereabouts g) s → ⊥)
        → (n : ℕ) → AppendStandsFrom n v.whereabouts v.noted }
    ensures below { (from : ℕ) (q : FileQueue E V) → IsNumbered from q → AllBelow q.last q.full }
    ensures one { (q : FileQueue E V) → span (raised_files q q.full []) q.pending
        ≡ record { number = q.last; records = q.synced ++ q.pending } ∷ [] }
{}

/// If a list of items puts a slot into a queue, the items say something of the slot. The file of their record may be
/// noted for it. A record of Rewrite puts nothing into Append.
pub fn items_speak_of_what_they_bring<E, V>()
    ensures append { (t u : Whereabouts) (xs : List (Item E V)) (s : Slot)
        → GrowsBy t xs u → IsAppended u s → IsAppended t s ⊎ IsSpoken (says s xs) }
    ensures rewrite { (m : Slot → Option (Content E V)) (t u : Whereabouts) (xs : List (Item E V)) (s : Slot)
        → CarriesAll m t xs u → IsInRewrite u s → IsInRewrite t s ⊎ IsSpoken (says s xs) }
    ensures nothing { (m : Slot → Option (Content E V)) (t u : Whereabouts) (xs : List (Item E V)) (s : Slot)
        → CarriesAll m t xs u → IsAppended u s → IsAppended t s }
{}
