//! How an engine's view changes with each record that a queue appends.

ghost use Rattle.std.specs.Prelude.{◌∷◌, ℕ, List, ◌++◌, []};
ghost use Rattle.raft_log_model_laws.specs.Groups.{Map};
ghost use Rattle.raft_log_model_laws.specs.Item.Mark.{Begin, End, Middle};
ghost use Rattle.raft_log_model_laws.specs.Item.Record.{Part, Plain};
ghost use Rattle.raft_log_model_laws.specs.Item.{Record, Tagged};
ghost use Rattle.raft_log_machine_laws.specs.Machine.{AllFit};
ghost use Rattle.raft_log_machine_laws.specs.Log.{Stands, View};
ghost use Rattle.raft_log_machine_laws.specs.Model.{with_append, with_rewrite, Files};
ghost use Rattle.raft_log_machine_laws.specs.Moves.{grown, Moved};
ghost use Rattle.raft_log_machine_laws.specs.Notes.{GoesOnFrom};
ghost use Rattle.raft_log_machine_laws.specs.Tables.{CarriesTo, EndsGroupTo, GrowsTo};

/// A batch appended to Append is one more pending batch, and is noted in the active file.
pub fn batch_is_followed<E, V>()
    ensures { (v u : View E V) (f : Files E V) (m : Map E V) (pending : List (Record E V)) (y : Record E V)
        → GrowsTo y f.append.last v u → Stands v f m pending
        → Stands u (with_append f f.append_from (grown f.append y)) m (pending ++ y ∷ []) }
{}

/// Tombstones, copies out of Append and restated records, in one record of Rewrite, while no batch is pending. The map
/// stays, and what they put into Rewrite is noted in its active file.
pub fn copies_are_followed<E, V>()
    ensures { (v u : View E V) (f : Files E V) (m : Map E V) (xs : List (Tagged E V))
        → CarriesTo xs f.rewrite.last v u → Stands v f m []
        → Stands u (with_rewrite f f.rewrite_from (grown f.rewrite (Plain xs))) m [] }
{}

/// The begin and each middle of an atomic group change nothing in the view.
pub fn unended_group_is_followed<E, V>()
    ensures begin { (v : View E V) (f : Files E V) (m : Map E V) (pending : List (Record E V)) (n : ℕ)
        (xs : List (Tagged E V)) → AllFit xs → Stands v f m pending
        → Stands v (with_rewrite f f.rewrite_from (grown f.rewrite (Part (Begin n) xs))) m pending }
    ensures middle { (v : View E V) (f : Files E V) (m : Map E V) (pending : List (Record E V)) (from n : ℕ)
        (first : List (Tagged E V)) (more : List (List (Tagged E V))) (xs : List (Tagged E V))
        → AllFit xs → GoesOnFrom f.rewrite from n first more → Stands v f m pending
        → Stands v (with_rewrite f f.rewrite_from (grown f.rewrite (Part (Middle n) xs))) m pending }
{}

/// At its end an atomic group counts as one record would, if no batch is pending. What it puts into Rewrite is noted in
/// the file of its begin.
pub fn ended_group_is_followed<E, V>()
    ensures { (v u : View E V) (f : Files E V) (m : Map E V) (from n : ℕ) (first : List (Tagged E V))
        (more : List (List (Tagged E V))) (xs : List (Tagged E V))
        → EndsGroupTo first more xs from v u → GoesOnFrom f.rewrite from n first more → Stands v f m []
        → Stands u (with_rewrite f f.rewrite_from (grown f.rewrite (Part (End n) xs))) m [] }
{}

/// After its begin an atomic group is in files from the begin's file on. This stays true with each middle, and through
/// rotations, syncs and losses between its records.
pub fn group_goes_on_from_its_begin<E, V>()
    ensures begin { (f : Files E V) (n : ℕ) (xs : List (Tagged E V))
        → GoesOnFrom (grown f.rewrite (Part (Begin n) xs)) f.rewrite.last n xs [] }
    ensures middle { (f : Files E V) (from n : ℕ) (first : List (Tagged E V))
        (more : List (List (Tagged E V))) (xs : List (Tagged E V)) → GoesOnFrom f.rewrite from n first more
        → GoesOnFrom (grown f.rewrite (Part (Middle n) xs)) from n first (more ++ xs ∷ []) }
    ensures moves { (f : Files E V) (r : Moved f.rewrite_from f.rewrite) (from n : ℕ)
        (first : List (Tagged E V)) (more : List (List (Tagged E V)))
        → GoesOnFrom f.rewrite from n first more → GoesOnFrom r.queue from n first more }
{}
