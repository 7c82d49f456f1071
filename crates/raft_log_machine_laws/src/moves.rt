//! An engine's view stays true through any syncs, rotations and losses of old files.

ghost use Rattle.std.specs.Prelude.{◌≡◌, ℕ, ◌+◌, ◌∷◌, List, ◌++◌, [], length};
ghost use Rattle.raft_log_model_laws.specs.Groups.{taken, Map};
ghost use Rattle.raft_log_model_laws.specs.Item.{Record};
ghost use Rattle.raft_log_machine_laws.specs.Files.{LogFile};
ghost use Rattle.raft_log_machine_laws.specs.Log.{Follows, Stands, View};
ghost use Rattle.raft_log_machine_laws.specs.Model.{with_append, with_rewrite, Files};
ghost use Rattle.raft_log_machine_laws.specs.Moves.{rotated, settled_files, Moved};

/// After any quiet events of Append, in any order, a prefix of the batches is synced, the others are pending, and the
/// view is true. Quiet events of Rewrite change nothing.
pub fn quiet_events_are_followed<E, V>()
    ensures append { (v : View E V) (f : Files E V) (m : Map E V) (pending : List (Record E V))
        (a : Moved f.append_from f.append) → Stands v f m pending → Follows v f m pending a }
    ensures rewrite { (v : View E V) (f : Files E V) (m : Map E V) (pending : List (Record E V))
        (r : Moved f.rewrite_from f.rewrite)
        → Stands v f m pending → Stands v (with_rewrite f r.from r.queue) m pending }
{}

/// A sync, a rotation or a truncation syncs Append's active file. After that the map is the one after all pending
/// batches, and none is pending. A lost file changes nothing.
pub fn append_moves_are_followed<E, V>()
    ensures sync { (v : View E V) (f : Files E V) (m : Map E V) (pending : List (Record E V))
        → Stands v f m pending
        → Stands v (with_append f f.append_from (settled_files f.append)) (taken m pending) [] }
    ensures rotation { (v : View E V) (f : Files E V) (m : Map E V) (pending : List (Record E V))
        → Stands v f m pending
        → Stands v (with_append f f.append_from (rotated f.append)) (taken m pending) [] }
    ensures loss { (v : View E V) (f : Files E V) (m : Map E V) (pending : List (Record E V))
        → Stands v f m pending
        → (before : List (LogFile E V)) (file : LogFile E V) (rest : List (LogFile E V))
        → before ++ file ∷ rest ≡ f.append.gone
        → Stands v (with_append f (f.append_from + (length before + 1))
        (record f.append { behind = f.append.behind ++ before; gone = rest })) m pending }
{}

/// A sync, a rotation or a lost file of Rewrite changes nothing.
pub fn rewrite_moves_are_followed<E, V>()
    ensures sync { (v : View E V) (f : Files E V) (m : Map E V) (pending : List (Record E V))
        → Stands v f m pending
        → Stands v (with_rewrite f f.rewrite_from (settled_files f.rewrite)) m pending }
    ensures rotation { (v : View E V) (f : Files E V) (m : Map E V) (pending : List (Record E V))
        → Stands v f m pending
        → Stands v (with_rewrite f f.rewrite_from (rotated f.rewrite)) m pending }
    ensures loss { (v : View E V) (f : Files E V) (m : Map E V) (pending : List (Record E V))
        → Stands v f m pending
        → (before : List (LogFile E V)) (file : LogFile E V) (rest : List (LogFile E V))
        → before ++ file ∷ rest ≡ f.rewrite.gone
        → Stands v (with_rewrite f (f.rewrite_from + (length before + 1))
        (record f.rewrite { behind = f.rewrite.behind ++ before; gone = rest })) m pending }
{}
