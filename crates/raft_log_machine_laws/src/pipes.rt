//! The running pipes of an engine: which files they allow.

ghost use Rattle.std.specs.Prelude.{◌≡◌, ℕ, List, ◌++◌};
ghost use Rattle.raft_log_model_laws.specs.Item.{Record};
ghost use Rattle.raft_log_machine_laws.specs.Files.{LogFile};
ghost use Rattle.raft_log_machine_laws.specs.Calls.{
  from_at,
  put,
  queue_at,
  Appends,
  CutsBack,
  IsExactly,
  LeavesOut,
  MayAppend,
  Raises,
  Syncs,
  Which,
};
ghost use Rattle.raft_log_machine_laws.specs.Model.{Files};
ghost use Rattle.raft_log_machine_laws.specs.Moves.{grown, raised_files, rotated, settled_files};
ghost use Rattle.raft_log_machine_laws.specs.Notes.{AllBelow};

/// Defines which numbered files may be there: while the pipes run, from their own state; at any time, from what the
/// images allow.
pub trait TiedFiles {
    /// The type of an entry.
    type Entry;

    /// The type of a key's value.
    type Value;

    ghost ties: { Self → Files Self.Entry Self.Value → Type 0 };

    ghost allows: { Self → Files Self.Entry Self.Value → Type 0 };

    ghost ties_allow: { (s : Self) (f : Files Self.Entry Self.Value) → ties s f → allows s f };
}

/// The definitions of a pipe's calls can be met: a pipe that is nothing but its files appends, truncates, rotates,
/// fails, syncs and raises as they say.
pub fn words_on_pipes_can_be_met<E, V>()
    ensures appends { (which : Which) (f : Files E V) (y : Record E V)
        → Appends IsExactly which y (queue_at which f).last f
        (put which f (from_at which f) (grown (queue_at which f) y)) }
    ensures cuts_back { (which : Which) (f : Files E V)
        → CutsBack IsExactly which f (put which f (from_at which f) (settled_files (queue_at which f))) }
    ensures rotates { (which : Which) (f : Files E V)
        → LeavesOut IsExactly which f (put which f (from_at which f) (rotated (queue_at which f))) }
    ensures fails { (which : Which) (f : Files E V) (y : Record E V)
        → MayAppend IsExactly IsExactly which y f
        (put which f (from_at which f) (grown (queue_at which f) y)) }
    ensures syncs { (which : Which) (f : Files E V)
        → Syncs IsExactly which f (put which f (from_at which f) (settled_files (queue_at which f))) }
    ensures raises { (which : Which) (f : Files E V) (n : ℕ) (out stay : List (LogFile E V))
        → out ++ stay ≡ (queue_at which f).full → AllBelow n out
        → Raises IsExactly IsExactly which n f
        (put which f (from_at which f) (raised_files (queue_at which f) out stay)) }
{}
