//! The model of a fresh directory is sound. It stays sound if groups without entries are renumbered.

ghost use Rattle.std.specs.Prelude.{ℕ, List};
ghost use Rattle.raft_log_model_laws.specs.Groups.{Map};
ghost use Rattle.raft_log_model_laws.specs.Item.{Record};
ghost use Rattle.raft_log_machine_laws.specs.Whereabouts.{IsRenumbered, Whereabouts};
ghost use Rattle.raft_log_machine_laws.specs.Log.{Stands, View};
ghost use Rattle.raft_log_machine_laws.specs.Model.{fresh_model, running, Files, IsModelSound};

/// A fresh directory, two queues whose file 1 is empty, is sound.
pub fn fresh_model_is_sound<E, V>()
    ensures { IsModelSound (fresh_model {E = E} {V = V}) }
{}

/// The `whereabouts` of a group without entries may begin at any index up to 2^64 - 1 at any time. The model stays
/// sound, and the view stays true.
pub fn renumbered_groups_are_sound<E, V>()
    ensures model { (f : Files E V) (m : Map E V) (whereabouts next : ℕ → Whereabouts)
        → ((g : ℕ) → IsRenumbered (whereabouts g) (next g))
        → IsModelSound (running f m whereabouts) → IsModelSound (running f m next) }
    ensures view { (v : View E V) (f : Files E V) (m : Map E V) (pending : List (Record E V))
        (next : ℕ → Whereabouts) → ((g : ℕ) → IsRenumbered (v.whereabouts g) (next g))
        → Stands v f m pending → Stands (record v { whereabouts = next }) f m pending }
{}
