//! A purge leaves the meaning unchanged.

ghost use Rattle.std.specs.Prelude.{◌≡◌, ℕ, List};
ghost use Rattle.raft_log_model_laws.specs.Meaning.{Slot};
ghost use Rattle.raft_log_machine_laws.specs.Machine.{Event, IsKept, Machine, Steps};
ghost use Rattle.raft_log_machine_laws.specs.Purge.{meaning_there, AllOwn, Reading};

/// A purge changes no meaning, whether it succeeds or fails, and wherever it stops. After any events of the engine's
/// own, and from any start of each queue, the files mean what they meant before from any start. Pending records are
/// read too.
pub fn purge_is_invisible<E, V>()
    ensures { (events : List (Event E V)) (w v : Machine E V) → AllOwn events → Steps w events v → IsKept w
        → (before : Reading w.store) (later : Reading v.store) (g : ℕ) (s : Slot)
        → meaning_there v.store later g s ≡ meaning_there w.store before g s }
{}
