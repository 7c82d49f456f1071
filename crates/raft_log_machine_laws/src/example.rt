//! A schedule that can happen: one group's entries and key are written, copied into Rewrite by two purges, and read
//! again from recycled files after a crash. It shows that the requirements of these events can be met, one after the
//! other.

ghost use Rattle.std.specs.Prelude.{◌≡◌, ℕ};
ghost use Rattle.raft_log_machine_laws.specs.Example.{purged_twice, read_again, two_purges};
ghost use Rattle.raft_log_machine_laws.specs.Fresh.{fresh_machine};
ghost use Rattle.raft_log_machine_laws.specs.Machine.{Machine, Steps};

/// The events of `two_purges` happen from a fresh directory, and lead to the directory `purged_twice`. There the
/// group's whereabouts are `read_again`: what two purges had copied into Rewrite is in Append again, and the tombstone
/// is owed again.
pub fn two_purges_happen()
    ensures { (v : Machine ℕ ℕ) × Steps fresh_machine two_purges v × (v.store ≡ purged_twice)
        × (v.whereabouts 1 ≡ read_again) }
{}
