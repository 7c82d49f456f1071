//! The files of a queue as the numbered files of the log's machine, which an engine's contracts use instead of files.

ghost use Rattle.std.specs.Prelude.{ℕ, List};
ghost use Rattle.raft_log_model_laws.specs.Item.{Record};
ghost use Rattle.raft_log_file_writer.specs.LogFormat.{Format, IsFormat};
ghost use Rattle.raft_log_active_file.specs.NumberedLaws.{ReadsAsNumbered, TakesNumberedSteps};
ghost use Rattle.raft_log_active_file.specs.Beginning.{BeginsNumbered};

/// States how the files of a queue are written, which paths are its own, and what its records mean.
pub trait NumberedFormat {
    /// A record, as it is written.
    type Record;

    /// What represents an entry.
    type Entry;

    /// What represents a key's value.
    type Value;

    ghost format: { Format Self.Record };

    ghost own: { List ℕ → Type 0 };

    ghost says: { Self.Record → Record Self.Entry Self.Value };
}

/// After any stop of a sound disk without a CRC collision, reading the files gives what the numbered files allow. From
/// any start it finds the same first pending records.
pub fn images_read_as_numbered_files<G: NumberedFormat>()
    ensures { IsFormat G.format → ReadsAsNumbered G.says G.format G.own }
{}

/// Each change of the files is a step of the numbered files.
pub fn files_take_numbered_steps<G: NumberedFormat>()
    ensures { TakesNumberedSteps G.says G.format }
{}

/// If no file has the number 0, a queue that begins is the numbered queue without records, in its file 1.
pub fn queue_begins_numbered<G: NumberedFormat>()
    ensures { BeginsNumbered G.says G.format }
{}
