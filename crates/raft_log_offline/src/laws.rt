//! What a finding is, and that a check changes no file: each law is a function without a body.

ghost use Rattle.std.specs.Prelude.{◌≡◌, ◌↔◌, ℕ, List, Some, None};
ghost use Rattle.raft_log_fs.specs.Disk.{Disk};
ghost use Rattle.raft_log_file_settings.specs.declared.config.Config.{Config};
ghost use Rattle.raft_log_recovery.specs.Finding.{FindsLog};
ghost use Rattle.raft_log_recovery.specs.declared.builder.DualPipesBuilder.{DualPipesBuilder};
ghost use Rattle.raft_log_offline.specs.Checking.{ChecksLog, HaveSameFiles};
ghost use Rattle.raft_log_offline.specs.Runs.{HasNoHole, IsFirstHole, Run, finding};

/// A group's finding is the end of the run before its first hole; without a hole there is none.
pub fn findings_are_first_holes()
    ensures hole { (runs : List Run) (end : ℕ) → (finding runs ≡ Some end) ↔ IsFirstHole runs end }
    ensures none { (runs : List Run) → (finding runs ≡ None) ↔ HasNoHole runs }
{}

/// A check changes no file and no name, whatever damage its mode tolerates. This also holds if it found the log's files
/// and then failed.
pub fn checks_change_no_file()
    ensures ok { (config : Config) (findings : List (ℕ × ℕ)) (old new : Disk)
        → ChecksLog config findings old new → HaveSameFiles old new }
    ensures found { (config : Config) (found : DualPipesBuilder) (old new : Disk)
        → FindsLog config found old new → HaveSameFiles old new }
{}
