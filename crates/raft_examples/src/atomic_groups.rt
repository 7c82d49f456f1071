//! A caller of `raft_log_record_frames`: checks how the items of a record count.
ghost use Rattle.std.specs.Prelude.{◌≡◌, ◌↔◌, Some, IsTrue};
ghost use Rattle.raft_log_model_laws.specs.Item.Record.{Plain};
ghost use Rattle.raft_log_record_frames.specs.Meaning.{record_of, tagged_items};

use raft_log_record_frames::Marking;
use raft_log_record_items::LogItem;

/// Whether the items of a record count at once. A part of an atomic group counts only together with the other parts,
/// and a broken record never counts.
pub fn counts_at_once(items: &[LogItem]) -> bool
    ensures { IsTrue result ↔ (record_of (λ e. e) items.now ≡ Some (Plain (tagged_items (λ e. e) items.now))) }
{
    match Marking::parse_all(items) {
        Marking::Unmarked => true,
        Marking::Part(_, _) => false,
        Marking::Broken => false,
    }
}
