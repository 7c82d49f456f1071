//! Laws of the definitions that contracts cite, each the contract of an empty function.
ghost use Rattle.std.specs.Prelude.{◌≡◌, ◌↔◌, List, IsTrue};
ghost use Rattle.raft_log_record_base.specs.Grammar.{IsPrefixFree};
ghost use Rattle.raft_log_record_items.specs.declared.entry.EntryIndex.{EntryIndex as Entry};
ghost use Rattle.raft_log_record_items.specs.declared.item.LogItem.{LogItem as Item};
ghost use Rattle.raft_log_record_items.specs.Items.{IsBytes, IsEntries, IsCommand, IsKeyValue, IsItem, AreItems};

use crate::entry_indexes::EntryIndexes;
use crate::item::LogItem;

/// Runs and items are equal by `==` if and only if they are the same, their places included.
pub fn equal_where_same()
    ensures runs { (a b : List Entry) → IsTrue (⟦<EntryIndexes as PartialEq>⟧.eq a b) ↔ (a ≡ b) }
    ensures items { (a b : Item) → IsTrue (⟦<LogItem as PartialEq>⟧.eq a b) ↔ (a ≡ b) }
{}

/// No spelling of a kind begins another one of the kind, and none spells two values. So what was written can be read
/// back, whatever follows it.
pub fn no_spelling_begins_another()
    ensures bytes { IsPrefixFree IsBytes }
    ensures entries { IsPrefixFree IsEntries }
    ensures commands { IsPrefixFree IsCommand }
    ensures keys { IsPrefixFree IsKeyValue }
    ensures items { IsPrefixFree IsItem }
    ensures lists { IsPrefixFree AreItems }
{}
