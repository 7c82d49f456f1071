//! The meaning of a queue and of a directory: the last word on each slot counts.

ghost use Rattle.std.specs.Prelude.{◌≡◌, ◌↔◌, ℕ, List, ◌++◌};
ghost use Rattle.std.specs.Option.{option_or};
ghost use Rattle.raft_log_model_laws.specs.Item.{Item, Record};
ghost use Rattle.raft_log_model_laws.specs.Meaning.{Slot, Content, says, holds, directory, after};
ghost use Rattle.raft_log_model_laws.specs.Groups.{Map, appended, directory_meaning, taken};
ghost use Rattle.raft_log_model_laws.specs.Stands.{StandsIn};

/// The last word of two lists, one after the other, is that of the later list. If the later list doesn't touch the
/// slot, it is that of the earlier.
pub fn last_word_of_two<E, V>()
    ensures { (s : Slot) (xs ys : List (Item E V)) → says s (xs ++ ys) ≡ option_or (says s ys) (says s xs) }
{}

/// An index has an entry exactly if the last item that touches the index is a run that covers it. A key has a value
/// exactly if the last item that touches the key is a Put of it.
pub fn stands_by_the_last_that_speaks<E, V>()
    ensures { (s : Slot) (c : Content E V) (xs : List (Item E V)) → (holds s xs ≡ Some c) ↔ StandsIn s c xs }
{}

/// A directory means what one log with Rewrite's items before all of Append's means.
pub fn directory_is_one_log<E, V>()
    ensures { (s : Slot) (rewrite append : List (Item E V))
        → directory s rewrite append ≡ holds s (rewrite ++ append) }
{}

/// If Append takes more items, each slot of the directory has what they leave there of its earlier content.
pub fn append_takes_items<E, V>()
    ensures { (s : Slot) (rewrite append more : List (Item E V))
        → directory s rewrite (append ++ more) ≡ after (λ t. directory t rewrite append) more s }
{}

/// Take two lists of Append's records, one after the other. A group's items in them are those of the first list, then
/// those of the second.
pub fn appended_of_two<E, V>()
    ensures { (g : ℕ) (xs ys : List (Record E V)) → appended g (xs ++ ys) ≡ appended g xs ++ appended g ys }
{}

/// If Append takes more records, the directory's map is the earlier one after these records, group by group.
pub fn append_takes_records<E, V>()
    ensures { (g : ℕ) (s : Slot) (rewrite append more : List (Record E V))
        → directory_meaning rewrite (append ++ more) g s ≡ taken (directory_meaning rewrite append) more g s }
{}

/// Taking two lists of records, one after the other, is the same as taking them as one list.
pub fn taken_in_turn<E, V>()
    ensures { (m : Map E V) (g : ℕ) (s : Slot) (xs ys : List (Record E V))
        → taken m (xs ++ ys) g s ≡ taken (taken m xs) ys g s }
{}
