//! The meaning doesn't depend on what represents an entry: a table has the places of entries, a writer their bytes.

ghost use Rattle.std.specs.Prelude.{◌≡◌, ℕ, List, map, option_map};
ghost use Rattle.raft_log_model_laws.specs.Item.{Item, Record};
ghost use Rattle.raft_log_model_laws.specs.Meaning.{Slot, says, directory};
ghost use Rattle.raft_log_model_laws.specs.Groups.{Map, appended, rewritten, directory_meaning, taken};
ghost use Rattle.raft_log_model_laws.specs.Renamed.{renamed, renamed_record, renamed_content, renamed_word, renamed_map};

/// Applying a function to each entry before a log's meaning is computed gives the same as applying it to the meaning.
/// This holds for a list of items, for a group's items in either queue, for a directory, and for what Append changes in
/// a map.
pub fn meaning_of_renamed<E, F, V>()
    ensures word { (f : E → F) (s : Slot) (xs : List (Item E V))
        → says s (map (renamed f) xs) ≡ renamed_word f (says s xs) }
    ensures append { (f : E → F) (g : ℕ) (rs : List (Record E V))
        → appended g (map (renamed_record f) rs) ≡ map (renamed f) (appended g rs) }
    ensures rewrite { (f : E → F) (g : ℕ) (rs : List (Record E V))
        → rewritten g (map (renamed_record f) rs) ≡ map (renamed f) (rewritten g rs) }
    ensures items { (f : E → F) (s : Slot) (rewrite append : List (Item E V))
        → directory s (map (renamed f) rewrite) (map (renamed f) append)
        ≡ option_map (renamed_content f) (directory s rewrite append) }
    ensures directory { (f : E → F) (rewrite append : List (Record E V)) (g : ℕ) (s : Slot)
        → directory_meaning (map (renamed_record f) rewrite) (map (renamed_record f) append) g s
        ≡ renamed_map f (directory_meaning rewrite append) g s }
    ensures takes { (f : E → F) (m : Map E V) (rs : List (Record E V)) (g : ℕ) (s : Slot)
        → taken (renamed_map f m) (map (renamed_record f) rs) g s ≡ renamed_map f (taken m rs) g s }
{}

/// Applying two functions to the entries in turn is the same as applying their composition. So what holds for places
/// holds for bytes, if a record of places and a record of bytes come from the same entries.
pub fn renamed_twice<E, F, H, V>()
    ensures { (f : E → F) (h : F → H) (r : Record E V)
        → renamed_record h (renamed_record f r) ≡ renamed_record (λ e. h (f e)) r }
{}
