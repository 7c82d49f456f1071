//! Atomic groups: several records that count together at their end, or not at all.

ghost use Rattle.std.specs.Prelude.{◌≡◌, ℕ, List, [], ◌∷◌, ◌++◌};
ghost use Rattle.raft_log_model_laws.specs.Item.{Item, Tagged, Record};
ghost use Rattle.raft_log_model_laws.specs.Item.Record.{Part};
ghost use Rattle.raft_log_model_laws.specs.Item.Mark.{Begin};
ghost use Rattle.raft_log_model_laws.specs.Groups.{Open, settle, opened, settled, rewritten};
ghost use Rattle.raft_log_model_laws.specs.Tidy.{Tidy, EndsNone, middles, whole_group, group_items};

/// In two lists of records, one after the other, what counts in the earlier list counts first. Then what counts in the
/// later list does, in which the groups that the earlier one leaves open continue.
pub fn settled_of_two<E, V>()
    ensures { (o : Open E V) (xs ys : List (Record E V))
        → settle o (xs ++ ys) ≡ settle o xs ++ settle (opened o xs) ys }
{}

/// Before its end an atomic group changes nothing, however many of its records are written.
pub fn unended_group_counts_not<E, V>()
    ensures { (rs : List (Record E V)) (n : ℕ) (first : List (Tagged E V))
        (between : List (List (Tagged E V)))
        → settled (rs ++ (Part (Begin n) first ∷ middles n between)) ≡ settled rs }
{}

/// At its end all of an atomic group counts, after all that counted before. This holds even if an older group of its
/// number is open.
pub fn whole_group_counts<E, V>()
    ensures { (rs : List (Record E V)) (n : ℕ) (first : List (Tagged E V))
        (between : List (List (Tagged E V))) (last : List (Tagged E V))
        → settled (rs ++ whole_group n first between last) ≡ settled rs ++ group_items first between last }
{}

/// If tidy records are read from a later start, fewer items of a raft group may count: a suffix of those that count in
/// all records. A start inside an atomic group loses that group.
pub fn later_start_counts_an_end<E, V>()
    ensures { (g : ℕ) (cut back : List (Record E V)) → Tidy (cut ++ back)
        → (lost : List (Item E V)) × (lost ++ rewritten g back ≡ rewritten g (cut ++ back)) }
{}

/// Each prefix, and each suffix, of tidy records is tidy.
pub fn parts_are_tidy<E, V>()
    ensures front { (front back : List (Record E V)) → Tidy (front ++ back) → Tidy front }
    ensures back { (front back : List (Record E V)) → Tidy (front ++ back) → Tidy back }
{}

/// Appending a whole atomic group to tidy records keeps them tidy, whatever its number.
pub fn whole_group_is_tidy<E, V>()
    ensures { (rs : List (Record E V)) (n : ℕ) (first : List (Tagged E V))
        (between : List (List (Tagged E V))) (last : List (Tagged E V))
        → Tidy rs → Tidy (rs ++ whole_group n first between last) }
{}

/// Appending records that end no atomic group to tidy records keeps them tidy.
pub fn no_end_is_tidy<E, V>()
    ensures { (rs more : List (Record E V)) → EndsNone more → Tidy rs → Tidy (rs ++ more) }
{}
