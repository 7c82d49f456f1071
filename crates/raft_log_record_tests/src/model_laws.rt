//! Each law of the contents of a log once, at concrete types.
use raft_log_model_laws::{groups, hostile, meaning, renaming, segments, tables};
use raft_log_record_base::laws::{file_order, no_number_begins_another};

#[test]
fn laws_of_groups() {
    groups::settled_of_two::<u64, u64>();
    groups::unended_group_counts_not::<u64, u64>();
    groups::whole_group_counts::<u64, u64>();
    groups::later_start_counts_an_end::<u64, u64>();
    groups::parts_are_tidy::<u64, u64>();
    groups::whole_group_is_tidy::<u64, u64>();
    groups::no_end_is_tidy::<u64, u64>();
}

#[test]
fn laws_of_hostile() {
    hostile::one_run_stands::<u64, u64>();
    hostile::no_hole_no_rule::<u64, u64>();
    hostile::no_hole_in_parts::<u64, u64>();
    hostile::silent_between_the_bounds::<u64, u64>();
    hostile::directory_is_by_intervals::<u64, u64>();
    hostile::solid_directory_is_by_intervals::<u64, u64>();
}

#[test]
fn laws_of_meaning() {
    meaning::last_word_of_two::<u64, u64>();
    meaning::stands_by_the_last_that_speaks::<u64, u64>();
    meaning::directory_is_one_log::<u64, u64>();
    meaning::append_takes_items::<u64, u64>();
    meaning::appended_of_two::<u64, u64>();
    meaning::append_takes_records::<u64, u64>();
    meaning::taken_in_turn::<u64, u64>();
    renaming::meaning_of_renamed::<u64, u8, u64>();
    renaming::renamed_twice::<u64, u16, u8, u64>();
}

#[test]
fn laws_of_segments() {
    segments::summary_says_the_last_word::<u64, u64>();
    segments::joined_summaries::<u64, u64>();
    segments::any_summary_makes_the_directory::<u64, u64>();
    segments::any_bracketing_says_the_whole::<u64, u64>();
    segments::joining_is_associative::<u64, u64>();
    segments::tidy_records_may_be_cut::<u64, u64>();
    segments::borders_of_two::<u64, u64>();
    segments::any_bracketing_is_the_whole::<u64, u64>();
}

#[test]
fn laws_of_tables() {
    tables::table_takes_an_item::<u64, u64>();
    tables::hostile_table_takes_an_item::<u64, u64>();
    tables::table_holds_what_stands::<u64, u64>();
    tables::directory_table_holds_what_stands::<u64, u64>();
}

#[test]
fn laws_of_numbers_and_files() {
    no_number_begins_another();
    file_order();
}
