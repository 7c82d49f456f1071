//! Each law of the log's machine once, at a concrete type of content: numbers for entries and for values.
use raft_log_machine_laws::{
    example, files, images, machine, purge, replay, survival, wrong_rules,
};

#[test]
fn laws_of_survival() {
    survival::held_map_survives::<u64, u64>();
    survival::append_takes::<u64, u64>();
    survival::append_syncs::<u64, u64>();
    survival::rewrite_syncs::<u64, u64>();
    survival::rewrite_takes::<u64, u64>();
    survival::append_rises::<u64, u64>();
    survival::rewrite_rises::<u64, u64>();
    survival::append_loses::<u64, u64>();
    survival::rewrite_loses::<u64, u64>();
    survival::directory_reopens::<u64, u64>();
    survival::what_stays_in_rewrite_says::<u64, u64>();
    survival::what_stays_in_append_says::<u64, u64>();
}

#[test]
fn laws_of_machine() {
    machine::fresh_machine_is_kept::<u64, u64>();
    machine::each_step_keeps::<u64, u64>();
    machine::survives_always::<u64, u64>();
    machine::map_is_what_was_taken::<u64, u64>();
    machine::renumbered_sound::<u64, u64>();
    machine::whereabouts_of_renamed::<u64, u64, u64>();
}

#[test]
fn laws_of_files() {
    files::reading_is_an_end::<u64, u64>();
    files::records_survive_in_files::<u64, u64>();
    files::numbers_stay_in_order::<u64, u64>();
    files::sync_of_files::<u64, u64>();
    files::rotation_of_files::<u64, u64>();
    files::rise_of_files::<u64, u64>();
    files::loss_of_files::<u64, u64>();
    files::reading_of_files::<u64, u64>();
    files::survives_in_files_always::<u64, u64>();
    files::replays_in_files_always::<u64, u64>();
    files::opens_in_files_always::<u64, u64>();
}

#[test]
fn laws_of_images() {
    images::each_image_has_one_run::<u64, u64>();
    images::each_image_can_be_opened::<u64, u64>();
    images::tables_tell_the_whereabouts::<u64, u64>();
    images::an_open_has_no_choice::<u64, u64>();
    images::intervals_say_the_same_of_images::<u64, u64>();
}

#[test]
fn laws_of_purge() {
    purge::purge_is_invisible::<u64, u64>();
}

#[test]
fn laws_of_replay() {
    replay::fresh_machine_replays::<u64, u64>();
    replay::each_step_replays::<u64, u64>();
    replay::kept_machine_replays::<u64, u64>();
    replay::replays_always::<u64, u64>();
    replay::runs_of_a_group_join::<u64, u64>();
    replay::unbroken_records_are_tidy::<u64, u64>();
}

#[test]
fn examples() {
    example::two_purges_happen();
    images::meaning_and_reading_are_too_little();
    wrong_rules::append_files_before_marks();
    wrong_rules::marks_forgotten_before_written();
    wrong_rules::marks_after_copies();
    wrong_rules::mark_of_greatest_compact();
    wrong_rules::group_without_its_first_file();
    wrong_rules::places_before_end_mark();
    wrong_rules::rewrite_ahead_of_append();
}
