//! The model of a directory, over a file system and pipes that never hold a log.

ghost use Rattle.raft_log_record_tests.specs.NoLog.{no_log, IsEmpty};

use raft_log_machine_laws::file_system::LogImages;
use raft_log_machine_laws::pipes::TiedFiles;
use raft_log_machine_laws::{
    append_calls, log, model, moves, notes, open, pipes, rewrite_calls, writes,
};

struct NoLog;

impl LogImages for NoLog {
    type Entry = u64;

    type Value = u64;

    ghost readings = { no_log };
}

impl TiedFiles for NoLog {
    type Entry = u64;

    type Value = u64;

    ghost ties = { IsEmpty };

    ghost allows = { IsEmpty };

    ghost ties_allow = { λ s f h. h };
}

#[test]
fn laws_of_model() {
    model::fresh_model_is_sound::<u64, u64>();
    model::renumbered_groups_are_sound::<u64, u64>();
    moves::quiet_events_are_followed::<u64, u64>();
    moves::append_moves_are_followed::<u64, u64>();
    moves::rewrite_moves_are_followed::<u64, u64>();
    pipes::words_on_pipes_can_be_met::<u64, u64>();
}

#[test]
fn laws_of_writes_and_notes() {
    writes::batch_is_followed::<u64, u64>();
    writes::copies_are_followed::<u64, u64>();
    writes::unended_group_is_followed::<u64, u64>();
    writes::ended_group_is_followed::<u64, u64>();
    writes::group_goes_on_from_its_begin::<u64, u64>();
    notes::what_speaks_goes_on::<u64, u64>();
    notes::noted_files_have_what_is_appended::<u64, u64>();
    notes::noted_files_have_what_is_rewritten::<u64, u64>();
    notes::raises_are_followed::<u64, u64>();
    notes::items_speak_of_what_they_bring::<u64, u64>();
}

#[test]
fn laws_of_a_log() {
    log::no_files_are_the_log_of_nothing::<NoLog>();
    log::crash_keeps_what_is_synced::<NoLog>();
    log::image_is_a_log::<NoLog>();
    log::no_more_images_are_the_same_log::<NoLog>();
    log::promise_is_kept_later::<NoLog>();
    log::fork_is_the_same_log::<NoLog>();
    log::engine_is_a_log::<NoLog>();
    open::open_shows_what_was_kept::<NoLog>();
}

#[test]
fn laws_of_calls() {
    append_calls::written_batch_is_pending::<NoLog>();
    append_calls::refused_batch_leaves_no_trace::<NoLog>();
    append_calls::batch_of_a_failed_pipe_may_be_there::<NoLog>();
    append_calls::synced_batches_are_in_the_map::<NoLog>();
    append_calls::settled_append_has_all_batches::<NoLog>();
    append_calls::ends_of_calls_compose::<NoLog>();
    append_calls::raised_append_keeps_the_map::<NoLog>();
    rewrite_calls::refused_record_of_rewrite_changes_nothing::<NoLog>();
    rewrite_calls::carried_record_keeps_the_map::<NoLog>();
    rewrite_calls::begun_group_keeps_the_map::<NoLog>();
    rewrite_calls::unended_group_keeps_the_map::<NoLog>();
    rewrite_calls::ended_group_keeps_the_map::<NoLog>();
    rewrite_calls::raised_rewrite_keeps_the_map::<NoLog>();
}
