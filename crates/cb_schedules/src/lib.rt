//! Schedules of a whole group of members, and what is true after every one of them.
//!
//! A schedule says what happens, one thing after another: a member casts, a frame that was sent arrives somewhere, a member
//! ticks, or asks a third one for help. Frames may be lost, come again or come late, just as the schedule has it. This crate says
//! in `specs/` what the run of a schedule is, by the definition of one member's answers and by nothing else; its laws are the
//! contracts of functions that do nothing. The same is said of a group of cores, members that keep no history. It has no program.
//!
//! Stands on `cb_history` for the members' answers and on `cb_causality` for the machines of causal broadcast.
#![tactic(auto)]

mod laws;

pub use laws::{
    a_dead_member_is_not_needed_to_go_on, a_few_rounds_of_cores_repair_whatever_was_lost,
    a_few_rounds_repair_whatever_was_lost, a_round_is_a_tick_of_each_and_its_arrivals,
    a_silent_sender_is_not_needed, an_end_has_room, arrivals_are_welcome,
    causal_broadcast_over_lossy_links, causal_broadcast_with_restarts,
    causal_broadcast_without_histories, cores_come_back_as_members_do, cores_need_no_silent_sender,
    cores_run_as_members_do, each_step_goes_on_at_the_ends, frames_outlive_restarts,
    histories_stay_within_their_limit, nobody_begins_beside_them, nothing_else_is_waited_for,
    nothing_is_taken_back, nothing_that_cores_lack_is_forgotten,
    nothing_that_is_lacked_is_forgotten, one_round_more_makes_everything_stable,
    other_rules_are_wrong, restarts_leave_a_schedule, room_for_each_step_is_enough,
    rounds_are_steps_of_a_schedule, rounds_repair_behind_restarts, rounds_tell_and_bring,
    rounds_without_a_silent_member_are_steps_of_the_others, runs_are_consistent,
    runs_go_on_step_by_step, schedules_can_be_journaled, sending_first_is_wrong,
    sent_frames_say_what_is_so, silent_members_are_not_needed_to_go_on, steps_extend_the_machines,
    successions_outlive_restarts, the_old_group_is_not_needed, then_nothing_changes_any_more,
    those_who_begin_have_the_same_cut, what_cores_know_is_so,
    what_has_arrived_everywhere_is_delivered, what_is_heard_of_is_cast,
    what_is_stable_is_delivered_everywhere, what_is_stable_of_any_sender_is_delivered_everywhere,
    who_comes_late_comes_too, who_is_left_out_stays_within_a_window,
};
