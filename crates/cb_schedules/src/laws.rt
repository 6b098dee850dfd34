//! What is proved of every schedule, as contracts of functions that do nothing: a file for each subject.

mod forgetting;
mod frames;
mod headline;
mod help;
mod invariant;
mod knowledge;
mod restarts;
mod rounds;
mod runs;
mod succession;

pub use forgetting::{
    a_few_rounds_of_cores_repair_whatever_was_lost, causal_broadcast_without_histories,
    cores_run_as_members_do, what_cores_know_is_so,
};
pub use frames::sent_frames_say_what_is_so;
pub use headline::causal_broadcast_over_lossy_links;
pub use help::{
    a_silent_sender_is_not_needed, cores_need_no_silent_sender,
    nothing_that_cores_lack_is_forgotten, nothing_that_is_lacked_is_forgotten,
    rounds_without_a_silent_member_are_steps_of_the_others,
};
pub use invariant::{
    each_step_goes_on_at_the_ends, histories_stay_within_their_limit, runs_are_consistent,
    steps_extend_the_machines,
};
pub use knowledge::{
    arrivals_are_welcome, what_is_heard_of_is_cast, what_is_stable_is_delivered_everywhere,
    what_is_stable_of_any_sender_is_delivered_everywhere,
};
pub use restarts::{
    causal_broadcast_with_restarts, cores_come_back_as_members_do, frames_outlive_restarts,
    nothing_is_taken_back, restarts_leave_a_schedule, rounds_repair_behind_restarts,
    schedules_can_be_journaled, sending_first_is_wrong, what_is_written_can_be_resumed,
};
pub use rounds::{
    a_few_rounds_repair_whatever_was_lost, a_round_is_a_tick_of_each_and_its_arrivals,
    one_round_more_makes_everything_stable, room_for_each_step_is_enough,
    rounds_are_steps_of_a_schedule, rounds_tell_and_bring, then_nothing_changes_any_more,
    what_has_arrived_everywhere_is_delivered,
};
pub use runs::runs_go_on_step_by_step;
pub use succession::{
    a_dead_member_is_not_needed_to_go_on, an_end_has_room, nobody_begins_beside_them,
    nothing_else_is_waited_for, other_rules_are_wrong, silent_members_are_not_needed_to_go_on,
    successions_outlive_restarts, the_old_group_is_not_needed, those_who_begin_have_the_same_cut,
    who_comes_late_comes_too, who_is_left_out_stays_within_a_window,
};
