//! Completeness of property sets, over definitions alone, and worked sets: one that is signed off, windows and segments
//! that violate the lines of others, and what completeness needs. Each law is the contract of a function that does
//! nothing.
#![tactic(auto)]

mod counter;
mod flaws;
mod laws;
mod needed;
mod signed;

pub use counter::CounterCycle;
pub use flaws::{
    answers_must_be_constrained_to_come, domains_may_hold_in_one_trace, hold_without_hand_is_open,
    step_alone_is_not_split, true_invariants_may_not_be_inductive, unhanded_states_leave_a_choice,
    unsized_numbers_have_32_bits,
};
pub use laws::{
    Cycle, each_trace_has_one_path, formulas_read_within, signed_off_sets_are_complete,
    valid_lines_are_complete, valid_lines_hold_in_runs, valid_lines_make_paths,
};
pub use needed::{
    fixed_resets_are_needed, hand_lines_are_needed, meeting_covers_are_needed,
    same_end_lines_are_needed, windows_must_fit,
};
pub use signed::{counter_is_complete, counter_is_signed_off};
