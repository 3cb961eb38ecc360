//! What a caller concludes from the promise of `run_suite`: laws alone, and no code of the program.
#![tactic(auto)]

mod laws;

pub use laws::{
    a_pass_means_the_reference_words, a_pass_means_the_same_words, answers_tell_of_files,
    each_point_that_a_choice_hits_has_a_test, parts_are_the_whole_run, runs_of_the_reference_halt,
    tests_of_accepted_inputs,
};
