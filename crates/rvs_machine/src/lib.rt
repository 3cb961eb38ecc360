//! The reference machine: a program in memory, one step, and runs, as the unprivileged ISA manual
//! says.
#![tactic(auto)]

mod action;
mod effect;
mod event;
mod image;
mod laws;
mod lines;
mod machine;
mod memory;
mod next_step;
mod printing;
mod reading;
mod run;
mod symbol;

pub use event::{Commit, End, Event, Executed, Trace, Trap, TrapKind};
pub use image::Image;
pub use laws::{
    commits_are_destinations, divisions_are_defined, files_read_back, image_faults_are_first,
    reservations_are_kept, runs_keep, steps_keep, traces_follow,
};
pub use machine::Machine;
pub use reading::{ImageKind, ImageRefusal, read_image};
pub use symbol::Symbol;
