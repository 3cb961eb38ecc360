//! What a call of each command promises that runs no device, by what its effects left: definitions
//! and laws, and no code of the program.
#![tactic(auto)]
