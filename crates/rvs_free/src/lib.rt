//! Leave to go round the counter of evaluations.
#![tactic(auto)]

/// Leave to make a counter of evaluations, and to look into an expression without one. Only a crate
/// that names this one in `crates.txt` has it: the solver and what makes tests don't.
#[derive(Clone, Copy)]
pub struct Free {
    _own: (),
}

impl Free {
    /// The leave.
    pub fn new() -> Free {
        Free { _own: () }
    }
}
