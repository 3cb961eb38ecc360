// Runs.
ghost use Rattle.std.specs.Prelude.{◌≡◌};
ghost use Rattle.rvs_machine.specs.Machine.{step_of};
ghost use Rattle.rvs_machine.specs.NextSteps.{CanDo, done_step};
ghost use Rattle.rvs_machine.specs.Run.{HasRun, HasStep};

use crate::event::{Commit, End, Event, Trace};
use crate::machine::Machine;
use crate::next_step::NextStep;

impl Machine {
    /// Executes at most `limit` instructions, and puts each one that was executed at the end of the
    /// trace.
    ///
    /// The run ends where a word of 1 is stored to `tohost`, where an instruction traps, or after
    /// `limit` instructions; where the trace can't grow, it ends before the instruction that would
    /// be next. It can be continued by a further call.
    pub fn run(&mut self, limit: u64, trace: &mut Trace) -> End
        ensures { HasRun self.old self.new limit trace.old trace.new result }
    {
        for _ in 0..limit {
            match self.advance(trace) {
                Some(end) => return end,
                None => {},
            }
        }
        End::StepLimit
    }

    /// One step into the trace, and the end of the run, where the step ends it.
    #[inline(always)]
    fn advance(&mut self, trace: &mut Trace) -> Option<End>
        ensures { HasStep self.old self.new trace.old trace.new result }
    {
        // An arm each, so that what follows is compiled for each kind of step by itself.
        match self.next_step() {
            NextStep::Stop(kind) => self.advance_by(NextStep::Stop(kind), trace),
            NextStep::WriteRegister(executed, next) => {
                self.advance_by(NextStep::WriteRegister(executed, next), trace)
            },
            NextStep::StoreData(executed, size, addr, value) => {
                self.advance_by(NextStep::StoreData(executed, size, addr, value), trace)
            },
            NextStep::Atomic(executed, addr, stored, reserved) => {
                self.advance_by(NextStep::Atomic(executed, addr, stored, reserved), trace)
            },
        }
    }

    /// The same by what the step does.
    #[inline(always)]
    fn advance_by(&mut self, next_step: NextStep, trace: &mut Trace) -> Option<End>
        requires step { step_of self.old.setup self.old.state
            ≡ done_step self.old.setup self.old.state next_step }
        requires can { CanDo self.old.setup.isa.memory self.old.state.ram next_step }
        ensures { HasStep self.old self.new trace.old trace.new result }
    {
        if let Some(executed) = next_step.executed() {
            let _commit: Option<Commit> = executed.commit;
            if trace.push(executed).is_err() {
                return Some(End::NoMemory);
            }
        }
        match self.apply(next_step) {
            Event::Ran(_) => None,
            Event::Halted(_) => Some(End::Halted),
            Event::Trapped(trap) => Some(End::Trapped(trap)),
        }
    }
}
