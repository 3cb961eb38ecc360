// What takes the lines of a log.
ghost use Rattle.std.specs.Prelude.{◌≡◌, ◌<◌};
ghost use Rattle.rvs_log.specs.Grammar.{reading_of};
ghost use Rattle.rvs_log.specs.Lines.{log_limit};
ghost use Rattle.rvs_log.specs.Written.{HasWords, line_of};

use rvs_machine::Executed;

/// Takes a log line by line.
pub trait Consumer: Drop {
    ghost use Rattle.std.specs.Prelude.{◌≡◌, ◌≤◌, ◌+◌, ℕ};
    ghost use Rattle.rvs_log.specs.Grammar.{Reading, Nothing};

    /// What is told before a log begins.
    type Start;

    /// What a line leads to, by what it says.
    ghost step: { Self → Reading → Self };

    /// How many instructions were counted.
    ghost count: { Self → ℕ };

    /// What is there before the first line.
    ghost begun: { Self → Self.Start → Self };

    /// Takes a line. It takes no memory.
    fn take_line(&mut self, line: &[u8])
        requires { count self.old < log_limit }
        ensures { self.new ≡ step self.old (reading_of line.now) };

    /// Begins another log. It takes no memory.
    fn restart(&mut self, start: Self::Start)
        ensures { self.new ≡ begun self.old start };

    /// A line that says nothing changes nothing.
    ghost quiet: { (t : Self) → step t Nothing ≡ t };

    /// A line adds at most one instruction.
    ghost adds: { (t : Self) (r : Reading) → count (step t r) ≤ count t + 1 };

    /// Before the first line there are none.
    ghost none: { (t : Self) (s : Self.Start) → count (begun t s) ≡ 0 };
}

/// Takes what was executed as well, without its line.
pub trait Executing: Consumer {
    /// Takes the line of an executed instruction. It takes no memory.
    fn take_executed(&mut self, executed: &Executed)
        requires { Self.count self.old < log_limit }
        ensures said { self.new ≡ Self.step self.old (reading_of (line_of executed.now)) }
        ensures words { HasWords executed.now };
}
