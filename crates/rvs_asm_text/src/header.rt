// The header of a test.
ghost use Rattle.std.specs.Prelude.{◌≡◌};
ghost use Rattle.rvs_asm_text.specs.Header.{steps_line, header_steps};

use crate::cutting::first_line;
use rvs_base::short_number;

/// The most steps that a test may take.
const MOST_STEPS: u64 = 2_000_000;

/// The number of steps that a line of a header allows: one to seven digits, from 1 to 2,000,000.
#[tactic(auto, using(crate::proofs::Fronts::front_cut))]
fn line_steps(line: &[u8]) -> Option<u64>
    ensures { result ≡ steps_line line.now }
{
    let steps = short_number(7, 10, line.strip_prefix(b"#! steps ")?)?;
    if steps >= 1 && steps <= MOST_STEPS {
        Some(steps)
    } else {
        None
    }
}

/// How many steps the header line of a test (`#! steps N`) allows: from 1 to 2,000,000, in at most
/// seven digits. Lines of another form or with another number are none.
#[tactic(auto, unfolding(crate::specs::Header::header_steps))]
pub fn steps_of_header(text: &[u8]) -> Option<u64>
    ensures { result ≡ header_steps text.now }
{
    let mut rest = text;
    while let Some((line, after)) = first_line(rest) {
        if let Some(steps) = line_steps(line) {
            return Some(steps);
        }
        rest = after;
    }
    None
}
