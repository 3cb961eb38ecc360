// The lines that commands put.
ghost use Rattle.std.specs.Prelude.{◌≡◌, ℕ, IfOk};
ghost use Rattle.rvs_base.specs.Number.{hex_word_of};
ghost use Rattle.rvs_plain.specs.Texts.{verdict_line, same_line, differs_line, lengths_line};

use rvs_base::{NoMemory, Text, hex_text};
use rvs_sig::Verdict;
use std::alloc::Global;

/// The line of a verdict. The left file spells `n` words.
///
/// # Errors
///
/// [`NoMemory`].
pub fn verdict_line(alloc: Global, n: usize, verdict: &Verdict) -> Result<Text, NoMemory>
    ensures { IfOk result (λ line. line ≡ verdict_line n verdict.now) }
{
    match *verdict {
        Verdict::Same { n: same } => same_line(alloc, same),
        Verdict::Differs {
            at,
            left,
            right,
            differing,
        } => {
            let left = hex_text(alloc, left)?;
            let right = hex_text(alloc, right)?;
            differs_line(alloc, n, at, left.as_str(), right.as_str(), differing)
        },
        Verdict::Lengths { left, right } => lengths_line(alloc, left, right),
    }
}

#[tactic(auto, unfolding(crate::specs::Texts::same_line))]
fn same_line(alloc: Global, n: usize) -> Result<Text, NoMemory>
    ensures { IfOk result (λ line. line ≡ same_line n) }
{
    Ok(Text::from(format!(in alloc; "PASS {n} words\n")?))
}

#[tactic(auto, unfolding(crate::specs::Texts::differs_line))]
fn differs_line(
    alloc: Global,
    n: usize,
    at: usize,
    left: &str,
    right: &str,
    differing: usize,
) -> Result<Text, NoMemory>
    ensures { (left_word right_word : ℕ) → left.now ≡ hex_word_of left_word
        → right.now ≡ hex_word_of right_word
        → IfOk result (λ line. line ≡ differs_line n at left_word right_word differing) }
{
    Ok(Text::from(format!(in alloc;
        "FAIL word {at} is {left} and {right}, {differing} of {n} words differ\n"
    )?))
}

#[tactic(auto, unfolding(crate::specs::Texts::lengths_line))]
fn lengths_line(alloc: Global, left: usize, right: usize) -> Result<Text, NoMemory>
    ensures { IfOk result (λ line. line ≡ lengths_line left right) }
{
    Ok(Text::from(format!(in alloc; "FAIL lengths {left} and {right}\n")?))
}
