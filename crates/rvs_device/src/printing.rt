// The lines of verdicts, and the texts of refusals.
ghost use Rattle.std.specs.Prelude.{◌≡◌, ◌++◌, ℕ, IfOk, codes};
ghost use Rattle.std.specs.Fmt.{signed_decimal};
ghost use Rattle.rvs_base.specs.Number.{hex_word_of};
ghost use Rattle.rvs_device.specs.Printed.{bad_signature_line, differs_line, lengths_line};
ghost use Rattle.rvs_device.specs.Printed.{pass_line, refusal_text, verdict_line};

use crate::{DeviceRefusal, TestVerdict};
use rvs_base::{NoMemory, Refusal, Text, hex_text};
use std::alloc::Global;

/// The line of a verdict on the test of this label.
///
/// # Errors
///
/// [`NoMemory`].
#[tactic(auto, unfolding(crate::specs::Printed::too_long_line))]
pub fn verdict_line(alloc: Global, label: &str, verdict: &TestVerdict) -> Result<Text, NoMemory>
    ensures { IfOk result (λ line. line ≡ verdict_line label.now verdict.now) }
{
    match *verdict {
        TestVerdict::Pass { n, status } => pass_line(alloc, label, n, status),
        TestVerdict::NoSignature { status } => fail_line(alloc, label, "no signature", status),
        TestVerdict::TooLong { status } => fail_line(alloc, label, "signature too long", status),
        TestVerdict::BadSignature { line, status } => bad_signature_line(
            alloc, label, line, status,
        ),
        TestVerdict::Differs {
            at,
            left,
            right,
            status,
        } => {
            let left = hex_text(alloc, left)?;
            let right = hex_text(alloc, right)?;
            differs_line(alloc, label, at, left.as_str(), right.as_str(), status)
        },
        TestVerdict::Lengths {
            device,
            reference,
            status,
        } => lengths_line(alloc, label, device, reference, status),
    }
}

#[tactic(auto, unfolding(crate::specs::Printed::pass_line))]
fn pass_line(alloc: Global, label: &str, n: usize, status: i32) -> Result<Text, NoMemory>
    ensures { IfOk result (λ line. line ≡ pass_line label.now n status) }
{
    Ok(Text::from(format!(in alloc; "PASS {label} {n} words, status {status}\n")?))
}

/// The line of a failure that is told without a number.
fn fail_line(alloc: Global, label: &str, why: &str, status: i32) -> Result<Text, NoMemory>
    ensures { IfOk result (λ line. line ≡ codes "FAIL " ++ (label.now ++ (codes " " ++ (why.now
        ++ (codes ", status " ++ (signed_decimal status ++ codes "\n")))))) }
{
    Ok(Text::from(format!(in alloc; "FAIL {label} {why}, status {status}\n")?))
}

#[tactic(auto, unfolding(crate::specs::Printed::bad_signature_line))]
fn bad_signature_line(alloc: Global, label: &str, line: u32, status: i32) -> Result<Text, NoMemory>
    ensures { IfOk result (λ text. text ≡ bad_signature_line label.now line status) }
{
    Ok(Text::from(format!(in alloc; "FAIL {label} bad signature line {line}, status {status}\n")?))
}

#[tactic(auto, unfolding(crate::specs::Printed::differs_line))]
fn differs_line(
    alloc: Global,
    label: &str,
    at: usize,
    left: &str,
    right: &str,
    status: i32,
) -> Result<Text, NoMemory>
    ensures { (left_word right_word : ℕ)
        → left.now ≡ hex_word_of left_word → right.now ≡ hex_word_of right_word
        → IfOk result (λ line. line ≡ differs_line label.now at left_word right_word status) }
{
    Ok(Text::from(format!(in alloc;
        "FAIL {label} word {at} is {left} and {right}, status {status}\n"
    )?))
}

#[tactic(auto, unfolding(crate::specs::Printed::lengths_line))]
fn lengths_line(
    alloc: Global,
    label: &str,
    device: usize,
    reference: usize,
    status: i32,
) -> Result<Text, NoMemory>
    ensures { IfOk result (λ line. line ≡ lengths_line label.now device reference status) }
{
    Ok(Text::from(format!(in alloc;
        "FAIL {label} lengths {device} and {reference}, status {status}\n"
    )?))
}

impl Refusal for DeviceRefusal {
    ghost said = { refusal_text };

    /// `device`, the number, and the missing name or the whole word.
    fn text(&self, alloc: Global) -> Result<Text, NoMemory> {
        match self {
            DeviceRefusal::MissingEntry { name } => Ok(Text::from(format!(in alloc;
                "device 1 {name}"
            )?)),
            DeviceRefusal::BadCommand => Ok(Text::from(String::from_str(alloc, "device 2")?)),
            DeviceRefusal::UnknownPlaceholder { word } => {
                Ok(Text::from(format!(in alloc; "device 3 {word}")?))
            },
        }
    }
}
