// How a command stops at an input that is refused.
ghost use Rattle.std.specs.Prelude.{◌≡◌, ◌⊎◌, IfOk};
ghost use Rattle.rvs_plan.specs.Refusing.{Stops, input_text};

use crate::Stop;
use rvs_base::{Fault, NoMemory, Refusal, Text};
use std::alloc::Global;

/// Goes on with what comes of an input, which a fault line names so.
///
/// # Errors
///
/// [`Stop::Refused`] where the input is refused; [`Stop::NoMemory`].
pub fn accepted<A, R: Refusal>(
    alloc: Global,
    name: &str,
    answer: Result<A, Fault<R>>,
) -> Result<A, Stop>
    ensures { Stops R.said name.now answer result }
{
    match answer {
        Ok(value) => Ok(value),
        Err(Fault::Refused(refusal)) => Err(stop_at(alloc, name, &refusal)),
        Err(Fault::NoMemory) => Err(Stop::NoMemory),
    }
}

fn stop_at<R: Refusal>(alloc: Global, name: &str, refusal: &R) -> Stop
    ensures { (result ≡ Stop.NoMemory)
        ⊎ (result ≡ Stop.Refused (input_text name.now (R.said refusal.now))) }
{
    match input_text(alloc, name, refusal) {
        Ok(text) => Stop::Refused(text),
        Err(NoMemory) => Stop::NoMemory,
    }
}

/// Why an input, named so, is refused.
///
/// # Errors
///
/// [`NoMemory`].
#[tactic(auto, unfolding(crate::specs::Refusing::input_text))]
pub fn input_text<R: Refusal>(alloc: Global, name: &str, refusal: &R) -> Result<Text, NoMemory>
    ensures { IfOk result (λ text. text ≡ input_text name.now (R.said refusal.now)) }
{
    let text = refusal.text(alloc)?;
    Ok(Text::from(format!(in alloc; "{name}: {text}")?))
}
