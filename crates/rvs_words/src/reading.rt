// Reading the words of a command line.
ghost use Rattle.std.specs.Prelude.{◌≡◌, IfOk, codes};
ghost use Rattle.rvs_words.specs.Words.{texts, values_of};
ghost use Rattle.rvs_words.specs.Commands.{compare_of, validate_options, validate_of};
ghost use Rattle.rvs_words.specs.Commands.{reference_options, reference_of, demo_of, with_options};
ghost use Rattle.rvs_words.specs.Commands.{command_of, named, number_of, steps_of};
ghost use Rattle.rvs_words.specs.Reading.{Answers};

use crate::command::{Command, CompareArguments, ReferenceArguments, ValidateArguments};
use crate::database_commands::{read_run, read_select};
use crate::group_commands::{
    read_coverage, read_generate, read_normalize, read_propagate, read_report,
};
use crate::unread::Unread;
use crate::words::{
    Pair, is_positional, only_value, optional_value, owned, read_options, two_values,
};
use rvs_base::{DemoSize, NoMemory, short_number};
use std::alloc::Global;

/// The most steps that a run may be given.
const MOST_STEPS: u64 = 2_000_000;

/// Reads the words of a command line, the first of which is the program's own name.
///
/// # Errors
///
/// [`NoMemory`].
pub fn read_command(alloc: Global, words: &[String]) -> Result<Command, NoMemory>
    ensures { IfOk result (λ command. command ≡ command_of (texts words.now)) }
{
    let [program, name, rest @ ..] = words else {
        return Ok(Command::Unknown);
    };
    match read_by(alloc, program.as_str(), name.as_str(), rest) {
        Ok(command) => Ok(command),
        Err(Unread::NoCommand) => Ok(Command::Unknown),
        Err(Unread::NoMemory) => Err(NoMemory),
    }
}

/// Reads the words behind a name.
fn read_by(alloc: Global, program: &str, name: &str, words: &[String]) -> Result<Command, Unread>
    ensures { Answers result (named program.now name.now (texts words.now)) }
{
    match name {
        "compare" => read_compare(alloc, words),
        "validate" => read_validate(alloc, words),
        "normalize" => read_normalize(alloc, words),
        "generate" => read_generate(alloc, words),
        "reference" => read_reference(alloc, words),
        "coverage" => read_coverage(alloc, words),
        "propagate" => read_propagate(alloc, words),
        "run" => read_run(alloc, program, words),
        "report" => read_report(alloc, words),
        "select" => read_select(alloc, words),
        "demo" => read_demo(words),
        _ => Err(Unread::NoCommand),
    }
}

fn read_compare(alloc: Global, words: &[String]) -> Result<Command, Unread>
    ensures { Answers result (compare_of (texts words.now)) }
{
    match words {
        [left, right] if is_positional(left.as_str()) && is_positional(right.as_str()) => {
            let left = owned(alloc, left.as_str())?;
            let right = owned(alloc, right.as_str())?;
            Ok(Command::Compare(CompareArguments { left, right }))
        },
        _ => Err(Unread::NoCommand),
    }
}

fn read_validate(alloc: Global, words: &[String]) -> Result<Command, Unread>
    ensures { Answers result (with_options validate_options validate_of (texts words.now)) }
{
    let options = read_options(alloc, words, &["--isa"])?;
    let isa = only_value(alloc, options.as_slice(), "--isa")?;
    Ok(Command::Validate(ValidateArguments { isa }))
}

fn read_reference(alloc: Global, words: &[String]) -> Result<Command, Unread>
    ensures { Answers result (with_options reference_options reference_of (texts words.now)) }
{
    let options = read_options(
        alloc,
        words,
        &["--isa", "--test", "--signature", "--log", "--steps"],
    )?;
    reference_asked(alloc, options.as_slice())
}

/// Reads the options of `reference`.
///
/// # Errors
///
/// [`Unread`].
fn reference_asked(alloc: Global, pairs: &[Pair]) -> Result<Command, Unread>
    ensures { Answers result (reference_of (λ name. values_of name pairs.now)) }
{
    let steps = read_steps(alloc, pairs)?;
    let log = optional_value(alloc, pairs, "--log")?;
    let signature = only_value(alloc, pairs, "--signature")?;
    let (isa, test) = two_values(alloc, pairs, "--isa", "--test")?;
    Ok(Command::Reference(ReferenceArguments {
        isa,
        test,
        signature,
        log,
        steps,
    }))
}

/// The value of `--steps`, which needn't stand.
///
/// # Errors
///
/// [`Unread`]: `NoCommand` where it isn't a number of steps, or stands twice.
#[tactic(auto, using(crate::proofs::OptionValues::steps_are_at_most_one))]
fn read_steps(alloc: Global, pairs: &[Pair]) -> Result<Option<u64>, Unread>
    ensures { Answers result (steps_of (values_of (codes "--steps") pairs.now)) }
{
    match optional_value(alloc, pairs, "--steps")? {
        None => Ok(None),
        Some(text) => match read_number(text.as_str()) {
            Some(steps) if (1..=MOST_STEPS).contains(&steps) => Ok(Some(steps)),
            _ => Err(Unread::NoCommand),
        },
    }
}

fn read_demo(words: &[String]) -> Result<Command, Unread>
    ensures { Answers result (demo_of (texts words.now)) }
{
    let [text] = words else {
        return Err(Unread::NoCommand);
    };
    let count = read_number(text.as_str()).ok_or(Unread::NoCommand)?;
    let size = DemoSize::new(count).ok_or(Unread::NoCommand)?;
    Ok(Command::Demo(size))
}

/// A number of one to seven decimal digits.
fn read_number(text: &str) -> Option<u64>
    ensures { result ≡ number_of text.now }
{
    short_number(7, 10, text.as_bytes())
}
