// The command lines that name coverage group files.
ghost use Rattle.std.specs.Prelude.{◌≡◌, ◌⊎◌, Some, None, IfOk, IfErr, codes};
ghost use Rattle.rvs_words.specs.Words.{texts, values_of, only};
ghost use Rattle.rvs_words.specs.FamilyWords.{families_of};
ghost use Rattle.rvs_words.specs.Commands.{most_groups, some_of};
ghost use Rattle.rvs_words.specs.Commands.{with_options, normalize_options};
ghost use Rattle.rvs_words.specs.Commands.{normalize_of, generate_options, generate_of};
ghost use Rattle.rvs_words.specs.Commands.{coverage_options, coverage_of};
ghost use Rattle.rvs_words.specs.Commands.{propagate_options, propagate_of};
ghost use Rattle.rvs_words.specs.Commands.{report_options, report_of};
ghost use Rattle.rvs_words.specs.Windows.{windows_of};
ghost use Rattle.rvs_words.specs.Reading.{Answers};

use crate::command::{
    Command, CoverageArguments, GenerateArguments, NormalizeArguments, PropagateArguments,
    ReportArguments,
};
use crate::families::read_families;
use crate::logs::given_signatures;
use crate::parts::read_part;
use crate::progress::read_progress;
use crate::unread::Unread;
use crate::windows::read_ranges;
use crate::words::{Pair, few_values, only_value, read_options, some_values, two_values};
use rvs_abstract::Families;
use rvs_base::{Items, Text, Window};
use std::alloc::Global;

/// The most group files that may be named.
const MOST_GROUPS: usize = 64;

/// The most execution logs that may be named.
const MOST_LOGS: usize = 4096;

/// The most windows that may be given.
const MOST_WINDOWS: usize = 16;

/// What each command over coverage groups is given: the ISA file, the group files, and which
/// families of the groups' abstract points are read.
///
/// # Errors
///
/// [`Unread`]: `NoCommand` where one of them isn't given as it has to be.
pub fn read_groups(alloc: Global, pairs: &[Pair]) -> Result<(Text, Items<Text>, Families), Unread>
    ensures read { IfOk result (λ x. (only (values_of (codes "--isa") pairs.now) ≡ Some x.0)
        × ((some_of most_groups (values_of (codes "--cgf") pairs.now) ≡ Some x.1)
        × (families_of (values_of (codes "--families") pairs.now) ≡ Some x.2))) }
    ensures none { IfErr result (λ e. e ≡ Unread.NoCommand
        → (only (values_of (codes "--isa") pairs.now) ≡ None)
        ⊎ ((some_of most_groups (values_of (codes "--cgf") pairs.now) ≡ None)
        ⊎ (families_of (values_of (codes "--families") pairs.now) ≡ None))) }
{
    let families = read_families(alloc, pairs)?;
    let isa = only_value(alloc, pairs, "--isa")?;
    let groups = some_values(alloc, pairs, "--cgf", MOST_GROUPS)?;
    Ok((isa, groups, families))
}

/// Reads the words behind `normalize`.
///
/// # Errors
///
/// [`Unread`].
pub fn read_normalize(alloc: Global, words: &[String]) -> Result<Command, Unread>
    ensures { Answers result (with_options normalize_options normalize_of (texts words.now)) }
{
    let options = read_options(alloc, words, &["--isa", "--cgf", "--families"])?;
    let (isa, groups, families) = read_groups(alloc, options.as_slice())?;
    Ok(Command::Normalize(NormalizeArguments {
        isa,
        groups,
        families,
    }))
}

/// Reads the words behind `generate`.
///
/// # Errors
///
/// [`Unread`].
pub fn read_generate(alloc: Global, words: &[String]) -> Result<Command, Unread>
    ensures { Answers result (with_options generate_options generate_of (texts words.now)) }
{
    let options = read_options(
        alloc,
        words,
        &["--isa", "--cgf", "--work", "--part", "--families"],
    )?;
    generate_asked(alloc, options.as_slice())
}

/// Reads the options of `generate`.
///
/// # Errors
///
/// [`Unread`].
fn generate_asked(alloc: Global, pairs: &[Pair]) -> Result<Command, Unread>
    ensures { Answers result (generate_of (λ name. values_of name pairs.now)) }
{
    let part = read_part(alloc, pairs)?;
    let work = only_value(alloc, pairs, "--work")?;
    let (isa, groups, families) = read_groups(alloc, pairs)?;
    Ok(Command::Generate(GenerateArguments {
        isa,
        groups,
        work,
        part,
        families,
    }))
}

/// Reads the words behind `coverage`.
///
/// # Errors
///
/// [`Unread`].
pub fn read_coverage(alloc: Global, words: &[String]) -> Result<Command, Unread>
    ensures { Answers result (with_options coverage_options coverage_of (texts words.now)) }
{
    let options = read_options(
        alloc,
        words,
        &[
            "--isa",
            "--cgf",
            "--log",
            "--window",
            "--families",
            "--progress",
        ],
    )?;
    coverage_asked(alloc, options.as_slice())
}

/// Reads the options of `coverage`.
///
/// # Errors
///
/// [`Unread`].
fn coverage_asked(alloc: Global, pairs: &[Pair]) -> Result<Command, Unread>
    ensures { Answers result (coverage_of (λ name. values_of name pairs.now)) }
{
    let progress = read_progress(alloc, pairs)?;
    let windows = given_windows(alloc, pairs)?;
    let logs = some_values(alloc, pairs, "--log", MOST_LOGS)?;
    let (isa, groups, families) = read_groups(alloc, pairs)?;
    Ok(Command::Coverage(CoverageArguments {
        isa,
        groups,
        logs,
        windows,
        families,
        progress,
    }))
}

/// The windows that the values of `--window` spell.
///
/// # Errors
///
/// [`Unread`]: `NoCommand` where a value spells none, or where there are more than 16.
fn given_windows(alloc: Global, pairs: &[Pair]) -> Result<Items<Window>, Unread>
    ensures { Answers result (windows_of (values_of (codes "--window") pairs.now)) }
{
    let spelled = few_values(alloc, pairs, "--window", MOST_WINDOWS)?;
    read_ranges(alloc, spelled.as_slice())
}

/// Reads the words behind `propagate`.
///
/// # Errors
///
/// [`Unread`].
pub fn read_propagate(alloc: Global, words: &[String]) -> Result<Command, Unread>
    ensures { Answers result (with_options propagate_options propagate_of (texts words.now)) }
{
    let options = read_options(
        alloc,
        words,
        &[
            "--isa",
            "--cgf",
            "--log",
            "--signature",
            "--families",
            "--progress",
        ],
    )?;
    propagate_asked(alloc, options.as_slice())
}

/// Reads the options of `propagate`.
///
/// # Errors
///
/// [`Unread`].
fn propagate_asked(alloc: Global, pairs: &[Pair]) -> Result<Command, Unread>
    ensures { Answers result (propagate_of (λ name. values_of name pairs.now)) }
{
    let progress = read_progress(alloc, pairs)?;
    let names = some_values(alloc, pairs, "--log", MOST_LOGS)?;
    let logs = given_signatures(alloc, pairs, names.as_slice())?;
    let (isa, groups, families) = read_groups(alloc, pairs)?;
    Ok(Command::Propagate(PropagateArguments {
        isa,
        groups,
        logs,
        families,
        progress,
    }))
}

/// Reads the words behind `report`.
///
/// # Errors
///
/// [`Unread`].
pub fn read_report(alloc: Global, words: &[String]) -> Result<Command, Unread>
    ensures { Answers result (with_options report_options report_of (texts words.now)) }
{
    let options = read_options(
        alloc,
        words,
        &[
            "--isa",
            "--cgf",
            "--device",
            "--work",
            "--log",
            "--window",
            "--families",
        ],
    )?;
    report_asked(alloc, options.as_slice())
}

/// Reads the options of `report`.
///
/// # Errors
///
/// [`Unread`].
fn report_asked(alloc: Global, pairs: &[Pair]) -> Result<Command, Unread>
    ensures { Answers result (report_of (λ name. values_of name pairs.now)) }
{
    let windows = given_windows(alloc, pairs)?;
    let logs = few_values(alloc, pairs, "--log", MOST_LOGS)?;
    let (device, work) = two_values(alloc, pairs, "--device", "--work")?;
    let (isa, groups, families) = read_groups(alloc, pairs)?;
    Ok(Command::Report(ReportArguments {
        isa,
        groups,
        device,
        work,
        logs,
        windows,
        families,
    }))
}
