// The command lines that may name a database of tests.
ghost use Rattle.std.specs.Prelude.{◌≡◌};
ghost use Rattle.rvs_words.specs.Words.{texts, values_of};
ghost use Rattle.rvs_words.specs.Commands.{with_options, select_options, select_of, is_given};
ghost use Rattle.rvs_words.specs.Commands.{run_options, run_groups_of, run_database_of, run_of};
ghost use Rattle.rvs_words.specs.Reading.{Answers};

use crate::command::{Command, RunArguments, RunDatabaseArguments, SelectArguments};
use crate::group_commands::read_groups;
use crate::parts::read_part;
use crate::unread::Unread;
use crate::words::{Pair, owned, read_options, two_values};
use std::alloc::Global;

/// Reads the words behind `select`.
///
/// # Errors
///
/// [`Unread`].
pub fn read_select(alloc: Global, words: &[String]) -> Result<Command, Unread>
    ensures { Answers result (with_options select_options select_of (texts words.now)) }
{
    let options = read_options(alloc, words, &["--isa", "--database"])?;
    let (isa, database) = two_values(alloc, options.as_slice(), "--isa", "--database")?;
    Ok(Command::Select(SelectArguments { isa, database }))
}

/// Reads the words behind `run`. The program's own name is kept with them.
///
/// # Errors
///
/// [`Unread`].
pub fn read_run(alloc: Global, program: &str, words: &[String]) -> Result<Command, Unread>
    ensures { Answers result (with_options run_options (run_of program.now) (texts words.now)) }
{
    let options = read_options(
        alloc,
        words,
        &[
            "--isa",
            "--cgf",
            "--database",
            "--device",
            "--work",
            "--part",
            "--families",
        ],
    )?;
    read_source(alloc, program, options.as_slice())
}

/// Reads the options of `run`, by where its tests come from.
///
/// # Errors
///
/// [`Unread`]: `NoCommand` also where there are both group files and a database, or neither, and
/// where families are given with a database.
fn read_source(alloc: Global, program: &str, pairs: &[Pair]) -> Result<Command, Unread>
    ensures { Answers result (run_of program.now (λ name. values_of name pairs.now)) }
{
    if !is_given(pairs, "--database") {
        return run_groups(alloc, program, pairs);
    }
    if is_given(pairs, "--cgf") || is_given(pairs, "--families") {
        return Err(Unread::NoCommand);
    }
    run_database(alloc, program, pairs)
}

/// Whether an option stands.
fn is_given(pairs: &[Pair], name: &str) -> bool
    ensures { result ≡ is_given (values_of name.now pairs.now) }
{
    for pair in pairs {
        if pair.name.as_str() == name {
            return true;
        }
    }
    false
}

/// Reads the options of `run` over group files.
///
/// # Errors
///
/// [`Unread`].
fn run_groups(alloc: Global, program: &str, pairs: &[Pair]) -> Result<Command, Unread>
    ensures { Answers result (run_groups_of program.now (λ name. values_of name pairs.now)) }
{
    let part = read_part(alloc, pairs)?;
    let program = owned(alloc, program)?;
    let (device, work) = two_values(alloc, pairs, "--device", "--work")?;
    let (isa, groups, families) = read_groups(alloc, pairs)?;
    Ok(Command::Run(RunArguments {
        program,
        isa,
        groups,
        device,
        work,
        part,
        families,
    }))
}

/// Reads the options of `run` over a database.
///
/// # Errors
///
/// [`Unread`].
fn run_database(alloc: Global, program: &str, pairs: &[Pair]) -> Result<Command, Unread>
    ensures { Answers result (run_database_of program.now (λ name. values_of name pairs.now)) }
{
    let part = read_part(alloc, pairs)?;
    let program = owned(alloc, program)?;
    let (isa, database) = two_values(alloc, pairs, "--isa", "--database")?;
    let (device, work) = two_values(alloc, pairs, "--device", "--work")?;
    Ok(Command::RunDatabase(RunDatabaseArguments {
        program,
        isa,
        database,
        device,
        work,
        part,
    }))
}
