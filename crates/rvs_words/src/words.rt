// The words of a command line, and its options.
ghost use Rattle.std.specs.Prelude.{◌≡◌, ◌≤◌, ◌∷◌, ◌⊎◌, ℕ, List, length, Some, None, IfOk, IfErr};
ghost use Rattle.std.specs.Prelude.{MatchOption, MatchResult, bytes_eq};
ghost use Rattle.std.specs.List.{list_any, list_all};
ghost use Rattle.rvs_words.specs.Words.{texts, is_positional, pair_in, with_pair, pairs_of};
ghost use Rattle.rvs_words.specs.Words.{options_in, values_of, only, at_most_one};
ghost use Rattle.rvs_words.specs.Commands.{some_of, up_to};
ghost use Rattle.rvs_words.specs.Reading.{Answers};

use crate::unread::Unread;
use rvs_base::{Items, NoMemory, Text, beside};
use std::alloc::Global;

/// An option and its value.
#[derive(Drop)]
pub struct Pair {
    pub name: Text,
    pub value: Text,
}

/// Whether a word stands for itself: it isn't empty, and doesn't begin with a dash.
pub fn is_positional(word: &str) -> bool
    ensures { result ≡ is_positional word.now }
{
    match word.as_bytes() {
        [] => false,
        [first, ..] => *first != b'-',
    }
}

/// A word of its own.
pub fn owned(alloc: Global, word: &str) -> Result<Text, NoMemory>
    ensures { IfOk result (λ text. text ≡ word.now) }
{
    Ok(Text::from(String::from_str(alloc, word)?))
}

/// An option in one word: its name and its value, with `=` between, or the option that has no
/// value. No other value is empty.
fn pair_in(word: &str) -> Option<(&str, &str)>
    ensures { MatchOption result (pair_in word.now ≡ None)
        (λ x. pair_in word.now ≡ Some (record { name = x.0.now; value = x.1.now })) }
{
    if word == "--progress" {
        return Some((word, ""));
    }
    match word.split_once('=') {
        Some((name, value)) if !value.is_empty() => Some((name, value)),
        _ => None,
    }
}

/// An option with its value, and the words behind it.
///
/// # Errors
///
/// [`Unread`]: `NoCommand` where the option lacks its value.
fn first_pair<'w>(
    alloc: Global,
    word: &str,
    after: &'w [String],
) -> Result<(Pair, &'w [String]), Unread>
    ensures first { MatchResult result
        (λ x. pairs_of (word.now ∷ texts after.now) ≡ with_pair x.0 (pairs_of (texts x.1.now)))
        (λ e. e ≡ Unread.NoCommand → pairs_of (word.now ∷ texts after.now) ≡ None) }
    ensures fewer { IfOk result (λ x. length x.1.now ≤ length after.now) }
{
    let (name, value, rest) = match pair_in(word) {
        Some((name, value)) => (name, value, after),
        None => match after.split_first() {
            Some((value, more)) if is_positional(value.as_str()) => (word, value.as_str(), more),
            _ => return Err(Unread::NoCommand),
        },
    };
    let name = owned(alloc, name)?;
    let (value, name) = beside(owned(alloc, value), name)?;
    Ok((Pair { name, value }, rest))
}

/// Reads words that are options, each with its value behind `=` or in the next word.
///
/// # Errors
///
/// [`Unread`]: `NoCommand` where an option lacks its value.
fn read_pairs(alloc: Global, words: &[String]) -> Result<Items<Pair>, Unread>
    ensures { Answers result (pairs_of (texts words.now)) }
{
    let mut pairs = Items::new(alloc);
    let mut rest = words;
    while let Some((word, after)) = rest.split_first() {
        let (pair, more) = first_pair(alloc, word.as_str(), after)?;
        pairs.push(pair)?;
        rest = more;
    }
    Ok(pairs)
}

/// Reads words that are options of these names alone.
///
/// # Errors
///
/// [`Unread`]: `NoCommand` where an option lacks its value, or has another name.
pub fn read_options(alloc: Global, words: &[String], names: &[&str]) -> Result<Items<Pair>, Unread>
    ensures { let is_known = λ (word : List ℕ). list_any (λ name. bytes_eq word name.now) names.now
        in Answers result (options_in is_known (texts words.now)) }
{
    let pairs = read_pairs(alloc, words)?;
    if are_known(pairs.as_slice(), names) {
        Ok(pairs)
    } else {
        Err(Unread::NoCommand)
    }
}

fn are_known(pairs: &[Pair], names: &[&str]) -> bool
    ensures { result
        ≡ list_all (λ pair. list_any (λ name. bytes_eq pair.name name.now) names.now) pairs.now }
{
    for pair in pairs {
        if !is_one_of(pair.name.as_str(), names) {
            return false;
        }
    }
    true
}

fn is_one_of(word: &str, names: &[&str]) -> bool
    ensures { result ≡ list_any (λ name. bytes_eq word.now name.now) names.now }
{
    names.contains(&word)
}

/// The values of an option, in order.
///
/// # Errors
///
/// [`NoMemory`].
pub fn values(alloc: Global, pairs: &[Pair], name: &str) -> Result<Items<Text>, NoMemory>
    ensures { IfOk result (λ values. values ≡ values_of name.now pairs.now) }
{
    let mut values = Items::new(alloc);
    for pair in pairs {
        if pair.name.as_str() == name {
            values.push(owned(alloc, pair.value.as_str())?)?;
        }
    }
    Ok(values)
}

/// The values of an option that stands at least once, and so many times at most.
///
/// # Errors
///
/// [`Unread`]: `NoCommand` where it doesn't stand, or stands more often.
pub fn some_values(
    alloc: Global,
    pairs: &[Pair],
    name: &str,
    most: usize,
) -> Result<Items<Text>, Unread>
    ensures { Answers result (some_of most (values_of name.now pairs.now)) }
{
    let values = values(alloc, pairs, name)?;
    if (1..=most).contains(&values.as_slice().len()) {
        Ok(values)
    } else {
        Err(Unread::NoCommand)
    }
}

/// The values of an option that stands so many times at most.
///
/// # Errors
///
/// [`Unread`]: `NoCommand` where it stands more often.
pub fn few_values(
    alloc: Global,
    pairs: &[Pair],
    name: &str,
    most: usize,
) -> Result<Items<Text>, Unread>
    ensures { Answers result (up_to most (values_of name.now pairs.now)) }
{
    let values = values(alloc, pairs, name)?;
    if values.as_slice().len() <= most {
        Ok(values)
    } else {
        Err(Unread::NoCommand)
    }
}

/// The value of an option that stands once.
///
/// # Errors
///
/// [`Unread`]: `NoCommand` where it doesn't stand, or stands more than once.
#[tactic(auto, using(crate::proofs::OptionValues::only_is_at_most_one))]
pub fn only_value(alloc: Global, pairs: &[Pair], name: &str) -> Result<Text, Unread>
    ensures { Answers result (only (values_of name.now pairs.now)) }
{
    optional_value(alloc, pairs, name)?.ok_or(Unread::NoCommand)
}

/// The values of two options, each of which stands once.
///
/// # Errors
///
/// [`Unread`]: `NoCommand` where one of them doesn't stand, or stands more than once.
pub fn two_values(
    alloc: Global,
    pairs: &[Pair],
    first: &str,
    second: &str,
) -> Result<(Text, Text), Unread>
    ensures read { IfOk result (λ x. (only (values_of first.now pairs.now) ≡ Some x.0)
        × (only (values_of second.now pairs.now) ≡ Some x.1)) }
    ensures none { IfErr result (λ e. e ≡ Unread.NoCommand
        → (only (values_of first.now pairs.now) ≡ None)
        ⊎ (only (values_of second.now pairs.now) ≡ None)) }
{
    let first = only_value(alloc, pairs, first)?;
    let second = only_value(alloc, pairs, second)?;
    Ok((first, second))
}

/// The value of an option that needn't stand.
///
/// # Errors
///
/// [`Unread`]: `NoCommand` where it stands more than once.
#[tactic(auto, using(crate::proofs::OptionValues::more_than_one))]
pub fn optional_value(alloc: Global, pairs: &[Pair], name: &str) -> Result<Option<Text>, Unread>
    ensures { Answers result (at_most_one (values_of name.now pairs.now)) }
{
    let mut values = values(alloc, pairs, name)?.into_vec();
    if values.len() > 1 {
        return Err(Unread::NoCommand);
    }
    Ok(values.pop())
}
