// The numbers of several logs together.
ghost use Rattle.std.specs.Prelude.{◌≡◌, ◌++◌, ◌∷◌, [], IfOk, length};
ghost use Rattle.rvs_coverage.specs.Summing.{plus_each, total_of};

use rvs_base::{Items, NoMemory};

/// Each number with the one in its place of the others, where there is one. No memory is taken.
#[tactic(auto, using(crate::proofs::Sums::done_more, crate::proofs::Sums::plus_length))]
pub fn plus_each(numbers: Items<u64>, others: &[u64]) -> Items<u64>
    ensures numbers { result ≡ plus_each numbers others.now }
    ensures long { length result ≡ length numbers }
{
    let mut sums = numbers.into_vec();
    for (at, number) in others.iter().enumerate() {
        if at < sums.len() {
            sums[at] = sums[at].saturating_add(*number);
        }
    }
    Items::from(sums)
}

/// The sum of numbers; it stands at 2^64 - 1 where it would be greater.
pub fn total_of(numbers: &[u64]) -> u64
    ensures { result ≡ total_of numbers.now }
{
    let mut total: u64 = 0;
    for number in numbers {
        total = total.saturating_add(*number);
    }
    total
}

/// The numbers with one more.
///
/// # Errors
///
/// [`NoMemory`].
pub fn with_number(numbers: Items<u64>, number: u64) -> Result<Items<u64>, NoMemory>
    ensures { IfOk result (λ all. all ≡ numbers ++ number ∷ []) }
{
    let mut numbers = numbers;
    numbers.push(number)?;
    Ok(numbers)
}
