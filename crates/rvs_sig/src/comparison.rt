// How two lists of words differ.
ghost use Rattle.std.specs.Prelude.{◌≡◌, ◌≢◌, ◌↔◌, ◌<◌, ℕ, IfSome, length, position};
ghost use Rattle.std.specs.List.{zip};
ghost use Rattle.rvs_sig.specs.Verdicts.{FirstDiffers, differ, differing, verdict_of};

/// How two lists of words differ. Places count from 0.
#[derive(Drop, Clone, Copy)]
pub enum Verdict {
    /// The lists are equal.
    Same {
        /// How many words each has.
        n: usize,
    },
    /// The lists are of one length, and not equal.
    Differs {
        /// The first place at which they differ.
        at: usize,
        /// The left list's word there.
        left: u32,
        /// The right list's word there.
        right: u32,
        /// How many places differ.
        differing: usize,
    },
    /// The lists are not of one length.
    Lengths {
        /// How many words the left list has.
        left: usize,
        /// How many words the right list has.
        right: usize,
    },
}

/// Compares two lists of words, place by place. It takes no memory.
pub fn compare(left: &[u32], right: &[u32]) -> Verdict
    ensures verdict { result ≡ verdict_of left.now right.now }
    ensures same { (n : ℕ)
        → (result ≡ Verdict.Same n) ↔ ((left.now ≡ right.now) × (n ≡ length left.now)) }
    ensures lengths { (m n : ℕ) → (result ≡ Verdict.Lengths m n)
        ↔ ((m ≡ length left.now) × (n ≡ length right.now) × (m ≢ n)) }
    ensures differs { (at l r d : ℕ) → result ≡ Verdict.Differs at l r d
        → FirstDiffers left.now right.now at l r }
    ensures counts { (at l r d : ℕ) → result ≡ Verdict.Differs at l r d
        → d ≡ differing left.now right.now }
{
    if left.len() != right.len() {
        return Verdict::Lengths {
            left: left.len(),
            right: right.len(),
        };
    }
    match first_difference(left, right) {
        None => Verdict::Same { n: left.len() },
        Some(at) => Verdict::Differs {
            at,
            left: left[at],
            right: right[at],
            differing: count_differences(left, right),
        },
    }
}

fn first_difference(left: &[u32], right: &[u32]) -> Option<usize>
    ensures first { result ≡ position differ (zip left.now right.now) }
    ensures within_left { IfSome result (λ at. at < length left.now) }
    ensures within_right { IfSome result (λ at. at < length right.now) }
{
    left.iter().zip(right).position(|(l, r)| *l != *r)
}

fn count_differences(left: &[u32], right: &[u32]) -> usize
    ensures { result ≡ differing left.now right.now }
{
    left.iter().zip(right).filter(|(l, r)| **l != **r).count()
}
