// The verdict on what a device leaves.
ghost use Rattle.std.specs.Prelude.{◌≡◌, ◌≤◌, Some, length, IfOk};
ghost use Rattle.rvs_sig.specs.Verdicts.{verdict_of};
ghost use Rattle.rvs_device.specs.Judged.{compared, signature_limit, verdict_on};

use rvs_base::{Fault, NoMemory};
use rvs_sig::{SigRefusal, Verdict, compare, read_words};
use std::alloc::Global;

/// The verdict on the signature file that a run of a device left, beside the reference's words, and
/// the run's exit status, -1 where a signal ended the device. Places count from 0 and lines from 1.
#[derive(Drop, Clone, Copy)]
pub enum TestVerdict {
    /// The file spells the reference's words.
    Pass {
        /// How many words that are.
        n: usize,
        status: i32,
    },
    /// There is no file, or it is empty while the reference has words.
    NoSignature {
        status: i32,
    },
    /// The file has more than 2,621,440 bytes, or more than 262,144 good lines.
    TooLong {
        status: i32,
    },
    /// A line isn't exactly eight hexadecimal digits.
    BadSignature {
        /// The first such line.
        line: u32,
        status: i32,
    },
    /// The file spells as many words as the reference has, and not the same.
    Differs {
        /// The first place at which they differ.
        at: usize,
        /// The device's word there.
        left: u32,
        /// The reference's word there.
        right: u32,
        status: i32,
    },
    /// The file spells another number of words than the reference has.
    Lengths {
        /// How many words the file spells.
        device: usize,
        /// How many words the reference has.
        reference: usize,
        status: i32,
    },
}

/// The verdict on the bytes that a run left. Their number is within the limit.
///
/// # Errors
///
/// [`NoMemory`].
pub fn verdict_on(
    alloc: Global,
    status: i32,
    reference: &[u32],
    bytes: &[u8],
) -> Result<TestVerdict, NoMemory>
    requires { length bytes.now ≤ signature_limit }
    ensures { IfOk result (λ verdict. verdict ≡ verdict_on status reference.now (Some bytes.now)) }
{
    if bytes.is_empty() && !reference.is_empty() {
        return Ok(TestVerdict::NoSignature { status });
    }
    match read_words(alloc, bytes) {
        Ok(words) => Ok(compared(status, &compare(words.as_slice(), reference))),
        Err(Fault::Refused(SigRefusal::BadLine { line })) => {
            Ok(TestVerdict::BadSignature { line, status })
        },
        Err(Fault::Refused(SigRefusal::TooLong)) => Ok(TestVerdict::TooLong { status }),
        Err(Fault::NoMemory) => Err(NoMemory),
    }
}

fn compared(status: i32, verdict: &Verdict) -> TestVerdict
    ensures { result ≡ compared status verdict.now }
{
    match *verdict {
        Verdict::Same { n } => TestVerdict::Pass { n, status },
        Verdict::Differs {
            at,
            left,
            right,
            ..
        } => TestVerdict::Differs {
            at,
            left,
            right,
            status,
        },
        Verdict::Lengths { left, right } => TestVerdict::Lengths {
            device: left,
            reference: right,
            status,
        },
    }
}
