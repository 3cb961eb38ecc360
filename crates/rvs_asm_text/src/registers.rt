// Registers.
ghost use Rattle.std.specs.Prelude.{◌≡◌, ◌<◌, IfSome};
ghost use Rattle.rvs_asm_text.specs.Registers.{abi_name, abi_number, abi_of, has_leading_zero};
ghost use Rattle.rvs_asm_text.specs.Registers.{register_digits, register_of};

use rvs_base::number_below;

/// The names of the calling convention for integer registers.
#[derive(Clone, Copy)]
pub enum AbiName {
    Zero,
    Ra,
    Sp,
    Gp,
    Tp,
    T0,
    T1,
    T2,
    S0,
    Fp,
    S1,
    A0,
    A1,
    A2,
    A3,
    A4,
    A5,
    A6,
    A7,
    S2,
    S3,
    S4,
    S5,
    S6,
    S7,
    S8,
    S9,
    S10,
    S11,
    T3,
    T4,
    T5,
    T6,
}

use AbiName::{
    A0, A1, A2, A3, A4, A5, A6, A7, Fp, Gp, Ra, S0, S1, S2, S3, S4, S5, S6, S7, S8, S9, S10, S11,
    Sp, T0, T1, T2, T3, T4, T5, T6, Tp, Zero,
};

const ABI_NAMES: [AbiName; 33] = [
    Zero, Ra, Sp, Gp, Tp, T0, T1, T2, S0, Fp, S1, A0, A1, A2, A3, A4, A5, A6, A7, S2, S3, S4, S5,
    S6, S7, S8, S9, S10, S11, T3, T4, T5, T6,
];

/// The name as it is written.
fn written(name: AbiName) -> &'static str
    ensures { result.now ≡ abi_name name }
{
    match name {
        Zero => "zero",
        Ra => "ra",
        Sp => "sp",
        Gp => "gp",
        Tp => "tp",
        T0 => "t0",
        T1 => "t1",
        T2 => "t2",
        S0 => "s0",
        Fp => "fp",
        S1 => "s1",
        A0 => "a0",
        A1 => "a1",
        A2 => "a2",
        A3 => "a3",
        A4 => "a4",
        A5 => "a5",
        A6 => "a6",
        A7 => "a7",
        S2 => "s2",
        S3 => "s3",
        S4 => "s4",
        S5 => "s5",
        S6 => "s6",
        S7 => "s7",
        S8 => "s8",
        S9 => "s9",
        S10 => "s10",
        S11 => "s11",
        T3 => "t3",
        T4 => "t4",
        T5 => "t5",
        T6 => "t6",
    }
}

/// The register that the name is.
fn register_number(name: AbiName) -> u8
    ensures value { result ≡ abi_number name }
    ensures low { result < 32 }
{
    match name {
        Zero => 0,
        Ra => 1,
        Sp => 2,
        Gp => 3,
        Tp => 4,
        T0 => 5,
        T1 => 6,
        T2 => 7,
        S0 | Fp => 8,
        S1 => 9,
        A0 => 10,
        A1 => 11,
        A2 => 12,
        A3 => 13,
        A4 => 14,
        A5 => 15,
        A6 => 16,
        A7 => 17,
        S2 => 18,
        S3 => 19,
        S4 => 20,
        S5 => 21,
        S6 => 22,
        S7 => 23,
        S8 => 24,
        S9 => 25,
        S10 => 26,
        S11 => 27,
        T3 => 28,
        T4 => 29,
        T5 => 30,
        T6 => 31,
    }
}

/// The convention's name that a text is.
#[tactic(auto, unfolding(crate::specs::Registers::abi_of))]
fn abi(text: &[u8]) -> Option<AbiName>
    ensures { result ≡ abi_of text.now }
{
    ABI_NAMES
        .iter()
        .copied()
        .find(|name| written(*name).as_bytes() == text)
}

/// Whether the first of several digits is 0.
fn has_leading_zero(text: &[u8]) -> bool
    ensures { result ≡ has_leading_zero text.now }
{
    match text {
        [first, _, ..] => *first == b'0',
        _ => false,
    }
}

/// The register whose digits these are: 0 to 31 without leading zeros.
fn digits_register(text: &[u8]) -> Option<u8>
    ensures value { result ≡ register_digits text.now }
    ensures low { IfSome result (λ r. r < 32) }
{
    if has_leading_zero(text) {
        return None;
    }
    match number_below(32, 10, text) {
        Some(register) => Some(register as u8),
        None => None,
    }
}

/// The register, 0 to 31, that a text names: `x0` to `x31`, or by the calling convention.
pub fn register(text: &[u8]) -> Option<u8>
    ensures value { result ≡ register_of text.now }
    ensures low { IfSome result (λ r. r < 32) }
{
    let numbered = match text {
        [b'x', digits @ ..] => digits_register(digits),
        _ => None,
    };
    match numbered {
        Some(register) => Some(register),
        None => match abi(text) {
            Some(name) => Some(register_number(name)),
            None => None,
        },
    }
}
