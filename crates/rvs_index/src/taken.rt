// The signs of an instruction.
ghost use Rattle.std.specs.Prelude.{◌≡◌, ◌<◌, ◌≤◌, Some, true};
ghost use Rattle.std.specs.Int.{bit_not, w32};
ghost use Rattle.rvs_index.specs.Signs as spec;
ghost use Rattle.rvs_expr.specs.Meaning.{Table};

/// Whether a number that is there is below, equal to and above 0, as three bits.
#[inline(always)]
fn three(value: Option<i64>) -> u32
    ensures value { result ≡ spec.three_bits value }
    ensures low { result ≤ 7 }
{
    match value {
        None => 0,
        Some(value) => {
            u32::from(value < 0) + 2 * u32::from(value == 0) + 4 * u32::from(value > 0)
        },
    }
}

/// Whether a number that is there is at least 0, and whether it is below 32, as two bits.
#[inline(always)]
fn shift(value: Option<i64>) -> u32
    ensures value { result ≡ spec.shift_bits value }
    ensures low { result ≤ 3 }
{
    match value {
        None => 0,
        Some(value) => u32::from(value >= 0) + 2 * u32::from(value < 32),
    }
}

/// Which remainder by 4 a number has that is there, as four bits.
#[inline(always)]
fn four(value: Option<i64>) -> u32
    ensures value { result ≡ spec.four_bits value }
    ensures low { result ≤ 15 }
{
    match value {
        None => 0,
        Some(value) => match value.rem_euclid(4) {
            0 => 1,
            1 => 2,
            2 => 4,
            3 => 8,
            _ => 0,
        },
    }
}

/// Whether two numbers are one, and whether they aren't, as two bits: none where one isn't there.
#[inline(always)]
fn equality(left: Option<i64>, right: Option<i64>) -> u32
    ensures value { result ≡ spec.equal_bits left right }
    ensures low { result ≤ 3 }
{
    match left {
        None => 0,
        Some(left) => match right {
            None => 0,
            Some(right) => 2 - u32::from(left == right),
        },
    }
}

/// The same, whether the first is below the second, and whether it is above, as four bits.
#[inline(always)]
fn order(left: Option<i64>, right: Option<i64>) -> u32
    ensures value { result ≡ spec.order_bits left right }
    ensures low { result ≤ 15 }
{
    match left {
        None => 0,
        Some(left) => match right {
            None => 0,
            Some(right) => {
                2 - u32::from(left == right)
                    + 4 * u32::from(left < right)
                    + 8 * u32::from(left > right)
            },
        },
    }
}

/// Whether two registers are one, and whether they aren't, as two bits: none where one isn't there.
#[inline(always)]
fn relation(left: Option<u8>, right: Option<u8>) -> u32
    ensures value { result ≡ spec.relation_bits left right }
    ensures low { result ≤ 3 }
{
    match left {
        None => 0,
        Some(left) => match right {
            None => 0,
            Some(right) => 2 - u32::from(left == right),
        },
    }
}

/// Whether a register is there and is x0, as a bit.
#[inline(always)]
fn zero(register: Option<u8>) -> u32
    ensures value { result ≡ spec.bit (spec.relates true register (Some 0)) }
    ensures low { result ≤ 1 }
{
    match register {
        None => 0,
        Some(register) => u32::from(register == 0),
    }
}

/// The fields of an instruction and its numbers.
#[derive(Clone, Copy)]
pub(crate) struct Operands {
    pub rd: Option<u8>,
    pub rs1: Option<u8>,
    pub rs2: Option<u8>,
    pub rs1_val: Option<i64>,
    pub rs2_val: Option<i64>,
    pub imm_val: Option<i64>,
}

/// The signs of these operands, as the bits of a word.
#[inline(always)]
pub(crate) fn take_signs(o: Operands) -> u32
    ensures { result
        ≡ spec.signs_word (spec.signs o.rd o.rs1 o.rs2 o.rs1_val o.rs2_val o.imm_val) }
{
    let first = three(o.rs1_val);
    let second = three(o.rs2_val);
    let third = three(o.imm_val);
    let values = order(o.rs1_val, o.rs2_val);
    let immediate = equality(o.rs1_val, o.imm_val);
    let second_shift = shift(o.rs2_val);
    let third_shift = shift(o.imm_val);
    let rd_rs1 = relation(o.rd, o.rs1);
    let rd_rs2 = relation(o.rd, o.rs2);
    let rs1_rs2 = relation(o.rs1, o.rs2);
    let rd_zero = zero(o.rd);
    let rest = four(o.imm_val);
    let numbers = 1 + 2 * first + 16 * second + 128 * third + 1024 * values + 16_384 * immediate;
    let shifts = 65_536 * second_shift + 262_144 * third_shift;
    let registers = 1_048_576 * rd_rs1 + 4_194_304 * rd_rs2 + 16_777_216 * rs1_rs2;
    numbers + shifts + registers + 67_108_864 * rd_zero + 134_217_728 * rest
}

/// The bit of a sign.
#[tactic(auto, using(crate::proofs::Masks::one_says))]
#[inline(always)]
pub(crate) fn bit_of(sign: usize) -> u32
    requires { sign < 31 }
    ensures { (t : Table) → spec.has_signs result t ≡ spec.sign_at sign t }
{
    1u32 << sign
}

/// Whether a word has all bits of a mask.
#[inline(always)]
pub(crate) fn has_all(word: u32, mask: u32) -> bool
    ensures { result ≡ spec.has_all word mask }
{
    word & mask == mask
}

/// Whether a word, which lacks these bits, has all bits of a mask. The word isn't looked at: where
/// many masks are asked, what it lacks is found once, and each is one test.
#[tactic(auto, using(crate::proofs::Masks::lacks_none))]
#[inline(always)]
pub(crate) fn lacks_none(word: u32, lacking: u32, mask: u32) -> bool
    requires { lacking ≡ bit_not w32 word }
    ensures { result ≡ spec.has_all word mask }
{
    let _ = word;
    lacking & mask == 0
}
