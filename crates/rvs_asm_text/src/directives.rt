// Directives.
ghost use Rattle.std.specs.Prelude.{◌≡◌, ◌<◌, ◌≤◌, ◌⊎◌, Some, IfOk};
ghost use Rattle.std.specs.List.{list_any};
ghost use Rattle.rvs_asm_text.specs.Text.{is_blank};
ghost use Rattle.rvs_asm_text.specs.Numbers.{number_of};
ghost use Rattle.rvs_asm_text.specs.Instructions.{number_value, IsReady};
ghost use Rattle.rvs_asm_text.specs.Operands.{only, triple};
ghost use Rattle.rvs_asm_text.specs.Directives.{directive_name, directive_of, fits, data_value};
ghost use Rattle.rvs_asm_text.specs.Directives.{wide, values_fault, values, without_operands};
ghost use Rattle.rvs_asm_text.specs.Directives.{one_word, aligned, zeroed, filled, filled_by};
ghost use Rattle.rvs_asm_text.specs.Directives.{number_of_one, is_size, directed};
ghost use Rattle.rvs_asm_text.specs.Directives.{section_named, section_of};

use crate::arguments::Operands;
use crate::bodies::{Body, LineFault, Link, Value};
use crate::cutting::is_blank_byte;
use crate::instructions::{is_within, read_number};
use crate::names::Name;
use crate::numbers::number;

/// The first word of a directive other than `.section`.
#[derive(Clone, Copy)]
pub enum Directive {
    Text,
    Data,
    Globl,
    Option,
    Align,
    P2align,
    Word,
    Half,
    Byte,
    Zero,
    Fill,
}

const DIRECTIVES: [Directive; 11] = [
    Directive::Text,
    Directive::Data,
    Directive::Globl,
    Directive::Option,
    Directive::Align,
    Directive::P2align,
    Directive::Word,
    Directive::Half,
    Directive::Byte,
    Directive::Zero,
    Directive::Fill,
];

/// The directive as it is written.
fn directive_text(directive: Directive) -> &'static str
    ensures { result.now ≡ directive_name directive }
{
    match directive {
        Directive::Text => ".text",
        Directive::Data => ".data",
        Directive::Globl => ".globl",
        Directive::Option => ".option",
        Directive::Align => ".align",
        Directive::P2align => ".p2align",
        Directive::Word => ".word",
        Directive::Half => ".half",
        Directive::Byte => ".byte",
        Directive::Zero => ".zero",
        Directive::Fill => ".fill",
    }
}

/// The directive that a word is.
#[tactic(auto, unfolding(crate::specs::Directives::directive_of))]
pub fn read_directive(word: &[u8]) -> Option<Directive>
    ensures { result ≡ directive_of word.now }
{
    for directive in &DIRECTIVES {
        if directive_text(*directive).as_bytes() == word {
            return Some(*directive);
        }
    }
    None
}

/// Whether a number of so many bytes, signed or unsigned, can be this one.
fn fits_size(size: u8, number: i64) -> bool
    requires { (size ≡ 1) ⊎ (size ≡ 2) ⊎ (size ≡ 4) }
    ensures { result ≡ fits size number }
{
    match size {
        1 => is_within(-0x80, 0xff, number),
        2 => is_within(-0x8000, 0xffff, number),
        _ => is_within(-0x8000_0000, 0xffff_ffff, number),
    }
}

/// A number of data, or for words a symbol.
pub fn read_value(size: u8, text: &[u8]) -> Option<Value<'_>>
    ensures { result ≡ data_value size text.now }
{
    match read_number(text) {
        Some(value) => Some(value),
        None => {
            if size != 4 {
                return None;
            }
            Some(Value {
                number: 0,
                link: Link::Whole(Name::read(text)?),
            })
        },
    }
}

/// The number of a value where it is outside its size.
fn wide_number(size: u8, value: &Value<'_>) -> Option<i64>
    requires { (size ≡ 1) ⊎ (size ≡ 2) ⊎ (size ≡ 4) }
    ensures { result ≡ wide size (Some value.now) }
{
    let number = value.number;
    if fits_size(size, number) {
        None
    } else {
        Some(number)
    }
}

/// What keeps operands from being data of a size: one that is no value, else the first number
/// outside the size. Each is read once.
#[tactic(auto, using(crate::proofs::ValueFaults::fault_more, crate::proofs::ValueFaults::fault_here, crate::proofs::ValueFaults::fault_end))]
fn values_fault(size: u8, mut operands: Operands<'_>) -> Option<LineFault>
    requires { (size ≡ 1) ⊎ (size ≡ 2) ⊎ (size ≡ 4) }
    ensures { result ≡ values_fault size operands.entry }
{
    let mut wide = None;
    while let Some(text) = operands.next() {
        let value = match read_value(size, text) {
            None => return Some(LineFault::BadOperand),
            Some(value) => value,
        };
        wide = wide.or(wide_number(size, &value));
    }
    match wide {
        Some(number) => Some(LineFault::OutOfRange(number)),
        None => None,
    }
}

/// `.byte`, `.half` and `.word` with their numbers.
#[tactic(auto, using(crate::proofs::ValueFaults::values_good, crate::proofs::ValueFaults::values_bad))]
fn read_values<'t>(size: u8, operands: Operands<'t>) -> Result<Body<'t>, LineFault>
    requires { (size ≡ 1) ⊎ (size ≡ 2) ⊎ (size ≡ 4) }
    ensures body { result ≡ values size operands.entry }
    ensures ready { IfOk result IsReady }
{
    if operands.again().next().is_none() {
        return Err(LineFault::BadOperand);
    }
    match values_fault(size, operands.again()) {
        Some(fault) => Err(fault),
        None => Ok(Body::Values(size, operands)),
    }
}

/// A directive without operands.
fn read_plain<'t>(body: Body<'t>, mut operands: Operands<'_>) -> Result<Body<'t>, LineFault>
    requires { IsReady body }
    ensures body { result ≡ without_operands body.entry operands.entry }
    ensures ready { IfOk result IsReady }
{
    match operands.next() {
        None => Ok(body),
        Some(_) => Err(LineFault::BadOperand),
    }
}

/// Whether a text has a blank.
fn has_blank(text: &[u8]) -> bool
    ensures { result ≡ list_any is_blank text.now }
{
    for c in text {
        if is_blank_byte(*c) {
            return true;
        }
    }
    false
}

/// A directive without effect, with one word.
fn read_word(operands: Operands<'_>) -> Result<Body<'static>, LineFault>
    ensures body { result ≡ one_word (only operands.entry) }
    ensures ready { IfOk result IsReady }
{
    match operands.only() {
        Some(word) if !has_blank(word) => Ok(Body::Nothing),
        _ => Err(LineFault::BadOperand),
    }
}

/// The number that is the only operand.
fn read_only_number(operands: Operands<'_>) -> Option<i64>
    ensures { result ≡ number_of_one (only operands.entry) }
{
    number(operands.only()?)
}

/// `.align n` and `.p2align n`.
fn read_alignment(power: Option<i64>) -> Result<Body<'static>, LineFault>
    ensures body { result ≡ aligned power }
    ensures ready { IfOk result IsReady }
{
    match power {
        None => Err(LineFault::BadOperand),
        Some(power) => {
            if is_within(0, 12, power) {
                Ok(Body::Align(power as u8))
            } else {
                Err(LineFault::OutOfRange(power))
            }
        },
    }
}

/// `.zero n`.
fn read_zero(count: Option<i64>) -> Result<Body<'static>, LineFault>
    ensures body { result ≡ zeroed count }
    ensures ready { IfOk result IsReady }
{
    match count {
        None => Err(LineFault::BadOperand),
        Some(count) => {
            if count >= 0 {
                Ok(Body::Fill(count as u64, 1, 0))
            } else {
                Err(LineFault::OutOfRange(count))
            }
        },
    }
}

/// `.fill n, size, value`, of the right sorts.
fn read_fill(count: i64, size: i64, value: i64) -> Result<Body<'static>, LineFault>
    ensures body { result ≡ filled (Some count) (Some size) (Some value) }
    ensures ready { IfOk result IsReady }
{
    if count < 0 {
        return Err(LineFault::OutOfRange(count));
    }
    if size != 1 && size != 2 && size != 4 {
        return Err(LineFault::OutOfRange(size));
    }
    let size = size as u8;
    if fits_size(size, value) {
        Ok(Body::Fill(count as u64, size, value))
    } else {
        Err(LineFault::OutOfRange(value))
    }
}

/// The operands of `.fill`.
fn read_fill_operands(operands: Operands<'_>) -> Result<Body<'static>, LineFault>
    ensures body { result ≡ filled_by (triple operands.entry) }
    ensures ready { IfOk result IsReady }
{
    let Some((count, size, value)) = operands.triple() else {
        return Err(LineFault::BadOperand);
    };
    let Some(count) = number(count) else {
        return Err(LineFault::BadOperand);
    };
    let Some(size) = number(size) else {
        return Err(LineFault::BadOperand);
    };
    let Some(value) = number(value) else {
        return Err(LineFault::BadOperand);
    };
    read_fill(count, size, value)
}

/// A directive with its operands.
pub fn read_directed<'t>(
    directive: Directive,
    operands: Operands<'t>,
) -> Result<Body<'t>, LineFault>
    ensures body { result ≡ directed directive operands.entry }
    ensures ready { IfOk result IsReady }
{
    match directive {
        Directive::Text => read_plain(Body::ToText, operands),
        Directive::Data => read_plain(Body::ToData, operands),
        Directive::Globl | Directive::Option => read_word(operands),
        Directive::Align | Directive::P2align => read_alignment(read_only_number(operands)),
        Directive::Word => read_values(4, operands),
        Directive::Half => read_values(2, operands),
        Directive::Byte => read_values(1, operands),
        Directive::Zero => read_zero(read_only_number(operands)),
        Directive::Fill => read_fill_operands(operands),
    }
}

/// `.section` with its operands, of which the first decides.
#[tactic(auto, using(crate::proofs::Fronts::begins_as))]
pub fn read_section(mut operands: Operands<'_>) -> Result<Body<'static>, LineFault>
    ensures body { result ≡ section_of operands.entry }
    ensures ready { IfOk result IsReady }
{
    let name = match operands.next() {
        Some(name) => name,
        None => return Err(LineFault::BadOperand),
    };
    if name.is_empty() {
        Err(LineFault::BadLine)
    } else if name.starts_with(b".text") {
        Ok(Body::ToText)
    } else if name.starts_with(b".data") {
        Ok(Body::ToData)
    } else {
        Err(LineFault::BadOperand)
    }
}
