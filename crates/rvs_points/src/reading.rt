// What keys say.
ghost use Rattle.std.specs.Prelude.{◌≡◌, IfOk};
ghost use Rattle.rvs_points.specs.Points as spec;
ghost use Rattle.rvs_points.specs.SaidView.{said_view};

use crate::group::{Kind, Meaning};
use crate::keys::is_skipped;
use crate::refusal::CgfKind;
use rvs_base::{Fault, NoMemory};
use rvs_cross::{CrossRead, parse_cross};
use rvs_expr::{parse_num, parse_reg};
use rvs_expr_text::register_number;
use rvs_insn::op_of;
use std::alloc::Global;

/// What a key says under a kind.
#[derive(Drop)]
pub enum Said {
    /// This.
    Means(Meaning),
    /// Nothing: its entry is listed and not counted.
    Nothing,
    /// It is refused.
    Wrong(CgfKind),
}

fn read_mnemonic(key: &str) -> Said
    ensures { said_view result ≡ spec.says Kind.Mnemonic key.now }
{
    match op_of(key) {
        Some(op) => Said::Means(Meaning::OpIs(op)),
        None => Said::Wrong(CgfKind::UnknownMnemonic),
    }
}

fn read_register(key: &str) -> Said
    ensures { said_view result ≡ spec.says Kind.Rs1 key.now }
{
    match register_number(key.as_bytes()) {
        Some(number) => Said::Means(Meaning::RegIs(number)),
        None => Said::Wrong(CgfKind::BadRegister),
    }
}

fn read_reg_key(alloc: Global, key: &str) -> Result<Said, NoMemory>
    ensures { IfOk result (λ s. said_view s ≡ spec.says Kind.OpComb key.now) }
{
    if is_skipped(key.as_bytes()) {
        return Ok(Said::Nothing);
    }
    match parse_reg(alloc, key, &[]) {
        Ok(expr) => Ok(Said::Means(Meaning::Regs(expr))),
        Err(Fault::Refused(why)) => Ok(Said::Wrong(CgfKind::BadExpr(why))),
        Err(Fault::NoMemory) => Err(NoMemory),
    }
}

fn read_num_key(alloc: Global, key: &str) -> Result<Said, NoMemory>
    ensures { IfOk result (λ s. said_view s ≡ spec.says Kind.ValComb key.now) }
{
    if is_skipped(key.as_bytes()) {
        return Ok(Said::Nothing);
    }
    match parse_num(alloc, key) {
        Ok(expr) => Ok(Said::Means(Meaning::Nums(expr))),
        Err(Fault::Refused(why)) => Ok(Said::Wrong(CgfKind::BadExpr(why))),
        Err(Fault::NoMemory) => Err(NoMemory),
    }
}

fn read_cross_key(alloc: Global, key: &str) -> Result<Said, NoMemory>
    ensures { IfOk result (λ s. said_view s ≡ spec.says Kind.CrossComb key.now) }
{
    match parse_cross(alloc, key) {
        Ok(CrossRead::Read(cross)) => Ok(Said::Means(Meaning::Window(cross))),
        Ok(CrossRead::Skipped) => Ok(Said::Nothing),
        Err(Fault::Refused(why)) => Ok(Said::Wrong(CgfKind::BadCross(why))),
        Err(Fault::NoMemory) => Err(NoMemory),
    }
}

/// What a key says under its kind.
///
/// # Errors
///
/// [`NoMemory`].
pub fn read_key(alloc: Global, kind: Kind, key: &str) -> Result<Said, NoMemory>
    ensures { IfOk result (λ s. said_view s ≡ spec.says kind key.now) }
{
    match kind {
        Kind::Mnemonic => Ok(read_mnemonic(key)),
        Kind::Rs1 => Ok(read_register(key)),
        Kind::Rs2 => Ok(read_register(key)),
        Kind::Rd => Ok(read_register(key)),
        Kind::OpComb => read_reg_key(alloc, key),
        Kind::ValComb => read_num_key(alloc, key),
        Kind::CrossComb => read_cross_key(alloc, key),
    }
}
