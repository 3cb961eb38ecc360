// Texts of expressions, as what they tell or why they are refused.
use rvs_base::{Fault, release};
use rvs_expr::{Expr, ExprRefusal, NumName, parse_num, parse_reg};
use rvs_expr_text::{Language, read_node};
use rvs_free::Free;
use std::alloc::Global;
use std::test::Fail;

fn spell_refusal(refusal: &ExprRefusal, report: &mut String) -> Result<(), Fail> {
    write!(
        report,
        "expr {} column {}\n",
        refusal.kind.number(),
        refusal.column
    )?;
    Ok(())
}

/// Adds that a text is read.
fn accept(report: &mut String) -> Result<(), Fail> {
    report.push_str("ok\n")?;
    Ok(())
}

/// Adds whether a text is an expression, without regard to what its words mean.
pub fn tell_node(alloc: Global, text: &str, report: &mut String) -> Result<(), Fail> {
    let read = read_node(alloc, Language::Numbers, &[], text.as_bytes());
    let told = match &read {
        Ok(_) => accept(report),
        Err(Fault::Refused(refusal)) => spell_refusal(refusal, report),
        Err(Fault::NoMemory) => Err(Fail::new("no memory")),
    };
    release(read);
    told
}

/// Adds whether an expression uses `rs1_val` and `imm_val`, its equation and its constants.
fn spell_expr(expr: &Expr, report: &mut String) -> Result<(), Fail> {
    if expr.uses(NumName::Rs1Val) {
        report.push_str("rs1_val, ")?;
    }
    if expr.uses(NumName::ImmVal) {
        report.push_str("imm_val, ")?;
    }
    write!(report, "equation {:?}, ", expr.equation(Free::new()))?;
    write!(report, "constants {:?}\n", expr.constants())?;
    Ok(())
}

/// Adds what an expression of numbers tells.
pub fn tell_num(alloc: Global, text: &str, report: &mut String) -> Result<(), Fail> {
    let read = parse_num(alloc, text);
    let told = match &read {
        Ok(expr) => spell_expr(expr, report),
        Err(Fault::Refused(refusal)) => spell_refusal(refusal, report),
        Err(Fault::NoMemory) => Err(Fail::new("no memory")),
    };
    release(read);
    told
}

fn spell_part(alloc: Global, expr: &Expr, report: &mut String) -> Result<(), Fail> {
    let part = expr
        .part(alloc, &[NumName::ImmVal])
        .map_err(|_| "no memory")?;
    let told = match &part {
        Some(part) => spell_expr(part, report),
        None => Ok(report.push_str("none\n")?),
    };
    release(part);
    told
}

/// Adds what the part of an expression tells that has `imm_val` alone.
pub fn tell_part(alloc: Global, text: &str, report: &mut String) -> Result<(), Fail> {
    let read = parse_num(alloc, text);
    let told = match &read {
        Ok(expr) => spell_part(alloc, expr, report),
        Err(Fault::Refused(refusal)) => spell_refusal(refusal, report),
        Err(Fault::NoMemory) => Err(Fail::new("no memory")),
    };
    release(read);
    told
}

/// Adds whether a text is an expression of registers.
pub fn tell_reg(alloc: Global, text: &str, report: &mut String) -> Result<(), Fail> {
    let read = parse_reg(alloc, text, &[]);
    let told = match &read {
        Ok(_) => accept(report),
        Err(Fault::Refused(refusal)) => spell_refusal(refusal, report),
        Err(Fault::NoMemory) => Err(Fail::new("no memory")),
    };
    release(read);
    told
}
