// The variables of `sp_dataset`.
ghost use Rattle.std.specs.Prelude.{◌≡◌};
ghost use Rattle.rvs_abstract.specs.Calls as spec;

use crate::arguments::{first_item, grouped, size_of, truth_of, var_of};
use crate::families::Families;
use rvs_expr::NumName;
use rvs_text::bytes::trimmed;

/// A variable with its size, which may be none that a family has, and its signedness.
#[derive(Clone, Copy)]
pub struct Factor {
    /// The variable.
    pub var: NumName,
    /// The number of bits, where it is at most 32.
    pub size: Option<u8>,
    /// Whether the bits are read as signed.
    pub signed: bool,
}

/// The variable, where all of it was read.
pub fn factor_of(
    var: Option<NumName>,
    size: Option<Option<u8>>,
    signed: Option<bool>,
) -> Option<Factor>
    ensures { result ≡ spec.factor_of var size signed }
{
    match (var, size, signed) {
        (Some(var), Some(size), Some(signed)) => Some(Factor { var, size, signed }),
        _ => None,
    }
}

fn with_own_sign(a: &[u8], b: &[u8], rest: &[u8]) -> Option<Factor>
    ensures { result ≡ spec.with_own_sign a.now b.now (spec.first_item rest.now) }
{
    let (c, rest) = first_item(rest);
    match rest {
        Some(_) => None,
        None => factor_of(
            var_of(trimmed(a)),
            size_of(Families::All, trimmed(b)),
            truth_of(trimmed(c)),
        ),
    }
}

fn with_own_size(signed: bool, a: &[u8], rest: &[u8]) -> Option<Factor>
    ensures { result ≡ spec.with_own_size signed a.now (spec.first_item rest.now) }
{
    let (b, rest) = first_item(rest);
    match rest {
        Some(rest) => with_own_sign(a, b, rest),
        None => factor_of(
            var_of(trimmed(a)),
            size_of(Families::All, trimmed(b)),
            Some(signed),
        ),
    }
}

fn own_factor(signed: bool, inside: &[u8]) -> Option<Factor>
    ensures { result ≡ spec.own_factor signed (spec.first_item inside.now) }
{
    let (a, rest) = first_item(inside);
    match rest {
        Some(rest) => with_own_size(signed, a, rest),
        None => None,
    }
}

fn by_group(size: Option<u8>, signed: bool, text: &[u8]) -> Option<Factor>
    ensures { result ≡ spec.by_group size signed text.now (spec.grouped text.now) }
{
    match grouped(text) {
        Some(inside) => own_factor(signed, inside),
        None => factor_of(var_of(text), Some(size), Some(signed)),
    }
}

/// The variable of an entry of the list, by the call's size and signedness.
pub fn listed(size: Option<Option<u8>>, signed: Option<bool>, text: &[u8]) -> Option<Factor>
    ensures { result ≡ spec.listed size signed text.now }
{
    match size {
        Some(size) => match signed {
            Some(signed) => by_group(size, signed, trimmed(text)),
            None => None,
        },
        None => None,
    }
}
