// How deep a flow collection can be, told from its text alone.
ghost use Rattle.std.specs.Prelude.{◌≡◌, ◌<◌, ◌≤◌, ◌+◌, ◌^◌, ℕ, suc, false, max, min, length, IfOk};
ghost use Rattle.rvs_yaml_text.specs.Tokens.{tokens, tokens_of};
ghost use Rattle.rvs_yaml_text.specs.TokenView.{token_view};
ghost use Rattle.rvs_yaml.specs.Heights as spec;
ghost use Rattle.rvs_yaml.specs.StackView.{all_known, IsKeptUpTo};
ghost use Rattle.rvs_yaml.specs.TokenParts.{is_flow_end};

use crate::flow_text::is_flow_end;
use crate::known::Known;
use crate::reading::Scan;
use rvs_base::release;
use rvs_yaml_text::{Token, behind_first, closes, next_token, starts_with};
use std::alloc::{AllocError, Global};

/// The depth from which on depths are counted as one.
const DEEP: u64 = 33;

/// The sum of a level and a depth, counted up to 33.
fn reach_of(level: u128, more: u64) -> u64
    requires { more ≤ 33 }
    ensures { result ≡ min (level + more) 33 }
{
    let level = if level < 33 { level as u64 } else { DEEP };
    (level + more).min(DEEP)
}

/// The level behind a token.
fn level_behind(level: u128, token: &Token<'_>) -> u128
    requires { level < 2 ^ 100 }
    ensures { result ≡ spec.level_behind level (token_view token.now) }
{
    match token {
        Token::Opening(_) => level + 1,
        Token::Closing(_) => level.saturating_sub(1),
        _ => level,
    }
}

/// How deep it gets at a token.
fn reach(known: &Known<'_, '_>, level: u128, token: &Token<'_>) -> u64
    ensures bound { min (spec.reach (all_known known.now) level (token_view token.now)) 33
        ≤ result }
    ensures kept { (most : ℕ) → IsKeptUpTo most known.now
        → result ≤ min (spec.reach_by (spec.alike most) level (token_view token.now)) 33 }
    ensures shallow { result ≤ 33 }
{
    match token {
        Token::Closing(_) => 0,
        Token::Alias(name) => reach_of(level, known.alias_depth(name)),
        _ => reach_of(level, 1),
    }
}

/// Looks at one space or one token more.
fn next_scan<'a>(
    alloc: Global,
    known: &Known<'_, '_>,
    scan: Scan<'a>,
) -> Result<Scan<'a>, AllocError>
    requires some { 0 < length scan.rest.now }
    requires small { scan.level < 2 ^ 100 }
    requires goes { is_flow_end scan.spaced scan.rest.now ≡ false }
    ensures height { IfOk result (λ s. (n : ℕ) → min (max scan.entry.reached (spec.height
        (all_known known.now) scan.entry.level
        (tokens (suc n) scan.entry.closed scan.entry.spaced scan.entry.rest.now))) 33 ≤ max
        s.reached (spec.height (all_known known.now) s.level (tokens n s.closed s.spaced
        s.rest.now))) }
    ensures kept { IfOk result (λ s. (n most : ℕ) → IsKeptUpTo most known.now → max s.reached
        (min (spec.height_by (spec.alike most) s.level (tokens n s.closed s.spaced s.rest.now)) 33)
        ≤ max scan.entry.reached (min (spec.height_by (spec.alike most) scan.entry.level
        (tokens (suc n) scan.entry.closed scan.entry.spaced scan.entry.rest.now)) 33)) }
    ensures level { IfOk result (λ s. s.level ≤ scan.entry.level + 1) }
    ensures shallow { scan.entry.reached ≤ 33 → IfOk result (λ s. s.reached ≤ 33) }
{
    let Scan {
        level,
        reached,
        closed,
        spaced: _,
        rest,
    } = scan;
    if starts_with(b' ', rest.as_bytes()) {
        return Ok(Scan {
            level,
            reached,
            closed,
            spaced: true,
            rest: behind_first(rest),
        });
    }
    let (token, behind) = next_token(alloc, closed, rest)?;
    let next = Scan {
        level: level_behind(level, &token),
        reached: reached.max(reach(known, level, &token)),
        closed: closes(&token),
        spaced: false,
        rest: behind,
    };
    release(token);
    Ok(next)
}

/// A bound on the depth of a flow collection, from behind its first bracket. From 33 on depths are
/// counted as 33. It is no more than the brackets and the depths that are kept with anchors make.
pub(crate) fn flow_height(
    alloc: Global,
    known: &Known<'_, '_>,
    text: &str,
) -> Result<u64, AllocError>
    ensures bound { IfOk result
        (λ n. min (max 1 (spec.height (all_known known.now) 1 (tokens_of text.now))) 33 ≤ n) }
    ensures kept { (most : ℕ) → IsKeptUpTo most known.now → IfOk result (λ n. n ≤ max 1
        (min (spec.height_by (spec.alike most) 1 (tokens_of text.now)) 33)) }
    ensures shallow { IfOk result (λ n. n ≤ 33) }
{
    let mut scan = Scan {
        level: 1,
        reached: 1,
        closed: false,
        spaced: false,
        rest: text,
    };
    // A token takes a byte at least.
    let mut left = text.len();
    while left > 0 {
        if is_flow_end(scan.spaced, scan.rest.as_bytes()) {
            return Ok(scan.reached);
        }
        scan = next_scan(alloc, known, scan)?;
        left -= 1;
    }
    Ok(scan.reached)
}
