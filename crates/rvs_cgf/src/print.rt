// The texts of groups and of their refusals.
ghost use Rattle.std.specs.Prelude.{◌≡◌, ◌<◌, ◌==◌, ◌∷◌, ◌++◌, [], map, length, Some, None, IfOk};
ghost use Rattle.std.specs.Prelude.{IsTrue, OnOk, MatchOption, codes};
ghost use Rattle.std.specs.List.{flat_map, before_first, after_first, position_or_len};
ghost use Rattle.rvs_cgf.specs.GroupView.{label_view, point_view, skipped_view, refusal_view};
ghost use Rattle.rvs_cgf.specs.Print as spec;

use crate::refusal::CgfRefusal;
use crate::walk::same_kind;
use rvs_base::{NoMemory, Refusal, Text, release};
use rvs_cross::CrossRefusal;
use rvs_expr::ExprRefusal;
use rvs_points::{CgfKind, Groups, Kind, Label, Point, Skipped};
use std::alloc::Global;

/// What stands before and behind the first single quote.
fn at_quote(text: &str) -> Option<(&str, &str)>
    ensures { MatchOption result (position_or_len (λ b. b == 39) text.now ≡ length text.now)
        (λ parts. (parts.0.now ≡ before_first (λ b. b == 39) text.now)
        × (parts.1.now ≡ after_first (λ b. b == 39) text.now)
        × (position_or_len (λ b. b == 39) text.now < length text.now)) }
{
    text.split_once('\'')
}

/// Adds a key with each single quote twice.
#[tactic(auto, using(crate::proofs::Quotes::doubled_more, crate::proofs::Quotes::doubled_all))]
fn push_doubled(text: &mut Text, key: &str) -> Result<(), NoMemory>
    ensures { OnOk result (text.new ≡ text.old ++ spec.doubled key.now) }
{
    let mut rest = key;
    while let Some((front, after)) = at_quote(rest) {
        text.push_str(front)?;
        text.push_str("''")?;
        rest = after;
    }
    text.push_str(rest)
}

fn push_head_line(text: &mut Text, before: Option<Kind>, kind: Kind) -> Result<(), NoMemory>
    ensures { OnOk result (text.new ≡ text.old ++ spec.head_line before kind) }
{
    if let Some(before) = before {
        if same_kind(before, kind) {
            return Ok(());
        }
    }
    text.push_str("  ")?;
    text.push_str(kind.name())?;
    text.push_str(":\n")
}

/// Adds the lines of points, a line of their kind before the first of each.
#[tactic(auto, using(crate::proofs::Texts::points_all))]
fn push_points(text: &mut Text, points: &[Point]) -> Result<(), NoMemory>
    ensures { OnOk result
        (text.new ≡ text.old ++ spec.points_text None (map point_view points.now)) }
{
    let mut before = None;
    for point in points {
        push_head_line(text, before, point.kind)?;
        text.push_str("    '")?;
        push_doubled(text, point.key.as_str())?;
        text.push_str("': 0\n")?;
        before = Some(point.kind);
    }
    Ok(())
}

/// Adds a comment for each entry that isn't counted.
#[tactic(auto, using(crate::proofs::Texts::skipped_all))]
fn push_skipped(text: &mut Text, skipped: &[Skipped]) -> Result<(), NoMemory>
    ensures { OnOk result (text.new ≡ text.old
        ++ flat_map spec.skipped_line (map skipped_view skipped.now)) }
{
    for one in skipped {
        text.push_str("  # skipped ")?;
        text.push_str(one.node.as_str())?;
        text.push_str(" ")?;
        text.push_str(one.key.as_str())?;
        text.push_str("\n")?;
    }
    Ok(())
}

/// Adds the lines of a label.
pub(crate) fn push_label(text: &mut Text, label: &Label) -> Result<(), NoMemory>
    ensures { OnOk result (text.new ≡ text.old ++ spec.label_text (label_view label.now)) }
{
    if label.selected {
        text.push_str(label.name.as_str())?;
        text.push_str(":\n")?;
        push_points(text, label.points.as_slice())?;
        push_skipped(text, label.skipped.as_slice())
    } else {
        text.push_str("# unselected ")?;
        text.push_str(label.name.as_str())?;
        text.push_str("\n")
    }
}

/// The groups as a group file with all points written out: a comment for a label that isn't
/// selected; for a selected one its points in order, under a line of their kind, and a comment
/// for each entry that isn't counted.
///
/// # Errors
///
/// [`NoMemory`].
#[tactic(auto, using(crate::proofs::Texts::labels_more, crate::proofs::Texts::labels_all))]
pub fn normal_text(alloc: Global, groups: &Groups) -> Result<Text, NoMemory>
    ensures { IfOk result (λ text. text ≡ spec.normal_text (map label_view groups.now)) }
{
    let mut text = Text::new(alloc);
    for label in groups.as_slice() {
        push_label(&mut text, label)?;
    }
    Ok(text)
}

fn or_dash(text: &str) -> &str
    ensures { result.now ≡ spec.or_dash text.now }
{
    if text.is_empty() { "-" } else { text }
}

fn expr_text(alloc: Global, why: ExprRefusal) -> Result<Text, NoMemory>
    ensures { IfOk result (λ text. text ≡ spec.expr_text why) }
{
    let number = why.kind.number();
    let column = why.column;
    Ok(Text::from(format!(in alloc; " expr {number} column {column}")?))
}

/// The name that a cross point may not have, or why its expression is refused.
fn cross_detail(alloc: Global, why: &CrossRefusal) -> Result<Text, NoMemory>
    ensures { IfOk result (λ text. text ≡ spec.cross_detail why.now) }
{
    match why {
        CrossRefusal::UnassignedVariable { name } | CrossRefusal::UnknownMnemonic { name } => {
            Ok(Text::from(format!(in alloc; " {name}")?))
        }
        CrossRefusal::Expr(why) => expr_text(alloc, *why),
        _ => Ok(Text::new(alloc)),
    }
}

fn cross_text(alloc: Global, why: &CrossRefusal) -> Result<Text, NoMemory>
    ensures { IfOk result (λ text. text ≡ spec.inner_text (CgfKind.BadCross why.now)) }
{
    let number = why.number();
    let detail = cross_detail(alloc, why)?;
    let told = format!(in alloc; " cross {number}{detail}");
    release(detail);
    Ok(Text::from(told?))
}

fn inner_text(alloc: Global, kind: &CgfKind) -> Result<Text, NoMemory>
    ensures { IfOk result (λ text. text ≡ spec.inner_text kind.now) }
{
    match kind {
        CgfKind::BadExpr(why) => expr_text(alloc, *why),
        CgfKind::BadAbstract(why) => {
            let number = why.number();
            Ok(Text::from(format!(in alloc; " abstract {number}")?))
        }
        CgfKind::BadCross(why) => cross_text(alloc, why),
        _ => Ok(Text::new(alloc)),
    }
}

impl Refusal for CgfRefusal {
    ghost said = { λ refusal. spec.refusal_text (refusal_view refusal) };

    /// `cgf`, the number of the rule, the label, the node and the key, each `-` where it is empty,
    /// and why an expression, a call of a family or a cross point is refused.
    fn text(&self, alloc: Global) -> Result<Text, NoMemory> {
        let number = self.kind.number();
        let label = or_dash(self.label.as_str());
        let node = or_dash(self.node.as_str());
        let key = or_dash(self.key.as_str());
        let inner = inner_text(alloc, &self.kind)?;
        let told = format!(in alloc; "cgf {number} {label} {node} {key}{inner}");
        release(inner);
        Ok(Text::from(told?))
    }
}
