// The report of which hits of a log reached the signature.
ghost use Rattle.std.specs.Prelude.{◌≡◌, ◌≤◌, ◌++◌, IfOk, OnOk, codes, length, map};
ghost use Rattle.rvs_points.specs.PointView.{label_view, meaning_view, point_view};
ghost use Rattle.rvs_index.specs.Counting.{aims_in};
ghost use Rattle.rvs_count.specs.Report as count;
ghost use Rattle.rvs_prop.specs.Report as spec;

use rvs_base::{NoMemory, Text, beside};
use rvs_count::{hit_count, push_skipped, push_unselected, width};
use rvs_points::{Groups, Label, Meaning, Point};
use std::alloc::Global;

/// Whether a point is measured: whether it isn't a cross point.
fn is_measured(point: &Point) -> bool
    ensures { result ≡ spec.is_measured (meaning_view point.now.meaning) }
{
    match &point.meaning {
        Meaning::Window(_) => false,
        _ => true,
    }
}

/// How many points are measured.
#[tactic(auto, using(crate::proofs::Reports::measured_more, crate::proofs::Reports::measured_all))]
fn measured(points: &[Point]) -> usize
    ensures value { result ≡ spec.measured (map point_view points.now) }
    ensures low { result ≤ length points.now }
{
    let mut count: usize = 0;
    for point in points {
        count += usize::from(is_measured(point));
    }
    count
}

/// Adds the line of a point with its numbers, where it is measured.
fn push_point(
    alloc: Global,
    text: &mut Text,
    reached: u64,
    hits: u64,
    point: &Point,
) -> Result<(), NoMemory>
    ensures { OnOk result
        (text.new ≡ text.old ++ spec.point_line reached hits (point_view point.now)) }
{
    let kind = point.kind.name();
    let key = point.key.as_str();
    if is_measured(point) {
        let line = format!(in alloc; "{reached} of {hits} {kind} {key}\n")?;
        return text.push_str(line.as_str());
    }
    let line = format!(in alloc; "unmeasured {kind} {key}\n")?;
    text.push_str(line.as_str())
}

/// Adds the lines of points with their numbers.
#[tactic(auto, using(crate::proofs::Reports::points_more, crate::proofs::Reports::points_all))]
fn push_points(
    alloc: Global,
    text: &mut Text,
    reached: &[u64],
    hits: &[u64],
    points: &[Point],
) -> Result<(), NoMemory>
    requires reached { length reached.now ≡ length points.now }
    requires hits { length hits.now ≡ length points.now }
    ensures { OnOk result (text.new
        ≡ text.old ++ spec.points_text reached.now hits.now (map point_view points.now)) }
{
    for (index, point) in points.iter().enumerate() {
        push_point(alloc, text, reached[index], hits[index], point)?;
    }
    Ok(())
}

/// Adds the first line of a label that is selected.
fn push_label_sum(
    alloc: Global,
    text: &mut Text,
    name: &str,
    hit: usize,
    points: usize,
) -> Result<(), NoMemory>
    ensures { OnOk result (text.new ≡ text.old
        ++ (codes "label " ++ (name.now ++ (codes " " ++ spec.sum_text hit points)))) }
{
    let line = format!(in alloc; "label {name} reached {hit} of {points}\n")?;
    text.push_str(line.as_str())
}

/// Adds a label with its own numbers.
fn push_label(
    alloc: Global,
    text: &mut Text,
    reached: &[u64],
    hits: &[u64],
    label: &Label,
) -> Result<(), NoMemory>
    requires reached { length reached.now ≡ count.width (label_view label.now) }
    requires hits { length hits.now ≡ count.width (label_view label.now) }
    ensures { OnOk result (text.new
        ≡ text.old ++ spec.label_text reached.now hits.now (label_view label.now)) }
{
    if !label.selected {
        return push_unselected(alloc, text, label);
    }
    let points = label.points.as_slice();
    let name = label.name.as_str();
    push_label_sum(alloc, text, name, hit_count(reached), measured(points))?;
    push_points(alloc, text, reached, hits, points)?;
    push_skipped(alloc, text, label.skipped.as_slice())
}

/// How many points of a label are measured, where it is selected.
fn label_measured(label: &Label) -> usize
    ensures value { result ≡ spec.label_measured (label_view label.now) }
    ensures low { result ≤ count.width (label_view label.now) }
{
    if label.selected {
        measured(label.points.as_slice())
    } else {
        0
    }
}

/// Adds the labels, each with its own numbers, and the sum of all.
fn push_labels(
    alloc: Global,
    text: &mut Text,
    reached: &[u64],
    hits: &[u64],
    labels: &[Label],
) -> Result<(), NoMemory>
    requires reached { length reached.now ≡ length (aims_in labels.now) }
    requires hits { length hits.now ≡ length (aims_in labels.now) }
    ensures { OnOk result (text.new ≡ text.old
        ++ (spec.labels_text reached.now hits.now (map label_view labels.now)
        ++ spec.total_line reached.now (spec.all_measured (map label_view labels.now)))) }
{
    let mut rest = reached;
    let mut other = hits;
    let mut points: usize = 0;
    for label in labels {
        let count = width(label);
        let (own, later) = rest.split_at(count);
        let (own_hits, later_hits) = other.split_at(count);
        push_label(alloc, text, own, own_hits, label)?;
        points += label_measured(label);
        rest = later;
        other = later_hits;
    }
    let hit = hit_count(reached);
    let total = format!(in alloc; "total reached {hit} of {points}\n")?;
    text.push_str(total.as_str())
}

/// The report over the labels of groups.
pub(crate) fn report(
    alloc: Global,
    labels: &[Label],
    reached: &[u64],
    hits: &[u64],
    instructions: u64,
) -> Result<Text, NoMemory>
    requires reached { length reached.now ≡ length (aims_in labels.now) }
    requires hits { length hits.now ≡ length (aims_in labels.now) }
    ensures { IfOk result (λ text. text
        ≡ spec.report_of (map label_view labels.now) reached.now hits.now instructions) }
{
    let mut text = Text::from(format!(in alloc; "instructions {instructions}\n")?);
    let pushed = push_labels(alloc, &mut text, reached, hits, labels);
    let ((), text) = beside(pushed, text)?;
    Ok(text)
}

/// The report of propagation: how many instructions there were; for each label how many of its
/// points have a hit that reached the signature, and for each point how many of its hits did, how
/// many there were, its kind and its key; and the sum of all labels. The numbers are those of the
/// points of the selected labels in order. Cross points aren't measured. It takes time and memory
/// in the length of the report.
///
/// # Errors
///
/// [`NoMemory`].
pub fn propagation_text(
    alloc: Global,
    groups: &Groups,
    reached: &[u64],
    hits: &[u64],
    instructions: u64,
) -> Result<Text, NoMemory>
    requires reached { length reached.now ≡ length (aims_in groups.now) }
    requires hits { length hits.now ≡ length (aims_in groups.now) }
    ensures { IfOk result (λ text. text
        ≡ spec.report_of (map label_view groups.now) reached.now hits.now instructions) }
{
    report(alloc, groups.as_slice(), reached, hits, instructions)
}
