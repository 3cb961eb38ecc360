// The labels on a page, a row each.
ghost use Rattle.std.specs.Prelude.{◌≡◌, ◌++◌, OnOk};
ghost use Rattle.rvs_page.specs.Labels as spec;

use crate::pieces::{Piece, either, html, push_html, push_pieces, text};
use crate::said::{badge_texts, push_said};
use crate::shown::Label;
use crate::totals::{hit, missed, tested, unsolved};
use rvs_base::NoMemory;
use std::alloc::Global;

/// What the labels begin with, up to what the legend says of logs.
#[rattlefmt::skip]
const LEGEND: &str = "\
<section>\n<h2>Labels</h2>\n<p class=\"legend\"><i class=\"s\"></i> tested \
<i class=\"u\"></i> unsolved <i class=\"k\"></i> skipped";

/// The rest of the legend, and the columns that each table of labels has.
#[rattlefmt::skip]
const COLUMNS: &str = "\
</p>\n<div class=\"wide\"><table>\n<thead><tr>\
<th>label</th><th>verdict</th><th>detail</th><th>points</th>\
<th class=\"n\">tested</th>";

/// What the legend says of points where logs are counted.
const LEGEND_MORE: &str = " <i class=\"h\"></i> hit in the logs <i class=\"m\"></i> not hit";

#[tactic(auto, unfolding(crate::specs::Labels::segment))]
fn push_segment(
    alloc: Global,
    page: &mut Vec<u8>,
    class: &str,
    number: usize,
) -> Result<(), NoMemory>
    ensures { OnOk result (page.new.items ≡ page.old.items ++ spec.segment class.now number) }
{
    if number == 0 {
        return Ok(());
    }
    let pieces = [
        html("<i class=\""),
        html(class),
        html("\" style=\"flex-grow:"),
        Piece::Number(number as u64),
        html("\"></i>"),
    ];
    push_pieces(alloc, page, &pieces)
}

fn end_bar(alloc: Global, page: &mut Vec<u8>, some: usize, all: usize) -> Result<(), NoMemory>
    ensures { OnOk result (page.new.items ≡ page.old.items ++ spec.bar_ends some all) }
{
    let pieces = [
        html("</span></td><td class=\"n\">"),
        Piece::Number(some as u64),
        html(" of "),
        Piece::Number(all as u64),
        html("</td>"),
    ];
    push_pieces(alloc, page, &pieces)
}

#[tactic(auto, unfolding(crate::specs::Labels::points_bar))]
fn push_points_bar(alloc: Global, page: &mut Vec<u8>, label: &Label) -> Result<(), NoMemory>
    ensures { OnOk result (page.new.items ≡ page.old.items ++ spec.points_bar label.now) }
{
    let tested = tested(label);
    let unsolved = unsolved(label);
    let skipped = label.skipped.as_slice().len();
    push_pieces(
        alloc,
        page,
        &[
            html("<td class=\"share\"><span class=\"bar\" role=\"img\" aria-label=\"points: "),
            Piece::Number(tested as u64),
            html(" tested, "),
            Piece::Number(unsolved as u64),
            html(" unsolved, "),
            Piece::Number(skipped as u64),
            html(" skipped\">"),
        ],
    )?;
    push_segment(alloc, page, "s", tested)?;
    push_segment(alloc, page, "u", unsolved)?;
    push_segment(alloc, page, "k", skipped)?;
    end_bar(alloc, page, tested, label.points.as_slice().len())
}

#[tactic(auto, unfolding(crate::specs::Labels::coverage_cells))]
fn push_coverage_cells(
    alloc: Global,
    page: &mut Vec<u8>,
    counted: bool,
    label: &Label,
) -> Result<(), NoMemory>
    ensures { OnOk result (page.new.items
        ≡ page.old.items ++ spec.coverage_cells counted label.now) }
{
    if !counted {
        return Ok(());
    }
    let hit = hit(label);
    let missed = missed(label);
    push_pieces(
        alloc,
        page,
        &[
            html("<td class=\"share\"><span class=\"bar\" role=\"img\" aria-label=\"coverage: "),
            Piece::Number(hit as u64),
            html(" hit, "),
            Piece::Number(missed as u64),
            html(" not hit\">"),
        ],
    )?;
    push_segment(alloc, page, "h", hit)?;
    push_segment(alloc, page, "m", missed)?;
    end_bar(alloc, page, hit, label.points.as_slice().len())
}

#[tactic(auto, unfolding(crate::specs::Labels::label_row))]
fn push_label_row(
    alloc: Global,
    page: &mut Vec<u8>,
    counted: bool,
    label: &Label,
) -> Result<(), NoMemory>
    ensures { OnOk result (page.new.items ≡ page.old.items ++ spec.label_row counted label.now) }
{
    if !label.selected {
        let pieces = [
            html("<tr class=\"off\"><td>"),
            text(&label.name),
            html("</td><td colspan=\""),
            either(counted, "6", "4"),
            html("\">unselected</td></tr>\n"),
        ];
        return push_pieces(alloc, page, &pieces);
    }
    let (class, word) = badge_texts(label.state);
    push_pieces(
        alloc,
        page,
        &[
            html("<tr><td><a href=\"#l-"),
            text(&label.name),
            html("\">"),
            text(&label.name),
            html("</a></td><td><b class=\""),
            html(class),
            html("\">"),
            html(word),
            html("</b></td><td>"),
        ],
    )?;
    push_said(alloc, page, label)?;
    push_html(page, "</td>")?;
    push_points_bar(alloc, page, label)?;
    push_coverage_cells(alloc, page, counted, label)?;
    push_html(page, "</tr>\n")
}

/// Adds the labels, with how many of their points logs hit where these are counted.
///
/// # Errors
///
/// [`NoMemory`].
#[tactic(auto, unfolding(crate::specs::Labels::labels_text))]
pub fn push_labels(
    alloc: Global,
    page: &mut Vec<u8>,
    counted: bool,
    labels: &[Label],
) -> Result<(), NoMemory>
    ensures { OnOk result (page.new.items
        ≡ page.old.items ++ spec.labels_text counted labels.now) }
{
    push_pieces(
        alloc,
        page,
        &[
            html(LEGEND),
            either(counted, LEGEND_MORE, ""),
            html(COLUMNS),
            either(counted, "<th>coverage</th><th class=\"n\">hit</th>", ""),
            html("</tr></thead>\n<tbody>\n"),
        ],
    )?;
    for label in labels {
        push_label_row(alloc, page, counted, label)?;
    }
    push_html(page, "</tbody>\n</table></div>\n</section>\n")
}
