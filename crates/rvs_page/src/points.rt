// The points on a page, label by label.
ghost use Rattle.std.specs.Prelude.{◌≡◌, ◌++◌, OnOk};
ghost use Rattle.std.specs.List.{flat_map};
ghost use Rattle.rvs_page.specs.Points as spec;

use crate::pieces::{Piece, either, html, push_html, push_pieces, text};
use crate::shown::{Label, Point, Skipped};
use crate::totals::{tested, unsolved};
use rvs_base::NoMemory;
use std::alloc::Global;

/// What stands between how many entries are skipped and what is counted of points.
#[rattlefmt::skip]
const COLUMNS: &str = " skipped</small></summary>\n<table class=\"points\">\n<thead><tr>\
<th>case</th><th>kind</th><th>point</th>";

#[tactic(auto, unfolding(crate::specs::Points::case_cell))]
fn push_case_cell(
    alloc: Global,
    page: &mut Vec<u8>,
    case: Option<usize>,
    differs: bool,
) -> Result<(), NoMemory>
    ensures { OnOk result (page.new.items ≡ page.old.items ++ spec.case_cell case differs) }
{
    match case {
        None => push_html(page, "<tr class=\"u\"><td>unsolved"),
        Some(case) => {
            let pieces = [
                html("<tr"),
                either(differs, " class=\"bad\"", ""),
                html("><td>case "),
                Piece::Number(case as u64),
            ];
            push_pieces(alloc, page, &pieces)
        },
    }
}

#[tactic(auto, unfolding(crate::specs::Points::point_row))]
fn push_point(
    alloc: Global,
    page: &mut Vec<u8>,
    counted: bool,
    point: &Point,
) -> Result<(), NoMemory>
    ensures { OnOk result (page.new.items ≡ page.old.items ++ spec.point_row counted point.now) }
{
    push_case_cell(alloc, page, point.case, point.differs)?;
    push_pieces(
        alloc,
        page,
        &[
            html("</td><td>"),
            text(&point.kind),
            html("</td><td class=\"key\">"),
            text(&point.key),
            html("</td>"),
        ],
    )?;
    if !counted {
        return push_html(page, "</tr>\n");
    }
    let pieces = [
        html("<td class=\"n\">"),
        Piece::Number(point.hits),
        html("</td></tr>\n"),
    ];
    push_pieces(alloc, page, &pieces)
}

fn push_each_point(
    alloc: Global,
    page: &mut Vec<u8>,
    counted: bool,
    points: &[Point],
) -> Result<(), NoMemory>
    ensures { OnOk result (page.new.items
        ≡ page.old.items ++ flat_map (spec.point_row counted) points.now) }
{
    for point in points {
        push_point(alloc, page, counted, point)?;
    }
    Ok(())
}

fn push_each_skipped(
    alloc: Global,
    page: &mut Vec<u8>,
    counted: bool,
    skipped: &[Skipped],
) -> Result<(), NoMemory>
    ensures { OnOk result (page.new.items
        ≡ page.old.items ++ flat_map (spec.skipped_row counted) skipped.now) }
{
    for one in skipped {
        push_pieces(
            alloc,
            page,
            &[
                html("<tr class=\"k\"><td>skipped</td><td>"),
                text(&one.node),
                html("</td><td class=\"key\">"),
                text(&one.key),
                html("</td>"),
                either(counted, "<td></td></tr>\n", "</tr>\n"),
            ],
        )?;
    }
    Ok(())
}

#[tactic(auto, unfolding(crate::specs::Points::label_points))]
fn push_label(
    alloc: Global,
    page: &mut Vec<u8>,
    counted: bool,
    label: &Label,
) -> Result<(), NoMemory>
    ensures { OnOk result (page.new.items
        ≡ page.old.items ++ spec.label_points counted label.now) }
{
    if !label.selected {
        return Ok(());
    }
    push_pieces(
        alloc,
        page,
        &[
            html("<details id=\"l-"),
            text(&label.name),
            html("\">\n<summary>"),
            text(&label.name),
            html(" <small>"),
            Piece::Number(tested(label) as u64),
            html(" tested, "),
            Piece::Number(unsolved(label) as u64),
            html(" unsolved, "),
            Piece::Number(label.skipped.as_slice().len() as u64),
            html(COLUMNS),
            either(counted, "<th class=\"n\">hits</th>", ""),
            html("</tr></thead>\n<tbody>\n"),
        ],
    )?;
    push_each_point(alloc, page, counted, label.points.as_slice())?;
    push_each_skipped(alloc, page, counted, label.skipped.as_slice())?;
    push_html(page, "</tbody>\n</table>\n</details>\n")
}

/// Adds the points of all labels, and ends the page.
///
/// # Errors
///
/// [`NoMemory`].
#[tactic(auto, unfolding(crate::specs::Points::points_text))]
pub fn push_points(
    alloc: Global,
    page: &mut Vec<u8>,
    counted: bool,
    labels: &[Label],
) -> Result<(), NoMemory>
    ensures { OnOk result (page.new.items
        ≡ page.old.items ++ spec.points_text counted labels.now) }
{
    push_html(page, "<section>\n<h2>Points</h2>\n")?;
    for label in labels {
        push_label(alloc, page, counted, label)?;
    }
    push_html(page, "</section>\n</main>\n</body>\n</html>\n")
}
