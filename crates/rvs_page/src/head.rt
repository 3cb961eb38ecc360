// The head of a page.
ghost use Rattle.std.specs.Prelude.{◌≡◌, ◌++◌, ◌∷◌, [], OnOk, codes};
ghost use Rattle.rvs_page.specs.Head as spec;
ghost use Rattle.rvs_page.specs.Pieces.{told};
ghost use Rattle.rvs_page.specs.declared.pieces.Piece.TheVariants as variant;

use crate::pieces::{Piece, either, html, push_html, push_pieces, text};
use crate::shown::{Page, Verdict};
use crate::style::STYLE;
use crate::totals::Totals;
use rvs_base::NoMemory;
use std::alloc::Global;

/// What the page begins with, up to the verdict in its title.
#[rattlefmt::skip]
const TITLE: &str = "\
<!DOCTYPE html>\n<html lang=\"en\">\n<head>\n<meta charset=\"utf-8\">\n\
<meta name=\"viewport\" content=\"width=device-width, initial-scale=1\">\n\
<meta name=\"color-scheme\" content=\"light dark\">\n<title>rvsuite: ";

/// The word of a verdict, and its class.
fn verdict_texts(verdict: Verdict) -> (&'static str, &'static str)
    ensures word { result.0.now ≡ spec.verdict_word verdict }
    ensures class { result.1.now ≡ spec.verdict_class verdict }
{
    match verdict {
        Verdict::Pass => ("PASS", "ok"),
        Verdict::Incomplete => ("INCOMPLETE", "no"),
        Verdict::Fail => ("FAIL", "bad"),
    }
}

/// Adds the head, up to the numbers.
///
/// # Errors
///
/// [`NoMemory`].
pub fn push_head(
    alloc: Global,
    page: &mut Vec<u8>,
    verdict: Verdict,
    shown: &Page,
) -> Result<(), NoMemory>
    ensures { OnOk result (page.new.items ≡ page.old.items ++ spec.head_text verdict shown.now) }
{
    let (word, class) = verdict_texts(verdict);
    let pieces = [
        html(TITLE),
        html(word),
        html(", "),
        text(&shown.device),
        html(", "),
        text(&shown.core.isa),
        html(STYLE),
        html(class),
        html("\">"),
        html(word),
        html("</p>\n<div>\n<h1>"),
        text(&shown.device),
        html("</h1>\n<p>"),
        text(&shown.core.isa),
        html(", misaligned data "),
        either(shown.core.misaligned, "true", "false"),
        html(", "),
        Piece::Number(u64::from(shown.core.address_bits)),
        html(" address bits, misa 0x"),
        Piece::Word(shown.core.misa),
        html("</p>\n</div>\n</header>\n"),
    ];
    push_pieces(alloc, page, &pieces)
}

/// Adds the numbers that each run has.
fn push_numbers(alloc: Global, page: &mut Vec<u8>, totals: &Totals) -> Result<(), NoMemory>
    ensures { OnOk result (page.new.items ≡ page.old.items
        ++ (told (variant.Html (codes "<section class=\"tiles\">\n") ∷ [])
        ++ (spec.test_tiles totals.now ++ spec.point_tiles totals.now))) }
{
    let pieces = [
        html("<section class=\"tiles\">\n<div><strong>"),
        Piece::Number(totals.tests),
        html("</strong><span>tests</span></div>\n<div class=\"ok\"><strong>"),
        Piece::Number(totals.passed),
        html("</strong><span>pass</span></div>\n<div"),
        either(totals.failed == 0, "", " class=\"bad\""),
        html("><strong>"),
        Piece::Number(totals.failed),
        html("</strong><span>fail</span></div>\n<div"),
        either(totals.open_tests == 0, "", " class=\"no\""),
        html("><strong>"),
        Piece::Number(totals.open_tests),
        html("</strong><span>not run</span></div>\n<div><strong>"),
        Piece::Number(totals.tested),
        html("</strong><span>points tested</span></div>\n<div><strong>"),
        Piece::Number(totals.unsolved),
        html("</strong><span>unsolved</span></div>\n<div><strong>"),
        Piece::Number(totals.skipped),
        html("</strong><span>skipped</span></div>\n"),
    ];
    push_pieces(alloc, page, &pieces)
}

/// Adds the numbers.
///
/// # Errors
///
/// [`NoMemory`].
pub fn push_tiles(
    alloc: Global,
    page: &mut Vec<u8>,
    instructions: Option<u64>,
    totals: &Totals,
) -> Result<(), NoMemory>
    ensures { OnOk result (page.new.items
        ≡ page.old.items ++ spec.tiles_text instructions totals.now) }
{
    push_numbers(alloc, page, totals)?;
    match instructions {
        None => push_html(page, "</section>\n"),
        Some(instructions) => {
            let pieces = [
                html("<div><strong>"),
                Piece::Number(instructions),
                html("</strong><span>instructions</span></div>\n<div><strong>"),
                Piece::Number(totals.hit),
                html("</strong><span>points hit</span></div>\n</section>\n"),
            ];
            push_pieces(alloc, page, &pieces)
        },
    }
}
