// The failures on a page.
ghost use Rattle.std.specs.Prelude.{◌≡◌, ◌++◌, OnOk};
ghost use Rattle.rvs_page.specs.Failures as spec;

use crate::pieces::{Piece, either, html, push_html, push_pieces, read_as, text};
use crate::said::{badge_texts, push_said_whole};
use crate::shown::{Case, Label, Verdict};
use crate::totals::{fails, verdict_of};
use rvs_base::NoMemory;
use std::alloc::Global;

/// So many cases of a test are shown at once, and the rest is folded.
const SHOWN: usize = 8;

#[rattlefmt::skip]
const CASES_HEAD: &str = "\
<div class=\"wide\"><table>\n<thead><tr><th class=\"n\">case</th>\
<th>kind</th><th>point</th><th>instruction</th><th>core</th>\
<th>reference</th></tr></thead>\n<tbody>\n";

fn push_case_row(alloc: Global, page: &mut Vec<u8>, case: &Case) -> Result<(), NoMemory>
    ensures { OnOk result (page.new.items ≡ page.old.items ++ spec.case_row case.now) }
{
    let (core, core_next) = case.core;
    let (reference, reference_next) = case.reference;
    let pieces = [
        html("<tr><td class=\"n\">"),
        Piece::Number(case.number as u64),
        html("</td><td>"),
        text(&case.kind),
        html("</td><td class=\"key\">"),
        text(&case.key),
        html("</td><td class=\"key\">"),
        read_as(case.code.as_slice()),
        html("</td><td><code"),
        either(core == reference, "", " class=\"bad\""),
        html(">"),
        Piece::Word(core),
        html("</code> <code"),
        either(core_next == reference_next, "", " class=\"bad\""),
        html(">"),
        Piece::Word(core_next),
        html("</code></td><td><code>"),
        Piece::Word(reference),
        html("</code> <code>"),
        Piece::Word(reference_next),
        html("</code></td></tr>\n"),
    ];
    push_pieces(alloc, page, &pieces)
}

#[tactic(auto, unfolding(crate::specs::Failures::cases_table))]
fn push_cases_table(alloc: Global, page: &mut Vec<u8>, cases: &[Case]) -> Result<(), NoMemory>
    ensures { OnOk result (page.new.items ≡ page.old.items ++ spec.cases_table cases.now) }
{
    push_html(page, CASES_HEAD)?;
    for case in cases {
        push_case_row(alloc, page, case)?;
    }
    push_html(page, "</tbody>\n</table></div>\n")
}

#[tactic(auto, unfolding(crate::specs::Failures::folded_cases))]
fn push_folded_cases(alloc: Global, page: &mut Vec<u8>, cases: &[Case]) -> Result<(), NoMemory>
    ensures { OnOk result (page.new.items ≡ page.old.items ++ spec.folded_cases cases.now) }
{
    if cases.is_empty() {
        return Ok(());
    }
    push_pieces(
        alloc,
        page,
        &[
            html("<details>\n<summary>"),
            Piece::Number(cases.len() as u64),
            html(" more cases</summary>\n"),
        ],
    )?;
    push_cases_table(alloc, page, cases)?;
    push_html(page, "</details>\n")
}

#[tactic(auto, unfolding(crate::specs::Failures::cases_text))]
fn push_cases(alloc: Global, page: &mut Vec<u8>, cases: &[Case]) -> Result<(), NoMemory>
    ensures { OnOk result (page.new.items ≡ page.old.items ++ spec.cases_text cases.now) }
{
    if cases.is_empty() {
        return Ok(());
    }
    let (first, rest) = cases.split_at(SHOWN.min(cases.len()));
    push_cases_table(alloc, page, first)?;
    push_folded_cases(alloc, page, rest)
}

#[tactic(auto, unfolding(crate::specs::Failures::failure_text))]
fn push_failure(alloc: Global, page: &mut Vec<u8>, label: &Label) -> Result<(), NoMemory>
    ensures { OnOk result (page.new.items ≡ page.old.items ++ spec.failure_text label.now) }
{
    if !fails(label.state) {
        return Ok(());
    }
    let (class, word) = badge_texts(label.state);
    push_pieces(
        alloc,
        page,
        &[
            html("<article class=\"fail\">\n<h3><b class=\""),
            html(class),
            html("\">"),
            html(word),
            html("</b> <a href=\"#l-"),
            text(&label.name),
            html("\">"),
            text(&label.name),
            html("</a></h3>\n<p>"),
        ],
    )?;
    push_said_whole(alloc, page, label)?;
    push_html(page, "</p>\n")?;
    push_cases(alloc, page, label.cases.as_slice())?;
    push_html(page, "</article>\n")
}

/// Adds the failures, where there are some.
///
/// # Errors
///
/// [`NoMemory`].
#[tactic(auto, unfolding(crate::specs::Failures::failures_text))]
pub fn push_failures(alloc: Global, page: &mut Vec<u8>, labels: &[Label]) -> Result<(), NoMemory>
    ensures { OnOk result (page.new.items ≡ page.old.items ++ spec.failures_text labels.now) }
{
    let Verdict::Fail = verdict_of(labels) else {
        return Ok(());
    };
    push_html(page, "<section>\n<h2>Failures</h2>\n")?;
    for label in labels {
        push_failure(alloc, page, label)?;
    }
    push_html(page, "</section>\n")
}
