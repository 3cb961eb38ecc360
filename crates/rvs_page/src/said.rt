// What a page says of the state of a test.
ghost use Rattle.std.specs.Prelude.{◌≡◌, ◌++◌, OnOk};
ghost use Rattle.rvs_page.specs.Said as spec;

use crate::pieces::{Piece, html, push_html, push_pieces};
use crate::shown::{Label, State};
use crate::totals::tested;
use rvs_base::NoMemory;
use std::alloc::Global;

/// The class of the badge of a state, and what it says.
pub fn badge_texts(state: State) -> (&'static str, &'static str)
    ensures class { result.0.now ≡ spec.badge_class state }
    ensures word { result.1.now ≡ spec.badge_word state }
{
    match state {
        State::NoTest => ("no", "no test"),
        State::NotRun => ("no", "not run"),
        State::OtherTest => ("no", "other test"),
        State::Pass { .. } => ("ok", "PASS"),
        _ => ("bad", "FAIL"),
    }
}

fn push_cases_said(alloc: Global, page: &mut Vec<u8>, label: &Label) -> Result<(), NoMemory>
    ensures { OnOk result (page.new.items ≡ page.old.items ++ spec.cases_said label.now) }
{
    let pieces = [
        Piece::Number(label.cases.as_slice().len() as u64),
        html(" of "),
        Piece::Number(tested(label) as u64),
        html(" cases differ"),
    ];
    push_pieces(alloc, page, &pieces)
}

/// Adds what is said of a test whose words needn't be compared one by one.
#[tactic(auto, unfolding(crate::specs::Said::state_said, crate::specs::Said::other_said, crate::specs::Said::none_said, crate::specs::Said::long_said, crate::specs::Said::words_count, crate::specs::Said::bad_line, crate::specs::Said::lengths))]
fn push_state_said(alloc: Global, page: &mut Vec<u8>, state: State) -> Result<(), NoMemory>
    ensures { OnOk result (page.new.items ≡ page.old.items ++ spec.state_said state) }
{
    match state {
        State::NoTest => Ok(()),
        State::NotRun => Ok(()),
        State::OtherTest => push_html(page, "its files are of another test"),
        State::Pass { words } => {
            let pieces = [Piece::Number(words as u64), html(" words")];
            push_pieces(alloc, page, &pieces)
        },
        State::NoSignature => push_html(page, "no signature"),
        State::TooLong => push_html(page, "signature too long"),
        State::BadLine { line } => {
            let pieces = [html("bad signature line "), Piece::Number(u64::from(line))];
            push_pieces(alloc, page, &pieces)
        },
        State::Lengths { device, reference } => {
            let pieces = [
                html("lengths "),
                Piece::Number(device as u64),
                html(" and "),
                Piece::Number(reference as u64),
            ];
            push_pieces(alloc, page, &pieces)
        },
        State::Differs { .. } => Ok(()),
    }
}

/// Adds what is said of a label's test beside its badge.
///
/// # Errors
///
/// [`NoMemory`].
#[tactic(auto, unfolding(crate::specs::Said::said_of))]
pub fn push_said(alloc: Global, page: &mut Vec<u8>, label: &Label) -> Result<(), NoMemory>
    ensures { OnOk result (page.new.items ≡ page.old.items ++ spec.said_of label.now) }
{
    match label.state {
        State::Differs { .. } => push_cases_said(alloc, page, label),
        state => push_state_said(alloc, page, state),
    }
}

/// Adds what is said of a test that fails.
///
/// # Errors
///
/// [`NoMemory`].
#[tactic(auto, unfolding(crate::specs::Said::said_whole, crate::specs::Said::words_said))]
pub fn push_said_whole(alloc: Global, page: &mut Vec<u8>, label: &Label) -> Result<(), NoMemory>
    ensures { OnOk result (page.new.items ≡ page.old.items ++ spec.said_whole label.now) }
{
    match label.state {
        State::Differs {
            at,
            left,
            right,
            differing,
            words,
        } => {
            push_pieces(
                alloc,
                page,
                &[
                    html("word "),
                    Piece::Number(at as u64),
                    html(" is <code>"),
                    Piece::Word(left),
                    html("</code> and <code>"),
                    Piece::Word(right),
                    html("</code>; "),
                    Piece::Number(differing as u64),
                    html(" of "),
                    Piece::Number(words as u64),
                    html(" words and "),
                ],
            )?;
            push_cases_said(alloc, page, label)
        },
        state => push_state_said(alloc, page, state),
    }
}
