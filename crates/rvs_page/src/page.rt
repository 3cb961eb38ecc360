// A page.
ghost use Rattle.std.specs.Prelude.{◌≡◌, IfOk};
ghost use Rattle.rvs_page.specs.Page.{page_of};

use crate::failures::push_failures;
use crate::head::{push_head, push_tiles};
use crate::labels::push_labels;
use crate::points::push_points;
use crate::shown::Page;
use crate::totals::{totals_of, verdict_of};
use rvs_base::{Bytes, Items, NoMemory};
use std::alloc::Global;

/// The page as the bytes of a file.
///
/// # Errors
///
/// [`NoMemory`].
#[tactic(auto, unfolding(crate::specs::Page::page_of))]
pub fn page_text(alloc: Global, page: &Page) -> Result<Bytes, NoMemory>
    ensures { IfOk result (λ text. text ≡ page_of page.now) }
{
    let labels = page.labels.as_slice();
    let instructions = page.instructions;
    let counted = instructions.is_some();
    let mut text = Vec::new(alloc);
    push_head(alloc, &mut text, verdict_of(labels), page)?;
    push_tiles(alloc, &mut text, instructions, &totals_of(labels))?;
    push_failures(alloc, &mut text, labels)?;
    push_labels(alloc, &mut text, counted, labels)?;
    push_points(alloc, &mut text, counted, labels)?;
    Ok(Items::from(text))
}
