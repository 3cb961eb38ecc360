//! Pages of runs: one HTML file, made of plain records of what it shows.
#![tactic(auto)]

mod escape;
mod failures;
mod head;
mod labels;
mod laws;
mod page;
mod pieces;
mod points;
mod said;
mod shown;
mod style;
mod totals;

pub use escape::push_escaped;
pub use laws::{pages_pass_where_all_tests_do, pages_tell_texts};
pub use page::page_text;
pub use shown::{Case, Core, Label, Page, Point, Skipped, State, Verdict};
pub use totals::verdict_of;
