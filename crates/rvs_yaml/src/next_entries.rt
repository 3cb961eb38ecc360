// The next entry of a map.
ghost use Rattle.std.specs.Prelude.{◌≡◌, ◌∷◌, ◌++◌, [], IfOk};
ghost use Rattle.rvs_yaml.specs.Entry.{written};
ghost use Rattle.rvs_yaml.specs.Stack as spec;
ghost use Rattle.rvs_yaml.specs.StepParts as parts;
ghost use Rattle.rvs_yaml.specs.Gives.{Gives, FailsWith};
ghost use Rattle.rvs_yaml.specs.StackView.{done_view};
ghost use Rattle.rvs_yaml.specs.StepView.{done_content};
ghost use Rattle.rvs_tree.specs.ValueView.{value_view, entries_view};
ghost use Rattle.rvs_yaml_text.specs.KeyView.{key_view};
ghost use Rattle.rvs_yaml_text.specs.WordView.{word_view};

use crate::entry::entry_of;
use crate::keys::{check_merge, key_at};
use crate::open::Done;
use crate::reading::Pending;
use rvs_base::{Fault, release};
use rvs_tree::{EntryList, Value};
use rvs_yaml_text::{Content, Key, Word, YamlKind};
use std::alloc::{AllocError, Global};

/// The members of a map with the value of the open one, and the word that is the next. What can be
/// refused is, before memory is taken.
pub(crate) fn next_entry<'a>(
    alloc: Global,
    entries: EntryList,
    key: Key,
    column: usize,
    value: Value,
    word: Word<'a>,
) -> Result<(Done, Content<'a>), Fault<YamlKind>>
    ensures given { Gives done_content result (parts.next_entry (entries_view entries.entries.items)
        (key_view key) column (value_view value) (word_view word.entry)) }
    ensures refused { FailsWith result (parts.next_entry (entries_view entries.entries.items)
        (key_view key) column (value_view value) (word_view word.entry)) }
{
    match check_merge(&key, &value) {
        Ok(()) => match key_at(column, &entries, &key, word) {
            Ok((next, content)) => {
                let done = with_entry(alloc, entries, key, value, next)?;
                Ok((done, content))
            }
            Err(kind) => {
                release((entries, key, value));
                Err(Fault::Refused(kind))
            }
        },
        Err(kind) => {
            release((entries, key, value, word));
            Err(Fault::Refused(kind))
        }
    }
}

/// The members of a map with one entry more, and the key of the next.
fn with_entry(
    alloc: Global,
    entries: EntryList,
    key: Key,
    value: Value,
    next: Key,
) -> Result<Done, AllocError>
    ensures { IfOk result (λ d. done_view d ≡ spec.done_entries
        (entries_view entries.entries.items ++ written (key_view key) (value_view value) ∷ [])
        (key_view next)) }
{
    let list = entries.with(alloc, entry_of(key, value))?;
    Ok(Done::Entries(Box::new(alloc, Pending { list, key: next })?))
}
