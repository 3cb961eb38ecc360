// Files in memory, and what a device run does to them.
ghost use Rattle.std.specs.Prelude.{◌≡◌, ◌≢◌, ◌++◌, ◌∷◌, [], ℕ, List, IfOk, OnOk, OnErr, bytes_eq};
ghost use Rattle.std.specs.Prelude.{position};
ghost use Rattle.rvs_base.specs.Host.{with_file, with_left, device_words, run_over};
ghost use Rattle.rvs_memory.specs.Memory.{held, left_of, without};

use crate::answers::{Answer, Leaves};
use crate::memory_host::Files;
use rvs_base::{Bytes, DeviceRun, Items, NoMemory, Text};
use std::alloc::Global;
use std::mem;

/// The place of the file of this name, where there is one.
pub(crate) fn place_of(files: &[(Text, Bytes)], name: &str) -> Option<usize>
    ensures { result ≡ position (λ file. bytes_eq file.0 name.now) files.now }
{
    files.iter().position(|file| file.0.as_str() == name)
}

/// Makes a file hold these bytes.
pub(crate) fn store(
    alloc: Global,
    files: &mut Files,
    name: &str,
    bytes: &[u8],
) -> Result<(), NoMemory>
    ensures stored { OnOk result ((other : List ℕ)
        → held files.new other ≡ with_file name.now bytes.now (held files.old) other) }
    ensures unchanged { OnErr result (files.new ≡ files.old) }
{
    let bytes = Items::from(bytes.to_vec(alloc)?);
    let name_of_file = Text::from(String::from_str(alloc, name)?);
    match place_of(files.as_slice(), name) {
        None => files.push((name_of_file, bytes)),
        Some(place) => {
            files.set(place, (name_of_file, bytes));
            Ok(())
        },
    }
}

/// Takes away the files of this name.
fn remove(alloc: Global, files: &mut Files, name: &str)
    ensures { files.new ≡ without name.now files.old }
{
    let mut list = mem::replace(files, Items::new(alloc)).into_vec();
    list.retain(|file| file.0.as_str() != name);
    *files = Items::from(list);
}

/// Does what a device run does that answers so: it changes the signature file, and is one run more.
///
/// # Errors
///
/// [`NoMemory`]; there is no run more, and no file but the signature file is changed.
pub(crate) fn perform_run(
    alloc: Global,
    files: &mut Files,
    runs: &mut Items<DeviceRun>,
    answer: &Answer,
    words: &[String],
    test: &str,
    signature: &str,
) -> Result<(), NoMemory>
    ensures changed { OnOk result ((other : List ℕ) → held files.new other
        ≡ with_left signature.now (left_of answer.now.leaves (held files.old signature.now))
        (held files.old) other) }
    ensures ran { OnOk result (runs.new ≡ runs.old ++ run_over (device_words words.now)
        test.now signature.now (held files.old)
        (left_of answer.now.leaves (held files.old signature.now))
        answer.now.status ∷ []) }
    ensures others { OnErr result
        ((other : List ℕ) → other ≢ signature.now → held files.new other ≡ held files.old other) }
    ensures unchanged { OnErr result (runs.new ≡ runs.old) }
{
    let run = new_run(alloc, files.as_slice(), answer, words, test, signature)?;
    leave(alloc, files, signature, &answer.leaves)?;
    runs.push(run)
}

fn new_run(
    alloc: Global,
    files: &[(Text, Bytes)],
    answer: &Answer,
    words: &[String],
    test: &str,
    signature: &str,
) -> Result<DeviceRun, NoMemory>
    ensures { IfOk result (λ run. run ≡ run_over (device_words words.now) test.now signature.now
        (held files.now) (left_of answer.now.leaves (held files.now signature.now))
        answer.now.status) }
{
    Ok(DeviceRun {
        words: copied_words(alloc, words)?,
        test: copy_of(alloc, files, test)?,
        before: copy_of(alloc, files, signature)?,
        after: left_in(alloc, files, signature, &answer.leaves)?,
        status: answer.status,
    })
}

fn copied_words(alloc: Global, words: &[String]) -> Result<Items<Text>, NoMemory>
    ensures { IfOk result (λ copied. copied ≡ device_words words.now) }
{
    let mut copied = Items::new(alloc);
    for word in words {
        copied.push(Text::from(String::from_str(alloc, word.as_str())?))?;
    }
    Ok(copied)
}

/// The bytes of a file, where it is there.
fn copy_of(alloc: Global, files: &[(Text, Bytes)], name: &str) -> Result<Option<Bytes>, NoMemory>
    ensures { IfOk result (λ bytes. bytes ≡ held files.now name.now) }
{
    match place_of(files, name) {
        None => Ok(None),
        Some(place) => Ok(Some(Items::from(files[place].1.as_slice().to_vec(alloc)?))),
    }
}

/// What a run leaves in its signature file.
fn left_in(
    alloc: Global,
    files: &[(Text, Bytes)],
    signature: &str,
    leaves: &Leaves,
) -> Result<Option<Bytes>, NoMemory>
    ensures { IfOk result (λ left. left ≡ left_of leaves.now (held files.now signature.now)) }
{
    match leaves {
        Leaves::Untouched => copy_of(alloc, files, signature),
        Leaves::Absent => Ok(None),
        Leaves::Holds(bytes) => Ok(Some(Items::from(bytes.as_slice().to_vec(alloc)?))),
    }
}

/// Changes the signature file as a run leaves it.
fn leave(alloc: Global, files: &mut Files, signature: &str, leaves: &Leaves) -> Result<(), NoMemory>
    ensures changed { OnOk result ((other : List ℕ) → held files.new other
        ≡ with_left signature.now (left_of leaves.now (held files.old signature.now))
        (held files.old) other) }
    ensures unchanged { OnErr result (files.new ≡ files.old) }
{
    match leaves {
        Leaves::Untouched => Ok(()),
        Leaves::Absent => {
            remove(alloc, files, signature);
            Ok(())
        },
        Leaves::Holds(bytes) => store(alloc, files, signature, bytes.as_slice()),
    }
}
