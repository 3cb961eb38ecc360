// The files of a label's test.
ghost use Rattle.std.specs.Prelude.{◌≡◌, ◌++◌, IfOk, codes};
ghost use Rattle.rvs_generate.specs.TestFiles.{files_of, files_at};

use crate::sources::Given;
use rvs_base::{NoMemory, Text, release};
use rvs_words::owned;
use std::alloc::Global;

/// The files of a label's test.
#[derive(Drop)]
pub struct TestFiles {
    /// The test.
    pub test: Text,
    /// The test as an executable.
    pub executable: Text,
    /// The signature that the reference machine leaves.
    pub reference: Text,
    /// The signature that the device leaves.
    pub device: Text,
}

impl TestFiles {
    /// Those of the label of this name in a folder.
    ///
    /// # Errors
    ///
    /// [`NoMemory`].
    pub fn new(alloc: Global, work: &Text, name: &Text) -> Result<TestFiles, NoMemory>
        ensures { IfOk result (λ files. files ≡ files_of work.now name.now) }
    {
        let test = path(alloc, work, name, ".S")?;
        with_test(alloc, work, name, test)
    }

    /// Those of a test of its own name at a place of a database: the others are named by the place.
    ///
    /// # Errors
    ///
    /// [`NoMemory`].
    pub fn of_given(alloc: Global, work: &Text, given: &Given) -> Result<TestFiles, NoMemory>
        ensures { IfOk result (λ files. files ≡ files_at work.now given.now.place given.now.name) }
    {
        let place = given.place;
        let name = Text::from(format!(in alloc; "{place}")?);
        let test = owned(alloc, given.name.as_str())?;
        let files = with_test(alloc, work, &name, test);
        release(name);
        files
    }
}

/// The files that are named by a name, with a test.
fn with_test(alloc: Global, work: &Text, name: &Text, test: Text) -> Result<TestFiles, NoMemory>
    ensures { IfOk result (λ files. files ≡ record {
      test = test;
      executable = (files_of work.now name.now).executable;
      reference = (files_of work.now name.now).reference;
      device = (files_of work.now name.now).device;
    }) }
{
    Ok(TestFiles {
        test,
        executable: path(alloc, work, name, ".elf")?,
        reference: path(alloc, work, name, ".reference.sig")?,
        device: path(alloc, work, name, ".device.sig")?,
    })
}

/// The file of a folder with this name and ending.
///
/// # Errors
///
/// [`NoMemory`].
pub fn path(alloc: Global, work: &Text, name: &Text, ending: &str) -> Result<Text, NoMemory>
    ensures { IfOk result (λ path. path
        ≡ work.now ++ (codes "/" ++ (name.now ++ ending.now))) }
{
    Ok(Text::from(format!(in alloc; "{work}/{name}{ending}")?))
}
