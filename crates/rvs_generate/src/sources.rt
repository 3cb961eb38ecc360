// The tests that are judged.
ghost use Rattle.std.specs.Prelude.{◌≡◌};
ghost use Rattle.rvs_generate.specs.Tests.{source_name};

use crate::gathering::Test;
use rvs_base::Text;

/// A test of a database, by its place there and its name.
#[derive(Drop)]
pub struct Given {
    pub place: usize,
    pub name: Text,
}

/// A test that is to be judged, by where its bytes come from.
#[derive(Drop)]
pub enum Source {
    /// It was made.
    Held(Test),
    /// Its file is read when its turn comes.
    Read(Given),
}

/// The name that the verdict on a test is put with.
pub fn name_of(source: &Source) -> &str
    ensures { result.now ≡ source_name source.now }
{
    match source {
        Source::Held(test) => test.name.as_str(),
        Source::Read(given) => given.name.as_str(),
    }
}
