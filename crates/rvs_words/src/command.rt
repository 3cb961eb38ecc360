// What a command line asks for.
use rvs_abstract::Families;
use rvs_base::{DemoSize, Items, Text, Window, release};
use rvs_parts::Part;

/// A command with what it is given.
#[derive(Drop)]
pub enum Command {
    /// The words are no command.
    Unknown,
    /// Compare two signature files.
    Compare(CompareArguments),
    /// Check an ISA file, and print what it says.
    Validate(ValidateArguments),
    /// Read coverage groups, and print them with all points written out.
    Normalize(NormalizeArguments),
    /// Write a test for each label of coverage groups.
    Generate(GenerateArguments),
    /// Run a test on the reference machine, and write its signature.
    Reference(ReferenceArguments),
    /// Count which coverage points the instructions of logs hit.
    Coverage(CoverageArguments),
    /// Count how many hits of coverage points have their result stored in the signature.
    Propagate(PropagateArguments),
    /// Write a test for each label of coverage groups, run it on the reference machine and on a
    /// device, and judge what the device leaves.
    Run(RunArguments),
    /// Run the selected tests of a database on the reference machine and on a device, and judge
    /// what the device leaves.
    RunDatabase(RunDatabaseArguments),
    /// Put a page of what a run over coverage groups left.
    Report(ReportArguments),
    /// Say which tests of a database are selected for a core.
    Select(SelectArguments),
    /// Run a generated program of this size, and count its coverage.
    Demo(DemoSize),
}

/// Lets a command go. How each part of it is let go would be proved once more in a crate that let
/// it go itself.
pub fn release_command(command: Command) {
    release(command)
}

/// What `compare` is given: two signature files.
#[derive(Drop)]
pub struct CompareArguments {
    pub left: Text,
    pub right: Text,
}

/// What `validate` is given.
#[derive(Drop)]
pub struct ValidateArguments {
    /// The ISA file.
    pub isa: Text,
}

/// What `normalize` is given.
#[derive(Drop)]
pub struct NormalizeArguments {
    /// The ISA file.
    pub isa: Text,
    /// The group files, one to 64, in the order in which they are joined.
    pub groups: Items<Text>,
    /// Which families of the groups' abstract points are read.
    pub families: Families,
}

/// What `generate` is given.
#[derive(Drop)]
pub struct GenerateArguments {
    /// The ISA file.
    pub isa: Text,
    /// The group files, one to 64, in the order in which they are joined.
    pub groups: Items<Text>,
    /// The folder of the tests, which has to be there.
    pub work: Text,
    /// The part of the labels, where one is asked for.
    pub part: Option<Part>,
    /// Which families of the groups' abstract points are read.
    pub families: Families,
}

/// What `reference` is given.
#[derive(Drop)]
pub struct ReferenceArguments {
    /// The ISA file.
    pub isa: Text,
    /// The test: assembler text, an image, or an executable.
    pub test: Text,
    /// The file for the signature.
    pub signature: Text,
    /// The file for the log, where one is asked for.
    pub log: Option<Text>,
    /// The greatest number of steps, 1 to 2,000,000, where one is given.
    pub steps: Option<u64>,
}

/// What `coverage` is given.
#[derive(Drop)]
pub struct CoverageArguments {
    /// The ISA file.
    pub isa: Text,
    /// The group files, one to 64, in the order in which they are joined.
    pub groups: Items<Text>,
    /// The execution logs, one to 4,096, in their order.
    pub logs: Items<Text>,
    /// The windows of addresses whose instructions are counted, up to 16; all where there are none.
    pub windows: Items<Window>,
    /// Which families of the groups' abstract points are read.
    pub families: Families,
    /// Whether it is told how far the logs have been read.
    pub progress: bool,
}

/// What `propagate` is given.
#[derive(Drop)]
pub struct PropagateArguments {
    /// The ISA file.
    pub isa: Text,
    /// The group files, one to 64, in the order in which they are joined.
    pub groups: Items<Text>,
    /// The execution logs, one to 4,096, in their order, each with its signature.
    pub logs: Items<SignedLog>,
    /// Which families of the groups' abstract points are read.
    pub families: Families,
    /// Whether it is told how far the logs have been read.
    pub progress: bool,
}

/// An execution log of a test that leaves a signature.
#[derive(Drop)]
pub struct SignedLog {
    /// The log's file.
    pub name: Text,
    /// The addresses of the signature.
    pub signature: Window,
}

/// What `run` is given.
#[derive(Drop)]
pub struct RunArguments {
    /// The program's own name, which stands for `{self}` in the words of the device.
    pub program: Text,
    /// The ISA file.
    pub isa: Text,
    /// The group files, one to 64, in the order in which they are joined.
    pub groups: Items<Text>,
    /// The device file.
    pub device: Text,
    /// The folder of the tests and signatures, which has to be there.
    pub work: Text,
    /// The part of the labels, where one is asked for.
    pub part: Option<Part>,
    /// Which families of the groups' abstract points are read.
    pub families: Families,
}

/// What `run` is given, where it is over a database.
#[derive(Drop)]
pub struct RunDatabaseArguments {
    /// The program's own name, which stands for `{self}` in the words of the device.
    pub program: Text,
    /// The ISA file.
    pub isa: Text,
    /// The database of tests.
    pub database: Text,
    /// The device file.
    pub device: Text,
    /// The folder of the signatures, which has to be there.
    pub work: Text,
    /// The part of the tests, where one is asked for.
    pub part: Option<Part>,
}

/// What `report` is given.
#[derive(Drop)]
pub struct ReportArguments {
    /// The ISA file.
    pub isa: Text,
    /// The group files, one to 64, in the order in which they are joined.
    pub groups: Items<Text>,
    /// The device file.
    pub device: Text,
    /// The folder of the tests and signatures.
    pub work: Text,
    /// The execution logs, up to 4,096, in their order.
    pub logs: Items<Text>,
    /// The windows of addresses whose instructions are counted, up to 16; all where there are none.
    pub windows: Items<Window>,
    /// Which families of the groups' abstract points are read.
    pub families: Families,
}

/// What `select` is given.
#[derive(Drop)]
pub struct SelectArguments {
    /// The ISA file.
    pub isa: Text,
    /// The database of tests.
    pub database: Text,
}
