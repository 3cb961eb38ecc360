// What a caller of `run_suite` may conclude from its promise.
ghost use Rattle.rvs_uses.specs.Laws.{ComparesFiles, ValidatesFile, RefersToFiles, PassesTheSame};
ghost use Rattle.rvs_uses.specs.Laws.{MakesTests};
ghost use Rattle.rvs_uses.specs.Halted.{RunsHalt, LogsTellRuns, RunsAreLimited, RunsAreBounded};
ghost use Rattle.rvs_uses.specs.Made.{TestsRun, NamesAreApart, TextsAreProved, UntestedHaveNone};
ghost use Rattle.rvs_uses.specs.Made.{TestsAreRunnable, ExecutablesRun, RunsAccept};
ghost use Rattle.rvs_uses.specs.Made.{PassesBySpelling};
ghost use Rattle.rvs_uses.specs.Parted.{PartsReadAll, PartsAreApart, PartsList, PartsTell};
ghost use Rattle.rvs_uses.specs.Parted.{PartsCount, PartsPass, DatabasesAreParted};

/// What `compare`, `validate` and `reference` promise, in the words of their files: what is there,
/// within its limit and spelt or refused how, before each answer and after it.
pub fn answers_tell_of_files()
    ensures compare { ComparesFiles }
    ensures validate { ValidatesFile }
    ensures reference { RefersToFiles }
{}

/// A PASS of `compare` means that both files are there and spell the same words.
pub fn a_pass_means_the_same_words()
    ensures { PassesTheSame }
{}

/// Where `generate` is done, each point that a choice of the datasets hits has a test: a file whose
/// one image halts within its steps, and in whose run the counter counts the point.
pub fn each_point_that_a_choice_hits_has_a_test()
    ensures { MakesTests }
{}

/// What holds of the tests that `generate` and `run` make of accepted inputs, before a call says
/// anything of them: they run as their texts claim, no two labels have one name, each text is
/// proved of its bytes alone, a label without a test has no point that a choice hits, the reference
/// machine halts on each, and each executable runs as its test does. What `run` accepts has groups
/// that `generate` accepts too.
pub fn tests_of_accepted_inputs()
    ensures tested { TestsRun }
    ensures apart { NamesAreApart }
    ensures proved { TextsAreProved }
    ensures untested { UntestedHaveNone }
    ensures runnable { TestsAreRunnable }
    ensures executables { ExecutablesRun }
    ensures by_run { RunsAccept }
{}

/// A verdict of `run` on a test is a pass exactly where what the device left spells the words of
/// the reference machine.
pub fn a_pass_means_the_reference_words()
    ensures { PassesBySpelling }
{}

/// What holds of each run that `reference` tells of: it halts, its log has the executed
/// instructions, and it has no more than 2,000,000 of them.
pub fn runs_of_the_reference_halt()
    ensures halts { RunsHalt }
    ensures logged { LogsTellRuns }
    ensures limited { RunsAreLimited }
    ensures bounded { RunsAreBounded }
{}

/// The parts of a run are the whole: each reads all inputs and has its own labels of them; each
/// label and each test is in exactly one; no two write a file in common; what a part lists and
/// tells is what the whole does of its labels, where the device leaves the same; the totals add up;
/// and all parts are done exactly where the whole is. So are the tests of a database.
pub fn parts_are_the_whole_run()
    ensures all_read { PartsReadAll }
    ensures apart { PartsAreApart }
    ensures listed { PartsList }
    ensures told { PartsTell }
    ensures counted { PartsCount }
    ensures done { PartsPass }
    ensures database { DatabasesAreParted }
{}
