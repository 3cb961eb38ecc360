// What command lines ask for.
ghost use Rattle.rvs_words.specs.CommandLaws.{ComparesAreRead, ValidatesAreRead, NormalizesAreRead};
ghost use Rattle.rvs_words.specs.CommandLaws.{GeneratesAreRead, ReferencesAreRead};
ghost use Rattle.rvs_words.specs.CommandLaws.{CoveragesAreRead, PropagatesAreRead, RunsAreRead};
ghost use Rattle.rvs_words.specs.CommandLaws.{RunsOverDatabasesAreRead, RunsHaveOneSource};
ghost use Rattle.rvs_words.specs.CommandLaws.{DatabasesHaveNoFamilies};
ghost use Rattle.rvs_words.specs.CommandLaws.{ReportsAreRead, SelectsAreRead, DemosAreRead};
ghost use Rattle.rvs_words.specs.CommandLaws.{OptionsArePairs, OptionsChangePlaces, FlagsArePairs};
ghost use Rattle.rvs_words.specs.CommandLaws.{StepsAreRead, CountsAreRead, WindowsAreRead};
ghost use Rattle.rvs_words.specs.CommandLaws.{RangesAreRead, RangesAreReadEach, PartsAreRead};
ghost use Rattle.rvs_words.specs.CommandLaws.{FamiliesAreRead};

/// The words of each command, with its options in the usual order, ask for that command with these
/// values, for all names: whichever form each option has, with any list of one to 64 group files,
/// any list of one to 4,096 logs to count, and with or without the log of a run, the steps, the
/// windows, the part, the families and the progress, of `report` without logs too.
pub fn commands_are_read()
    ensures compare { ComparesAreRead }
    ensures validate { ValidatesAreRead }
    ensures normalize { NormalizesAreRead }
    ensures generate { GeneratesAreRead }
    ensures reference { ReferencesAreRead }
    ensures coverage { CoveragesAreRead }
    ensures propagate { PropagatesAreRead }
    ensures run { RunsAreRead }
    ensures run_database { RunsOverDatabasesAreRead }
    ensures run_source { RunsHaveOneSource }
    ensures run_families { DatabasesHaveNoFamilies }
    ensures report { ReportsAreRead }
    ensures select { SelectsAreRead }
    ensures demo { DemosAreRead }
{}

/// The order of options doesn't matter: each is one pair of a name and a value, which is empty for
/// the option that has none, and neighbouring pairs of different names may change places without
/// changing the command.
pub fn options_stand_in_any_order()
    ensures pairs { OptionsArePairs }
    ensures flags { FlagsArePairs }
    ensures places { OptionsChangePlaces }
{}

/// The decimal text of a number within the limit gives that number, the texts of up to 16 windows
/// give these windows, the text of one range gives it to all logs, the texts of as many ranges as
/// logs give each its own, and the text of a part gives it.
pub fn numbers_are_read()
    ensures steps { StepsAreRead }
    ensures count { CountsAreRead }
    ensures windows { WindowsAreRead }
    ensures range { RangesAreRead }
    ensures ranges { RangesAreReadEach }
    ensures part { PartsAreRead }
    ensures families { FamiliesAreRead }
{}
