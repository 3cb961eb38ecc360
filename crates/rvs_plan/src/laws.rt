// What holds of every plan.
ghost use Rattle.rvs_plan.specs.Laws.{FrontsAreBeginnings, ListsAreGoneThrough};

/// The plan of a command and the list of its effects say the same, for all files and all answers of
/// devices. It does nothing.
pub fn plans_are_lists()
    ensures fronts { FrontsAreBeginnings }
    ensures whole { ListsAreGoneThrough }
{}
