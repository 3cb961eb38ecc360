// Laws of the definitions that the other contracts cite.
ghost use Rattle.rvs_isa.specs.Laws.{CanonicalTextsAreAccepted, TextsAreReadAsSpelled};
ghost use Rattle.rvs_isa.specs.Laws.{AcceptedHaveRoom};
ghost use Rattle.rvs_isa.specs.Reads.{UnreadAreListed, OthersChangeNothing, ReadAreRefused};

/// A law: the canonical text of a core is accepted, and names just what the core has.
pub fn canonical_texts_are_accepted()
    ensures { CanonicalTextsAreAccepted }
{}

/// A law: an ISA text has just the base, the letters and the names that spell it.
pub fn isa_texts_are_read_as_spelled()
    ensures { TextsAreReadAsSpelled }
{}

/// A law: a path is listed as unread exactly where no check looks at its entry. Two specifications
/// that have the same at the paths that checks look at come to the same core or refusal, and each
/// of these paths is that of some refusal.
pub fn unread_paths_are_those_that_no_check_reads()
    ensures listed { UnreadAreListed }
    ensures others { OthersChangeNothing }
    ensures refused { ReadAreRefused }
{}

/// A law: each core that is accepted has room for text and data.
pub fn accepted_have_room()
    ensures { AcceptedHaveRoom }
{}
