// That all parts together are the whole.
ghost use Rattle.rvs_parts.specs.Laws.{EachIsInOne, PartsAddUp, PartsAreMapped, PartsAreAll};
ghost use Rattle.rvs_parts.specs.Laws.{OnePartIsAll, ThingsAreInOne, PartsHaveNoMore};

/// Each place is in exactly one of so many parts; so whatever is counted of the things of a list is
/// counted once in all parts together, a part keeps what is made of each thing, and something holds
/// of all things exactly where it holds of all things of each part. The one part of one is the
/// whole. Where keys tell the things apart, each is in exactly one part, which has nothing else.
pub fn parts_are_the_whole<X>()
    ensures one { EachIsInOne }
    ensures sums { PartsAddUp X }
    ensures mapped { PartsAreMapped X }
    ensures all { PartsAreAll X }
    ensures whole { OnePartIsAll X }
    ensures things { ThingsAreInOne X }
    ensures no_more { PartsHaveNoMore X }
{}
