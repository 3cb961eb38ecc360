// What a reader of a page reads.
ghost use Rattle.rvs_page.specs.Laws.{TextsAreReadBack, TextsHoldNoMarks, TextsKeepTheirSize};
ghost use Rattle.rvs_page.specs.Laws.{PassSaysThatAllPass};

/// A text that stands in a page is read back as itself; it has no byte that begins or ends a tag or
/// an attribute's value; and it takes six bytes a byte at most.
pub fn pages_tell_texts()
    ensures back { TextsAreReadBack }
    ensures plain { TextsHoldNoMarks }
    ensures size { TextsKeepTheirSize }
{}

/// A page says PASS exactly where each test is there and passes.
pub fn pages_pass_where_all_tests_do()
    ensures { PassSaysThatAllPass }
{}
