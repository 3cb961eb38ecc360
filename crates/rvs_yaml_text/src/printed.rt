// Texts in single quotes.
ghost use Rattle.rvs_yaml_text.specs.Printed.{PrintedReadsBack};

/// A text that is printed in single quotes, each quote in it twice, is read back as itself: as a
/// key and as a scalar, on a line and in a flow collection.
pub fn printed_reads_back()
    ensures { PrintedReadsBack }
{}
