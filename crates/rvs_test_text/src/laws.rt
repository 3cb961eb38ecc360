// What holds of test texts.
ghost use Rattle.rvs_test_text.specs.Claim.{TestsRun};

/// One image stands to a test's text; its run halts within the header's steps, hits each case and
/// leaves each outcome.
#[tactic(auto, using(crate::proofs::Main::tests_run))]
pub fn tests_run()
    ensures { TestsRun }
{}
