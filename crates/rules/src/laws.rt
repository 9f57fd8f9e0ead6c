//! Functions whose contracts are the theorems on the rules.
ghost use Rattle.rules.specs.Examples.{ExamplesHold};
ghost use Rattle.rules.specs.Runs.{RunsLawful};

/// The laws of every run: whatever calls are made of a newly formatted index, in whatever order and for whatever
/// seats, a find that ends reports what the plain map holds, a put that ends was published as it reports, a check or
/// a latch step is turned back exactly when another seat held the node's latch since the look, and an abandoned
/// operation was published as it reports.
pub fn runs_are_lawful()
    ensures { RunsLawful }
{}

/// The table of worked examples holds: runs of calls on a new index with what each answers, and verdicts of the orders.
pub fn worked_examples_hold()
    ensures { ExamplesHold }
{}
