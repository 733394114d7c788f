// What holds of a tally, and of one that is kept over a whole list of calls, as promises of functions that do nothing.
ghost use Rattle.tally.specs.Examples.{TallyExamplesHold};
ghost use Rattle.tally.specs.Kept.{TalliesReport};

// A report from the tally is a full report, after every list of calls.
pub fn tallies_report()
    ensures { TalliesReport }
{}

// Examples of what a tally, its report and its changes mean.
pub fn tally_examples_hold()
    ensures { TallyExamplesHold }
{}
