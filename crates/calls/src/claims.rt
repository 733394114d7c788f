// What holds of the calls' definitions, as promises of functions that do nothing. The contracts of the calls cite the same definitions.
ghost use Rattle.calls.specs.CheckExamples.{CheckExamplesHold};
ghost use Rattle.calls.specs.DemandOne.{DemandOne};
ghost use Rattle.calls.specs.DemandThree.{DemandThree};
ghost use Rattle.calls.specs.Examples.{ExamplesHold};
ghost use Rattle.calls.specs.FoldKeeps.{FoldsKeepReports, FoldsKeepOut, ResubmissionsStayOut, WithdrawnStayOut};
ghost use Rattle.calls.specs.Kept.{CallsKeepAreas};
ghost use Rattle.calls.specs.KeptExamples.{KeptExamplesHold};
ghost use Rattle.calls.specs.OrderExamples.{OrderExamplesHold};
ghost use Rattle.calls.specs.PlaceExamples.{PlaceExamplesHold};
ghost use Rattle.calls.specs.ProfileExamples.{ProfileExamplesHold};
ghost use Rattle.calls.specs.TrialExamples.{TrialExamplesHold};
ghost use Rattle.calls.specs.Trials.{TrialsForetell, TrialsAlterNothing};

// No call damages an area: one that is all zero or sound stays so, whatever the others hold.
pub fn calls_keep_areas()
    ensures { CallsKeepAreas }
{}

// Demand 1: what a call writes and what a refusal answers, on every register.
pub fn demand_one()
    ensures { DemandOne }
{}

// Demand 3, for every list of calls and every meter.
pub fn demand_three()
    ensures { DemandThree }
{}

// A fold loses nothing of a report, on every register.
pub fn folds_keep_reports()
    ensures { FoldsKeepReports }
{}

// A resubmission that was 8 before a fold is one of 9 to 12 from then on if its entry went, and else 8, on every register.
pub fn folds_keep_out()
    ensures { FoldsKeepOut }
{}

// A submission that was once 8 is one of 8 to 12, on every register and after every list of calls.
pub fn resubmissions_stay_out()
    ensures { ResubmissionsStayOut }
{}

// A read that was withdrawn is refused when it is sent again, after every list of calls.
pub fn withdrawn_stay_out()
    ensures { WithdrawnStayOut }
{}

// A trial is answered as the submission would be and writes nothing, on every register.
pub fn trials_foretell()
    ensures { TrialsForetell }
{}

// Trials alter no byte, no other answer and neither run of demand 3, wherever they stand in a list of calls.
pub fn trials_alter_nothing()
    ensures { TrialsAlterNothing }
{}

// Examples of what the definitions of demand 3 and of a fold mean.
pub fn examples_hold()
    ensures { ExamplesHold }
{}

// Examples of what a meter's profile means: its kind, the types that it takes, and 29 among the numbers.
pub fn profile_examples_hold()
    ensures { ProfileExamplesHold }
{}

// Examples of what a trial is, and of what a list is without its trials.
pub fn trial_examples_hold()
    ensures { TrialExamplesHold }
{}

// Examples of the numbers that keep a read out, and of areas that are all zero, sound or damaged.
pub fn kept_examples_hold()
    ensures { KeptExamplesHold }
{}

// Examples of what each check of a submission refuses, and of what it lets pass.
pub fn check_examples_hold()
    ensures { CheckExamplesHold }
{}

// Examples of the order of these checks: of two that a read breaks, the first is answered.
pub fn order_examples_hold()
    ensures { OrderExamplesHold }
{}

// Examples of which registers and places a call refuses, and of how much of an area is handed back.
pub fn place_examples_hold()
    ensures { PlaceExamplesHold }
{}
