// Examples of the settings, the marks and the indicator, as a promise about the definitions alone.
ghost use Rattle.rules.specs.Examples.{RuleExamplesHold};

// Does nothing: its contract is the claim about the examples.
pub fn rule_examples_hold()
    ensures { RuleExamplesHold }
{}
