// Examples of what bytes of a register say, as a promise about the definitions alone.
ghost use Rattle.register.specs.Examples.{RegisterExamplesHold};

// Does nothing: its contract is the claim about the examples.
pub fn register_examples_hold()
    ensures { RegisterExamplesHold }
{}
