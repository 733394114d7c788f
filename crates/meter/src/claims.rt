// What holds of the definitions of this crate, as the promise of a function that does nothing.
ghost use Rattle.meter.specs.Examples.{ExamplesHold};

// Examples of a search by place and day.
pub fn examples_hold()
    ensures { ExamplesHold }
{}
