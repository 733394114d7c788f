// What holds of the sheet's definitions, as the promise of a function that does nothing.
ghost use Rattle.sheet.specs.Examples.{ExamplesHold};

// Examples of entries, one of each kind, byte by byte.
pub fn examples_hold()
    ensures { ExamplesHold }
{}
