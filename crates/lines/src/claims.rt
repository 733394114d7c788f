// What holds of the lines' definitions, as the promise of a function that does nothing.
ghost use Rattle.lines.specs.Examples.{ExamplesHold};

// Examples of lines, byte by byte, and how long a line is at most.
pub fn examples_hold()
    ensures { ExamplesHold }
{}
