// What holds of the definitions of playing, as the promise of a function that does nothing.
ghost use Rattle.playing.specs.Examples.{ExamplesHold};

// Examples of what a sheet prints, byte by byte.
pub fn examples_hold()
    ensures { ExamplesHold }
{}
