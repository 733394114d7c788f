// Examples of journals that are sound and of neighbours that are not, as a promise about the definitions alone.
ghost use Rattle.journal.specs.Examples.{SoundExamplesHold};

// Does nothing: its contract is the claim about the examples.
pub fn sound_examples_hold()
    ensures { SoundExamplesHold }
{}
