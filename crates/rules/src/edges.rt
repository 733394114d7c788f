// The pairs at an edge, as a promise about the definitions alone.
ghost use Rattle.rules.specs.Edges.{EdgesHold};

// Does nothing: its contract is the claim about the table of pairs.
pub fn edges_hold()
    ensures { EdgesHold }
{}
