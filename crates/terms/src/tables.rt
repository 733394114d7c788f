// The papers' tables, as a promise about the definitions alone.
ghost use Rattle.terms.specs.Tables.{TablesHold};

// Does nothing: its contract is the claim about numbers, kinds, indicators and types.
pub fn tables_hold()
    ensures { TablesHold }
{}
