// Document 01's drill sheet: definitions and a theorem only. A function that does nothing holds the theorem to its statement.
#![tactic(auto)]

ghost use Rattle.drill_sheet.specs.DrillSheet.{Statement};

fn every_row_holds()
    ensures { Statement }
{}
