// The ledger comparison of the export watch: the exact ledger of the scores read against the thresholds and grades printed. Definitions and a theorem only. A function
// that does nothing holds the theorem to its statement.
#![tactic(auto)]

ghost use Rattle.export_ledger.specs.Statement.{Demand3OfExports};

fn demand_3_of_exports()
    ensures { Demand3OfExports }
{}
