// The ledger comparison of a watch of scores: the exact ledger of its scores against the thresholds and grades that it shows. Definitions and a theorem only. A function
// that does nothing holds the theorem to its statement.
#![tactic(auto)]

ghost use Rattle.watch_ledger.specs.Statement.{Demand3OfScores};

fn demand_3_of_scores()
    ensures { Demand3OfScores }
{}
