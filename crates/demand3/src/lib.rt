// Demand 3 of the watch itself: the exact ledger against calls of `new`, the setters of z and horizon, and `detect_and_modify`. Definitions and a theorem only. A
// function that does nothing holds the theorem to its statement.
#![tactic(auto)]

ghost use Rattle.demand3.specs.Statement.{Demand3OfCalls};

fn demand_3_of_calls()
    ensures { Demand3OfCalls }
{}
