// Demand 3 of the C functions: calls in turn over one lent state, by their bytes and answers. Definitions and a theorem only. A function that does nothing holds
// the theorem to its statement.
#![tactic(auto)]

ghost use Rattle.demand3_over_c.specs.Statement.{Demand3OverC};

fn demand_3_over_c()
    ensures { Demand3OverC }
{}
