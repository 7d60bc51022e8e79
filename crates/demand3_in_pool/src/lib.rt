// Demand 3 of a drawer in a pool: calls in turn over the pool, whatever is done to its other drawers in between. Definitions and a theorem only. A function that does
// nothing holds the theorem to its statement.
#![tactic(auto)]

ghost use Rattle.demand3_in_pool.specs.Statement.{Demand3InPool};

fn demand_3_in_pool()
    ensures { Demand3InPool }
{}
