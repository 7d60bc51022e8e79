// Rule 13 in words and kept by every call, what each call does to the two chains, that a state which is the same is not written, and that no drawer of a pool depends
// on another: definitions and theorems only. Functions that do nothing hold the theorems to their statements.
#![tactic(auto)]

ghost use Rattle.pool_laws.specs.Isolation.{Isolation};
ghost use Rattle.pool_laws.specs.Rules.{PoolRules};
ghost use Rattle.pool_laws.specs.Unwritten.{Unwritten};

fn pool_rules()
    ensures { PoolRules }
{}

fn pool_isolation()
    ensures { Isolation }
{}

fn pool_unwritten()
    ensures { Unwritten }
{}
