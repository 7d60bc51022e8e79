// Document 01's ledger in unrounded fractions, and demand 3 of any judge that keeps its laws (specs/Theorem.antt). Definitions and theorems only. A function that does
// nothing holds what is proved of the statement itself; `demand3` and `demand3_over_c` cite the theorem.
#![tactic(auto)]

ghost use Rattle.ledger.specs.Faithful.{Faithful};

fn the_statement_is_faithful()
    ensures { Faithful }
{}
