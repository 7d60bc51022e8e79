// The ledger comparison of the training load: its scores are of the ledger's sizes, and demand 3 holds of a drawer that is fed with it. Definitions and theorems only. A
// function that does nothing holds them to their statement.
#![tactic(auto)]

ghost use Rattle.training_ledger.specs.Statement.{TrainingLedger};

fn the_load_is_in_bounds()
    ensures { TrainingLedger }
{}
