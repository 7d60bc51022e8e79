// A higher score never earns a lower grade, over C: the thresholder's calls by their bytes and answers. Definitions and a theorem only. A function that does nothing
// holds the theorem to its statement.
#![tactic(auto)]

ghost use Rattle.grades_over_c.specs.Statement.{HigherOverC};

fn higher_over_c()
    ensures { HigherOverC }
{}
