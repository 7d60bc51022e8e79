// A higher score never opens with a lower grade, over C: two calls of krcf_detect_and_modify on one stored state, by their bytes and answers. Definitions and a theorem
// only. A function that does nothing holds the theorem to its statement.
#![tactic(auto)]

ghost use Rattle.judged_grades_over_c.specs.Statement.{HigherJudgedOverC};

fn higher_judged_over_c()
    ensures { HigherJudgedOverC }
{}
