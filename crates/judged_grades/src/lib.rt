// A higher score never opens with a lower grade: two judgments of one drawer as it stands, of readings that differ in the score alone. Definitions and a theorem only. A
// function that does nothing holds the theorem to its statement.
#![tactic(auto)]

ghost use Rattle.judged_grades.specs.Statement.{HigherJudged};

fn higher_judged()
    ensures { HigherJudged }
{}
