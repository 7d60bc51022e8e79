// The steps of a grade and the order of scores: what a larger score does to them. Definitions and a theorem only. A function that does nothing holds the theorem to
// its statement.
#![tactic(auto)]

ghost use Rattle.grade_order.specs.Statement.{StepsRise};

fn steps_rise()
    ensures { StepsRise }
{}
