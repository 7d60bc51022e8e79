// A higher score never earns a lower grade: the grades of `threshold_and_grade_with_factor` and of `primary_grade`. Definitions and theorems only: a function that does
// nothing holds the first to its statement, and one that makes two calls says the same of their contracts.
#![tactic(auto)]

ghost use Rattle.grades.specs.Statement.{HigherScores, InOrder};

use basicthresholder::{BasicThresholder, Graded};
use types::TransformMethod;

#[derive(Drop)]
struct Both {
    first: Graded,
    second: Graded,
}

fn higher_scores()
    ensures { HigherScores }
{}

// Two scores put to one state, all else equal.
fn put_both(
    s: BasicThresholder,
    x: f32,
    y: f32,
    factor: f32,
    method: TransformMethod,
    shingle_size: usize,
) -> Both
    ensures { InOrder s x y result.first result.second }
{
    let first = s.threshold_and_grade_with_factor(x, factor, method, shingle_size);
    let second = s.threshold_and_grade_with_factor(y, factor, method, shingle_size);
    Both { first, second }
}
