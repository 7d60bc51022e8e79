// What the score watch and the export watch make of scores: their settings, what a score comes to, and how many lines were of each kind.
#![tactic(auto)]

ghost use Rattle.std.specs.Prelude.{◌≡◌, ◌^◌, ◌<◌};
ghost use Rattle.score_kinds.specs.Watching as Watching;
ghost use Rattle.score_kinds.specs.Counting as Counting;

use basicthresholder::{BasicThresholder, Graded};

const MOST_LINES: u64 = 65536;

const Z_FACTOR: f32 = 3.0;

// What a score comes to: skipped, or judged, with threshold and opening grade.
#[derive(Clone, Copy)]
pub enum Kind {
    Skipped,
    Quiet(Graded),
    Raised(Graded),
}

// How many lines of a run were of each kind.
#[derive(Clone, Copy)]
pub struct Counts {
    pub quiet: u32,
    pub raised: u32,
    pub skipped: u32,
}

// The thresholder of a run that has read nothing.
pub fn settings() -> BasicThresholder
    ensures { result ≡ Watching.settings }
{
    BasicThresholder::default().set_z_factor(Z_FACTOR)
}

// What a score comes to, by the statistics before it is counted: zero is skipped, grade 0 is quiet.
pub fn kind_of(thresholder: BasicThresholder, score: f32) -> Kind
    ensures { result ≡ Watching.kind_of thresholder score }
{
    if score == 0.0 {
        return Kind::Skipped;
    }
    let graded = thresholder.primary_threshold_and_grade(score);
    if graded.grade == 0.0 {
        return Kind::Quiet(graded);
    }
    Kind::Raised(graded)
}

// The statistics with the score; a zero score is not counted.
#[tactic(auto, unfolding(crate::specs::Watching::counted))]
pub fn counted(thresholder: BasicThresholder, x: f32) -> BasicThresholder
    ensures { result ≡ Watching.counted thresholder x }
{
    if x == 0.0 {
        return thresholder;
    }
    let after = thresholder.update_primary(ieee::widen(x));
    after.state
}

// The counts before the first line.
#[tactic(auto, unfolding(crate::specs::Counting::no_lines))]
pub fn no_lines() -> Counts
    ensures { result ≡ Counting.no_lines }
{
    Counts {
        quiet: 0,
        raised: 0,
        skipped: 0,
    }
}

// The lines judged or skipped.
pub fn lines(counts: Counts) -> u64
    ensures count { result ≡ Counting.lines counts }
    ensures bound { result < 2 ^ 34 }
{
    counts.quiet as u64 + counts.raised as u64 + counts.skipped as u64
}

// The counts with one more line of that kind; those of 65,536 lines, which are all that a run can have, stay as they are.
pub fn with_line(counts: Counts, kind: Kind) -> Counts
    ensures { result ≡ Counting.with_line counts kind }
{
    let mut after = counts;
    if lines(counts) < MOST_LINES {
        match kind {
            Kind::Skipped => {
                after.skipped += 1;
            }
            Kind::Quiet(_) => {
                after.quiet += 1;
            }
            Kind::Raised(_) => {
                after.raised += 1;
            }
        }
    }
    after
}
