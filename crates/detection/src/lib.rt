// predictorcorrector.rs: what `detect_and_modify` decides on a reading. The stages are functions of their own; what the forest answers is lent.
#![tactic(auto)]

ghost use Rattle.std.specs.Prelude.{◌≡◌, cond, eqb, ◌≤◌, ◌*◌, ◌+◌, ◌-◌, pos, ◌+ℤ◌, ◌-ℤ◌, length, take, drop, replicate};
ghost use Rattle.types.specs.Codes.{is_differenced};
ghost use Rattle.attributors.specs.Attributors.{padded};
ghost use Rattle.uncertainty_box.specs.Box as Box;
ghost use Rattle.uncertainty_box.specs.Pass as Pass;
ghost use Rattle.descriptor.specs.Lent.{lists_of};
ghost use Rattle.detection.specs.Const.{zero32};
ghost use Rattle.detection.specs.Judging as Judging;
ghost use Rattle.detection.specs.Decided as Decided;
ghost use Rattle.detection.specs.Steps as Steps;

use basicthresholder::{BasicThresholder, Graded};
use descriptor::{LastDescriptor, Lent, Reading};
use predictorcorrector::{PredictorCorrector, Standing};
use types::{CorrectionMode, Refusal};

// What the watch says of an accepted reading.
#[derive(Clone, Copy)]
pub enum Verdict {
    Quiet(f32),
    Corrected(f32, CorrectionMode),
    Raised(f32, f32),
    Skipped,
}

// The outcome, with the relative index of a raised reading and, where the candidate branch is reached, the newest row of the expected point.
#[derive(Clone, Copy)]
pub struct Decision {
    pub outcome: Result<Verdict, Refusal>,
    pub relative_index: i32,
    pub newest_expected: [f32; 16],
}

// The outcome, with the relative index of a raised reading and the state beside it, which a refusal hands back too (document 01's "state in, state out").
#[derive(Clone, Copy)]
pub struct Judgment {
    pub outcome: Result<Verdict, Refusal>,
    pub relative_index: i32,
    pub state: PredictorCorrector,
}

fn zeros() -> [f32; 1024]
    ensures { length result ≡ 1024 }
{
    [0.0f32; 1024]
}

fn sixteen() -> [f32; 16]
    ensures { result ≡ replicate 16 zero32 }
{
    [0.0f32; 16]
}

// What the noise pass makes of a point; how many coordinates it read is of no use here.
fn pass_factor(base: usize, b: Lent, point: &[f32]) -> f32
    ensures { result ≡ Pass.centered_transform_pass base b.entry.scale.now b.entry.shift.now b.entry.difference_deviations.now point.now }
{
    let passed = uncertainty_box::centered_transform_pass(
        base,
        b.scale,
        b.shift,
        b.difference_deviations,
        point,
    );
    passed.factor
}

// The noise pass of the corrected point; without a copy where nothing is corrected.
fn noise_pass(r: Reading, l: LastDescriptor, b: Lent) -> f32
    requires { Steps.Correctable r l (lists_of b) }
    ensures { result ≡ Judging.noise_pass r l (lists_of b.entry) }
{
    let base = r.base_dimension;
    let gap = scoring::gap(r, l);
    if !scoring::is_recent(l.has_anomaly, gap, r.shingle_size) {
        return pass_factor(base, b, b.point);
    }
    let method = r.transform_method;
    let anomaly = l.anomaly;
    let d = b.point.len();
    let mut work = zeros();
    corrector::write_corrected_point(
        b.point,
        gap,
        r.shingle_size,
        base,
        l.has_anomaly,
        b.last_expected,
        b.last_anomalous,
        anomaly.relative_index,
        method.is_differenced(),
        r.time_augmented,
        &mut work[..d],
    );
    pass_factor(base, b, &work[..d])
}

// The uncertainty box in the first `base` places.
fn box_of(r: Reading, start: usize, b: Lent) -> [f32; 16]
    requires { r.base_dimension ≤ 16 }
    ensures { take r.base_dimension result ≡ Box.uncertainty_box b.entry.point.now start b.entry.scale.now b.entry.shift.now
        b.entry.difference_deviations.now (is_differenced r.transform_method) (replicate r.base_dimension zero32) }
{
    let base = r.base_dimension;
    let method = r.transform_method;
    let mut out = sixteen();
    uncertainty_box::construct_uncertainty_box(
        b.point,
        start,
        b.scale,
        b.shift,
        b.difference_deviations,
        method.is_differenced(),
        &mut out[..base],
    );
    out
}

// The block that contributes most: its place among the blocks, where it starts, and the uncertainty box there in the first `base` places.
#[derive(Drop)]
struct Place {
    index: usize,
    start: usize,
    edges: [f32; 16],
}

// Where the block starts.
fn block_start(block: usize, base: usize) -> usize
    requires block_small { block ≤ 1024 }
    requires base_most { base ≤ 16 }
    ensures { result ≡ block * base }
{
    block * base
}

// Counted back from the newest block, which is 0.
fn relative_index(block: usize, shingle_size: usize) -> i32
    requires block_small { block ≤ 1024 }
    requires shingle_most { shingle_size ≤ 64 }
    ensures { result ≡ pos block -ℤ pos shingle_size +ℤ pos 1 }
{
    (block as i32) - (shingle_size as i32) + 1
}

// Where a reading ends, up to the noise pass; or the threshold and the grade that it is past it with.
#[derive(Drop)]
enum Way {
    Refused(Refusal),
    Skipped,
    Quiet(f32),
    Corrected(f32, CorrectionMode),
    Past(f32, f32),
}

// Every exit up to the noise pass, `answer` being what the entry checks say.
#[tactic(auto, unfolding(crate::specs::Steps::way, crate::specs::Steps::accepted_way, crate::specs::Judging::recent, crate::specs::Judging::gap))]
fn find_way(
    answer: Result<(), Refusal>,
    t: BasicThresholder,
    r: Reading,
    l: LastDescriptor,
    b: Lent,
) -> Way
    requires { Steps.Accepting r l (lists_of b) answer }
    ensures { result ≡ Steps.way r l (lists_of b.entry) t answer }
{
    if let Err(why) = answer {
        return Way::Refused(why);
    }
    if scoring::is_skipped(r.score) {
        return Way::Skipped;
    }
    let opened = scoring::opening(t, r, r.score);
    if opened.grade == 0.0 {
        return Way::Quiet(opened.threshold);
    }
    if scoring::corrected_quiet(t, r, l) {
        return Way::Corrected(opened.threshold, CorrectionMode::ANOMALY_IN_SHINGLE);
    }
    let working = opened.grade * noise_pass(r, l, b);
    if working == 0.0 {
        return Way::Corrected(opened.threshold, CorrectionMode::NOISE);
    }
    Way::Past(opened.threshold, working)
}

// An outcome short of the candidate branch.
#[tactic(auto, unfolding(crate::specs::Steps::without_row))]
fn without_row(outcome: Result<Verdict, Refusal>) -> Decision
    ensures { result ≡ Steps.without_row outcome }
{
    Decision {
        outcome,
        relative_index: 0,
        newest_expected: sixteen(),
    }
}

// The newest row of the point with another row in its place, up to `end`.
#[tactic(auto, using(corrector::proofs::Rows::row_at_is))]
fn newest_with(row: [f32; 16], end: usize, base: usize, point: &[f32]) -> [f32; 16]
    requires base_most { base ≤ 16 }
    requires inside { base ≤ length point.now }
    ensures { result ≡ cond (eqb end (length point.now)) row (padded zero32 16 (take base (drop (length point.now - base) point.now))) }
{
    if end == point.len() {
        return row;
    }
    corrector::row_at(point, point.len() - base, base)
}

// Whether the row of the point from `start` on is within the box of the expected row.
fn within_expected(
    edges: [f32; 16],
    start: usize,
    base: usize,
    scale: &[f32],
    point: &[f32],
    row: [f32; 16],
) -> bool
    requires base_most { base ≤ 16 }
    requires inside { start + base ≤ length point.now }
    ensures { result ≡ Box.within_unertainty_box (take base edges) 0 scale.now (take base (drop start point.now)) (take base row) }
{
    let end = start + base;
    let held = uncertainty_box::within_unertainty_box(
        &edges[..base],
        0,
        scale,
        &point[start..end],
        &row[..base],
    );
    held.within
}

// Whether the candidate branch is data drift.
#[tactic(auto, using(crate::proofs::Work::tail_is), unfolding(crate::specs::Steps::drift_by))]
fn is_drift(
    k: Standing,
    r: Reading,
    l: LastDescriptor,
    threshold: f32,
    point: &[f32],
    newest_expected: [f32; 16],
    difference_deviations: &[f32],
) -> bool
    requires { Steps.Counting r (length point.now) }
    ensures { result ≡ Steps.drift_by k r l threshold (drop (length point.now - r.base_dimension) point.now) (take r.base_dimension newest_expected) difference_deviations.now }
{
    let base = r.base_dimension;
    let at = point.len() - base;
    candidate::is_data_drift(
        r,
        l,
        k.auto_adjust,
        k.run_length,
        r.shingle_size as u32,
        threshold,
        k.last_actual,
        k.last_expected,
        &point[at..],
        &newest_expected[..base],
        difference_deviations,
    )
}

// The exits that look at the expected point: forecast, data drift, or raised, which alone writes the buffers. The three that are written are parameters here and in
// what calls this: of a struct of `&mut` slices a contract names what is written by its place alone.
fn expected_exits(
    k: Standing,
    r: Reading,
    l: LastDescriptor,
    block: Place,
    working: Graded,
    b: Lent,
    expected: &mut [f32],
    out_high: &mut [f64],
    out_low: &mut [f64],
) -> Decision
    requires branching { Steps.Branching r l (lists_of b) }
    requires writing { Steps.Writing (lists_of b) (length expected.old) (length out_high.old) (length out_low.old) }
    requires index { block.index ≡ Judging.block r l (lists_of b) }
    requires start { block.start ≡ Judging.start r l (lists_of b) }
    requires edges { length block.edges ≡ 16 }
    ensures { Decided.Decided r l (lists_of b.entry) (Steps.expected_outcome k r l (lists_of b.entry)
        (take r.base_dimension block.edges) working.threshold working.grade) result expected.old out_high.old out_low.old
        expected.new out_high.new out_low.new }
{
    let base = r.base_dimension;
    let start = block.start;
    let edges = block.edges;
    let threshold = working.threshold;
    let row = corrector::expected_row(b.high, b.low, start, base, b.point, b.median);
    if within_expected(edges, start, base, b.scale, b.point, row) {
        return without_row(Ok(Verdict::Corrected(threshold, CorrectionMode::FORECAST)));
    }
    let newest_expected = newest_with(row, start + base, base, b.point);
    if is_drift(
        k,
        r,
        l,
        threshold,
        b.point,
        newest_expected,
        b.difference_deviations,
    ) {
        return Decision {
            outcome: Ok(Verdict::Corrected(threshold, CorrectionMode::DATA_DRIFT)),
            relative_index: 0,
            newest_expected,
        };
    }
    scoring::write_raised(
        r, start, b.point, row, b.high, b.low, expected, out_high, out_low,
    );
    Decision {
        outcome: Ok(Verdict::Raised(threshold, working.grade)),
        relative_index: relative_index(block.index, r.shingle_size),
        newest_expected,
    }
}

// The exits past the noise pass: first those that look at the block that contributes most.
fn past_noise(
    k: Standing,
    r: Reading,
    l: LastDescriptor,
    working: Graded,
    b: Lent,
    expected: &mut [f32],
    out_high: &mut [f64],
    out_low: &mut [f64],
) -> Decision
    requires branching { Steps.Branching r l (lists_of b) }
    requires writing { Steps.Writing (lists_of b) (length expected.old) (length out_high.old) (length out_low.old) }
    ensures { Decided.Decided r l (lists_of b.entry) (Steps.late_outcome k r l (lists_of b.entry) working.threshold working.grade)
        result expected.old out_high.old out_low.old expected.new out_high.new out_low.new }
{
    let base = r.base_dimension;
    let threshold = working.threshold;
    let index = scoring::anomaly_block(r, l, b.high, b.low);
    let start = block_start(index, base);
    let edges = box_of(r, start, b);
    if scoring::auto_explained(
        k.auto_adjust,
        &edges[..base],
        b.point,
        start,
        b.scale,
        b.neighbours,
    ) {
        return without_row(Ok(Verdict::Corrected(threshold, CorrectionMode::CONDITIONAL_FORECAST)));
    }
    if scoring::explained_by_last(r, l, b.high, b.low, b.ideal_high, b.ideal_low, threshold) {
        return without_row(Ok(Verdict::Corrected(threshold, CorrectionMode::ANOMALY_IN_SHINGLE)));
    }
    let block = Place {
        index,
        start,
        edges,
    };
    expected_exits(k, r, l, block, working, b, expected, out_high, out_low)
}

// Decides on a reading: document 01's entry checks (6 by `counts_ok`, as the caller has it), then the exits of the Rust's `detect_and_modify`. The expected point and the normalised
// attribution are written to the last three buffers where the reading is raised, and left alone otherwise. What a verdict does to the
// state is left to the caller, who has it as a struct (`judging::after`) or in bytes.
pub fn judge(
    k: Standing,
    r: Reading,
    l: LastDescriptor,
    b: Lent,
    expected: &mut [f32],
    out_high: &mut [f64],
    out_low: &mut [f64],
) -> Decision
    ensures { Decided.Decided r l (lists_of b.entry) (Decided.decision r l (lists_of b.entry) k
        (length expected.old) (length out_high.old) (length out_low.old)) result expected.old out_high.old out_low.old
        expected.new out_high.new out_low.new }
{
    let answer = descriptor::answer(
        r,
        l,
        b,
        expected.len(),
        out_high.len(),
        out_low.len(),
        k.base_dimension,
        k.counts_ok,
    );
    let way = find_way(answer, k.basic_thresholder, r, l, b);
    match way {
        Way::Refused(why) => without_row(Err(why)),
        Way::Skipped => without_row(Ok(Verdict::Skipped)),
        Way::Quiet(threshold) => without_row(Ok(Verdict::Quiet(threshold))),
        Way::Corrected(threshold, mode) => { without_row(Ok(Verdict::Corrected(threshold, mode))) }
        Way::Past(threshold, grade) => {
            let working = Graded { threshold, grade };
            past_noise(k, r, l, working, b, expected, out_high, out_low)
        }
    }
}

// The mode of the candidate branch, which counts the newest rows.
pub fn is_drift_mode(mode: CorrectionMode) -> bool
    ensures { result ≡ Judging.is_drift_mode mode }
{
    mode == CorrectionMode::DATA_DRIFT
}
