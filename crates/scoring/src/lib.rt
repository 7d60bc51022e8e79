// What a reading's scores and attribution say in `detect_and_modify`, and how its scores enter the state. The steps ask nothing of their caller.
#![tactic(auto)]

ghost use Rattle.std.specs.Prelude.{◌≡◌};
ghost use Rattle.predictorcorrector.specs.State.{run_ended, auto_adjusted};
ghost use Rattle.scoring.specs.Scores as Scores;

use basicthresholder::{BasicThresholder, Graded};
use descriptor::{LastDescriptor, Reading};
use predictorcorrector::PredictorCorrector;
use types::Refusal;

// Readings since the last anomaly; without one, since the start.
#[tactic(auto, unfolding(crate::specs::Scores::gap_of))]
fn gap_of(values_seen: usize, has_anomaly: bool, last_seen: usize) -> usize
    ensures { result ≡ Scores.gap_of values_seen has_anomaly last_seen }
{
    if has_anomaly {
        return values_seen.saturating_sub(last_seen);
    }
    values_seen
}

// The same of a reading.
pub fn gap(r: Reading, l: LastDescriptor) -> usize
    ensures { result ≡ Scores.gap r l }
{
    let anomaly = l.anomaly;
    gap_of(r.values_seen, l.has_anomaly, anomaly.values_seen)
}

// The last anomaly is at most a shingle of readings back: in the shingle, or just out of it.
#[tactic(auto, unfolding(crate::specs::Scores::is_recent))]
pub fn is_recent(has_anomaly: bool, gap: usize, shingle_size: usize) -> bool
    ensures { result ≡ Scores.is_recent has_anomaly gap shingle_size }
{
    if has_anomaly {
        return gap <= shingle_size;
    }
    false
}

// The same of a reading.
fn recent(r: Reading, l: LastDescriptor) -> bool
    ensures { result ≡ Scores.recent r l }
{
    is_recent(l.has_anomaly, gap(r, l), r.shingle_size)
}

// A score of 0 is skipped.
pub fn is_skipped(score: f32) -> bool
    ensures { result ≡ Scores.is_skipped score }
{
    score == 0.0
}

// Threshold and grade of a score, by the reading's strategy. Of the reading's own score: the opening grade.
#[tactic(auto, unfolding(crate::specs::Scores::opening))]
pub fn opening(t: BasicThresholder, r: Reading, score: f32) -> Graded
    ensures { result ≡ Scores.opening t r score }
{
    let strategy = r.scoring_strategy;
    let method = r.transform_method;
    if strategy.is_height() {
        return t.threshold_and_grade(score, method, r.shingle_size);
    }
    t.primary_threshold_and_grade(score)
}

#[tactic(auto, unfolding(crate::specs::Scores::used_score))]
fn used_score(recent: bool, r: Reading) -> f32
    ensures { result ≡ Scores.used_score recent r }
{
    if recent {
        return r.corrected_score;
    }
    r.score
}

// The score that counts as corrected.
#[tactic(auto, unfolding(crate::specs::Scores::corrected_score))]
pub fn corrected_score(r: Reading, l: LastDescriptor) -> f32
    ensures { result ≡ Scores.corrected_score r l }
{
    used_score(recent(r, l), r)
}

// `update_score` of a reading.
#[tactic(auto, unfolding(crate::specs::Scores::update_score))]
pub fn update_score(
    t: BasicThresholder,
    r: Reading,
    l: LastDescriptor,
    corrected: f32,
) -> BasicThresholder
    ensures { result ≡ Scores.update_score t r l corrected }
{
    let strategy = r.scoring_strategy;
    let last_strategy = l.scoring_strategy;
    predictorcorrector::update_score(t, strategy, r.score, corrected, last_strategy, l.score)
}

// The state after a quiet reading: the run ends, and the score enters. Here and below, run and lists that cannot be changed whole stay as they came, and so does a
// thresholder that refusal 6 is of.
pub fn after_quiet(s: PredictorCorrector, r: Reading, l: LastDescriptor) -> PredictorCorrector
    ensures { result ≡ Scores.entered (run_ended s) r l r.score }
{
    let ended = s.run_ended();
    let t = update_score(ended.basic_thresholder, r, l, r.score);
    ended.with_thresholder(t)
}

// After a corrected one, data drift apart: `update_auto_adjust`, and the scores enter.
pub fn after_corrected(
    s: PredictorCorrector,
    r: Reading,
    l: LastDescriptor,
    point: &[f32],
) -> PredictorCorrector
    ensures { result ≡ Scores.entered (auto_adjusted s point.now) r l (Scores.corrected_score r l) }
{
    let adjusted = s.auto_adjusted(point);
    let t = update_score(adjusted.basic_thresholder, r, l, corrected_score(r, l));
    adjusted.with_thresholder(t)
}

// After data drift, and after a raised reading, the run and the lists being as it leaves them: the scores enter.
pub fn after_branch(s: PredictorCorrector, r: Reading, l: LastDescriptor) -> PredictorCorrector
    ensures { result ≡ Scores.entered s r l (Scores.corrected_score r l) }
{
    let t = update_score(s.basic_thresholder, r, l, corrected_score(r, l));
    s.with_thresholder(t)
}

// The corrected point's grade is 0, the last anomaly being recent.
pub fn corrected_quiet(t: BasicThresholder, r: Reading, l: LastDescriptor) -> bool
    ensures { result ≡ Scores.corrected_quiet t r l }
{
    if recent(r, l) {
        let opened = opening(t, r, r.corrected_score);
        return opened.grade == 0.0;
    }
    false
}

fn block_of(block: Result<usize, Refusal>) -> usize
    ensures { result ≡ Scores.block_of block }
{
    match block {
        Ok(k) => k,
        Err(_) => 0,
    }
}

// The block that contributes most; 0 where the search refuses its slices.
pub fn anomaly_block(r: Reading, l: LastDescriptor, high: &[f64], low: &[f64]) -> usize
    ensures { result ≡ Scores.anomaly_block r l high.now low.now }
{
    block_of(divector::max_gap_contribution(high, low, r.base_dimension, gap(r, l)))
}

// With auto adjust: whether enough neighbours have the point within their box.
pub fn auto_explained(
    auto_adjust: bool,
    uncertainty_box: &[f32],
    point: &[f32],
    start: usize,
    scale: &[f32],
    neighbours: &[f32],
) -> bool
    ensures { result ≡ Scores.auto_explained auto_adjust uncertainty_box.now point.now start scale.now neighbours.now }
{
    if auto_adjust {
        return uncertainty_box::explained_by_conditional_field(
            uncertainty_box,
            point,
            start,
            scale,
            neighbours,
            point.len(),
        );
    }
    false
}

// The last anomaly is in the shingle, and the reading does not trigger anew, by slices that may be of any length.
pub fn explained_by_last(
    r: Reading,
    l: LastDescriptor,
    high: &[f64],
    low: &[f64],
    ideal_high: &[f64],
    ideal_low: &[f64],
    threshold: f32,
) -> bool
    ensures { result ≡ Scores.explained_by_last r l high.now low.now ideal_high.now ideal_low.now threshold }
{
    let anomaly = l.anomaly;
    let gap = gap(r, l);
    if gap < r.shingle_size {
        return !corrector::trigger(
            high,
            low,
            gap,
            r.base_dimension,
            ideal_high,
            ideal_low,
            l.has_anomaly,
            anomaly.has_attribution,
            anomaly.score,
            threshold,
        );
    }
    false
}

// The point with its expected row, from `start` on, and the normalised attribution, each written where the lengths fit.
pub fn write_raised(
    r: Reading,
    start: usize,
    point: &[f32],
    row: [f32; 16],
    high: &[f64],
    low: &[f64],
    expected: &mut [f32],
    out_high: &mut [f64],
    out_low: &mut [f64],
)
    ensures { Scores.Written r start point.now row high.now low.now expected.old
        out_high.old out_low.old expected.new out_high.new out_low.new }
{
    corrector::write_row(point, start, r.base_dimension, row, expected);
    // Refused only where the lengths do not fit, which leaves both slices alone.
    let _ = divector::normalize_into(
        high,
        low,
        std::num::f32_to_f64_with_nan(r.score),
        out_high,
        out_low,
    );
}
