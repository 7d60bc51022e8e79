// The candidate branch of `detect_and_modify` and its drift test. The steps ask nothing of their caller.
#![tactic(auto)]

ghost use Rattle.std.specs.Prelude.{◌≡◌, ◌-◌, ◌&&◌, slice_index_or};
ghost use Rattle.std.specs.Float.{nan};
ghost use Rattle.deviation.specs.Statistics.{counted};
ghost use Rattle.candidate.specs.Candidate as Candidate;

use descriptor::{LastDescriptor, Reading};
use deviation::Deviation;
use ieee::narrow;
use predictorcorrector::PredictorCorrector;
use types::ScoringStrategy;
use util::{absf32, maxf32};

fn same_strategy(a: ScoringStrategy, b: ScoringStrategy) -> bool
    ensures { result ≡ Candidate.same_strategy a b }
{
    a == b
}

#[tactic(auto, unfolding(crate::specs::Candidate::run_share))]
fn run_share(run_length: u32, shingle_size: u32) -> f32
    ensures { result ≡ Candidate.run_share run_length shingle_size }
{
    maxf32(
        0.2,
        ieee::u32_to_f32(run_length) / (2.0 * maxf32(10.0, ieee::u32_to_f32(shingle_size))),
    )
}

#[tactic(auto, unfolding(crate::specs::Candidate::still_high))]
fn still_high(score: f32, threshold: f32, last_score: f32, last_threshold: f32, share: f32) -> bool
    ensures { result ≡ Candidate.still_high score threshold last_score last_threshold share }
{
    if score > last_score {
        return true;
    }
    last_score - last_threshold > score - maxf32(threshold, last_threshold) * (1.0 + share)
}

// Whether a reading is one of a run.
#[tactic(auto, unfolding(crate::specs::Candidate::is_candidate))]
pub fn is_candidate(
    r: Reading,
    l: LastDescriptor,
    run_length: u32,
    shingle_size: u32,
    threshold: f32,
) -> bool
    ensures { result ≡ Candidate.is_candidate r l run_length shingle_size threshold }
{
    let strategy = r.scoring_strategy;
    let last_strategy = l.scoring_strategy;
    if same_strategy(strategy, last_strategy) {
        let share = run_share(run_length, shingle_size);
        return still_high(r.score, threshold, l.score, l.threshold, share);
    }
    false
}

// One coordinate of the drift test; each root once.
#[tactic(auto, unfolding(crate::specs::Candidate::near_means))]
fn near_means(
    actual: Deviation,
    expected: Deviation,
    newest: f32,
    newest_expected: f32,
    noise: f32,
) -> bool
    ensures { result ≡ Candidate.near_means actual expected newest newest_expected noise }
{
    let mean = actual.mean_or_zero();
    let spread = narrow(actual.deviation_or_zero());
    let expected_mean = expected.mean_or_zero();
    let expected_spread = narrow(expected.deviation_or_zero());
    (absf32(narrow(mean) - newest) < maxf32(2.0 * spread, 1.0 * noise))
        & (absf32(narrow(expected_mean) - newest_expected)
            < 2.0 * maxf32(expected_spread, spread) + 0.1 * absf32(narrow(mean - expected_mean)))
}

// NaN past the end.
fn value_at(xs: &[f32], i: usize) -> f32
    ensures { result ≡ slice_index_or xs.now i nan }
{
    if i < xs.len() {
        return xs[i];
    }
    0.0 / 0.0
}

// The last place of `base`; 0 of none.
pub fn last_place(base: usize) -> usize
    ensures { result ≡ base - 1 }
{
    base.saturating_sub(1)
}

// The last entry of a list with a row's number counted.
fn last_counted(entry: Deviation, value: f32) -> Deviation
    ensures { result ≡ counted entry value }
{
    entry.counted(std::num::f32_to_f64_with_nan(value))
}

// The drift test of the last coordinate, which alone decides, where it is due: by the last entries of the two lists, as they came.
#[tactic(auto, unfolding(crate::specs::Candidate::near_next))]
fn is_drift_at(
    due: bool,
    base: usize,
    actual: Deviation,
    expected: Deviation,
    newest: &[f32],
    newest_expected: &[f32],
    noise: &[f32],
) -> bool
    ensures { result ≡ (due && Candidate.near_next base actual expected newest.now newest_expected.now noise.now) }
{
    if due {
        let y = last_place(base);
        let value = value_at(newest, y);
        let value_expected = value_at(newest_expected, y);
        return near_means(
            last_counted(actual, value),
            last_counted(expected, value_expected),
            value,
            value_expected,
            value_at(noise, y),
        );
    }
    false
}

// Whether a reading past the other exits is data drift: of the lists, only the last entries are looked at.
#[tactic(auto, unfolding(crate::specs::Candidate::drift_at))]
pub fn is_data_drift(
    r: Reading,
    l: LastDescriptor,
    auto_adjust: bool,
    run_length: u32,
    shingle_size: u32,
    threshold: f32,
    actual: Deviation,
    expected: Deviation,
    newest: &[f32],
    newest_expected: &[f32],
    noise: &[f32],
) -> bool
    ensures { result ≡ Candidate.drift_at (Candidate.is_candidate r l run_length shingle_size threshold) auto_adjust run_length
        r.base_dimension actual expected newest.now newest_expected.now noise.now }
{
    let candidate = is_candidate(r, l, run_length, shingle_size, threshold);
    is_drift_at(
        candidate & auto_adjust & (2 < run_length),
        r.base_dimension,
        actual,
        expected,
        newest,
        newest_expected,
        noise,
    )
}

// The state with the newest rows counted, of a candidate; left alone where one of the rows cannot be.
#[tactic(auto, unfolding(crate::specs::Candidate::candidate_with))]
pub fn count_rows(
    s: PredictorCorrector,
    r: Reading,
    l: LastDescriptor,
    shingle_size: u32,
    threshold: f32,
    newest: &[f32],
    newest_expected: &[f32],
) -> PredictorCorrector
    ensures { result ≡ Candidate.candidate_with (Candidate.is_candidate r l s.run_length shingle_size threshold) s newest.now newest_expected.now }
{
    if is_candidate(r, l, s.run_length, shingle_size, threshold) {
        return s.candidate_counted(newest, newest_expected);
    }
    s
}
