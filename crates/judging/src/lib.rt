// predictorcorrector.rs: `detect_and_modify` for a caller who holds the state by value. `judge` decides, and its verdict changes the state.
#![tactic(auto)]

ghost use Rattle.std.specs.Prelude.{◌≡◌, ◌-◌, length, get_or};
ghost use Rattle.deviation.specs.Const.{zero64};
ghost use Rattle.deviation.specs.Statistics.{fresh};
ghost use Rattle.descriptor.specs.Lent.{lists_of};
ghost use Rattle.predictorcorrector.specs.State as State;
ghost use Rattle.detection.specs.Judged as Judged;
ghost use Rattle.detection.specs.Steps as Steps;

use descriptor::{LastDescriptor, Lent, Reading};
use detection::{Judgment, Verdict};
use deviation::Deviation;
use predictorcorrector::{PredictorCorrector, Standing};
use types::Refusal;

// The candidate branch's rows, counted.
#[tactic(auto, using(detection::proofs::Work::tail_is), unfolding(detection::specs::Decided::rows_counted))]
fn rows_counted(
    s: PredictorCorrector,
    r: Reading,
    l: LastDescriptor,
    threshold: f32,
    point: &[f32],
    newest_expected: [f32; 16],
) -> PredictorCorrector
    requires { Steps.Counting r (length point.now) }
    ensures { result ≡ Steps.rows_counted s r l threshold point.now newest_expected }
{
    let base = r.base_dimension;
    let at = point.len() - base;
    candidate::count_rows(
        s,
        r,
        l,
        r.shingle_size as u32,
        threshold,
        &point[at..],
        &newest_expected[..base],
    )
}

// What a verdict does to the state.
#[tactic(auto, unfolding(detection::specs::Decided::after_rows))]
fn after(
    s: PredictorCorrector,
    r: Reading,
    l: LastDescriptor,
    verdict: Verdict,
    point: &[f32],
    newest_expected: [f32; 16],
) -> PredictorCorrector
    requires { Steps.Counting r (length point.now) }
    ensures { result ≡ Steps.after_rows s r l point.now newest_expected verdict }
{
    match verdict {
        Verdict::Quiet(_) => scoring::after_quiet(s, r, l),
        Verdict::Corrected(threshold, mode) => {
            if detection::is_drift_mode(mode) {
                let counted = rows_counted(s, r, l, threshold, point, newest_expected);
                return scoring::after_branch(counted, r, l);
            }
            scoring::after_corrected(s, r, l, point)
        }
        Verdict::Raised(threshold, _) => {
            let counted = rows_counted(s, r, l, threshold, point, newest_expected);
            scoring::after_branch(counted.run_grown(), r, l)
        }
        Verdict::Skipped => s,
    }
}

// The same for an outcome: a refusal leaves the state as it came.
#[tactic(auto, unfolding(detection::specs::Steps::state_rows))]
fn state_after(
    s: PredictorCorrector,
    r: Reading,
    l: LastDescriptor,
    outcome: Result<Verdict, Refusal>,
    point: &[f32],
    newest_expected: [f32; 16],
) -> PredictorCorrector
    requires { Steps.Fitting r (length point.now) outcome }
    ensures { result ≡ Steps.state_rows s r l point.now newest_expected outcome }
{
    match outcome {
        Ok(verdict) => after(s, r, l, verdict, point, newest_expected),
        Err(_) => s,
    }
}

// The last of the entries that exist; a new one past the end.
fn last_entry(list: [Deviation; 16], base: usize) -> Deviation
    ensures entry { result ≡ get_or list (base - 1) (fresh zero64) }
    ensures list_long { length list ≡ 16 }
{
    let y = candidate::last_place(base);
    if y < 16 {
        return list[y];
    }
    Deviation::create(0.0, 0.0, 0.0, 0.0, 0)
}

#[tactic(auto, unfolding(predictorcorrector::specs::State::standing))]
fn standing_of(s: PredictorCorrector) -> Standing
    ensures standing { result ≡ State.standing s }
    ensures actual_long { length s.deviations_actual ≡ 16 }
    ensures expected_long { length s.deviations_expected ≡ 16 }
{
    let base = s.base_dimension as usize;
    let basic_thresholder = s.basic_thresholder;
    let actual = s.deviations_actual;
    let expected = s.deviations_expected;
    Standing {
        basic_thresholder,
        auto_adjust: s.auto_adjust,
        run_length: s.run_length,
        base_dimension: base,
        counts_ok: s.counts_ok(),
        last_actual: last_entry(actual, base),
        last_expected: last_entry(expected, base),
    }
}

// Judges a reading: `judge`, and what its verdict does to the state.
pub fn detect_and_modify(
    s: PredictorCorrector,
    r: Reading,
    l: LastDescriptor,
    b: Lent,
    expected: &mut [f32],
    out_high: &mut [f64],
    out_low: &mut [f64],
) -> Judgment
    ensures { Judged.Judged s r l (lists_of b.entry) result expected.old out_high.old out_low.old
        expected.new out_high.new out_low.new }
{
    let decision = detection::judge(standing_of(s), r, l, b, expected, out_high, out_low);
    let outcome = decision.outcome;
    let newest_expected = decision.newest_expected;
    Judgment {
        outcome,
        relative_index: decision.relative_index,
        state: state_after(s, r, l, outcome, b.point, newest_expected),
    }
}
