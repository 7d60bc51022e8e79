// expected_point, trigger and apply_basic_corrector of trcf/predictorcorrector.rs on lent slices, and the newest row of a point.
// Each takes every input: where slices or sizes do not fit, a buffer stays as it was, and the trigger says true. NaN and infinities are taken as they come.
#![tactic(auto)]

ghost use Rattle.std.specs.Prelude.{◌≡◌, ◌+◌, ◌-◌, ◌*◌, ◌<◌, ◌≤◌, true, [], length, take, drop};
ghost use Rattle.ieee.specs.F32.{zero32};
ghost use Rattle.attributors.specs.Attributors.{padded};
ghost use Rattle.corrector.specs.Corrector as Corrector;
ghost use Rattle.corrector.specs.Steps as Steps;

use attributors::Missing;
use types::Refusal;

// Whether the expected point's slices, of these lengths, and its row fit.
#[tactic(auto, unfolding(crate::specs::Corrector::expected_fits))]
fn expected_fits(
    high: usize,
    low: usize,
    position: usize,
    base: usize,
    point: usize,
    median: usize,
    out: usize,
) -> bool
    ensures { result ≡ Corrector.expected_fits high low position base point median out }
{
    attributors::row_fits(high, low, position, base)
        & ((point == high) & ((median == high) & (out == high)))
}

// One slice over another. The library's `copy_from_slice` calls memmove, and an archive for C is to need memcpy and memset alone.
fn copy(out: &mut [f32], source: &[f32])
    requires { length out.old ≡ length source.now }
    ensures { out.new ≡ source.now }
{
    for k in 0..source.len() {
        out[k] = source[k];
    }
}

// No row: zeros.
#[tactic(auto, unfolding(attributors::specs::Attributors::padded))]
fn no_row() -> [f32; 16]
    ensures { result ≡ padded zero32 16 [] }
{
    [0.0f32; 16]
}

// The row of the point from `start` on, zeros behind it.
fn copy_row(point: &[f32], start: usize, base: usize) -> [f32; 16]
    requires base_in_bounds { start + base ≤ length point.now }
    requires base_bound { base ≤ 16 }
    ensures { result ≡ padded zero32 16 (take base (drop start point.now)) }
{
    let mut row = no_row();
    copy(&mut row[..base], &point[start..start + base]);
    row
}

// The same of any point and row: no row unless 1 to 16 coordinates from `start` on lie in the point.
#[tactic(auto, using(attributors::proofs::Laws::row_of), unfolding(crate::specs::Corrector::row_at))]
pub fn row_at(point: &[f32], start: usize, base: usize) -> [f32; 16]
    ensures { result ≡ Corrector.row_at point.now start base }
{
    let d = point.len();
    if attributors::row_fits(d, d, start, base) {
        return copy_row(point, start, base);
    }
    no_row()
}

// The row that starts at `start`, with the prediction at each of the missing indices.
#[tactic(auto, unfolding(crate::specs::Steps::predicted_row))]
fn predict(row: [f32; 16], start: usize, missing: Missing, prediction: &[f32]) -> [f32; 16]
    requires { Steps.Missed missing start (length prediction.now) }
    ensures { result ≡ Steps.predicted_row start (take missing.count missing.indices) prediction.now row }
{
    let indices = missing.indices;
    let mut out = row;
    for at in &indices[..missing.count] {
        out[*at - start] = prediction[*at];
    }
    out
}

// The row of the expected point from `start` on, zeros behind it: what is expected there where few of its coordinates account for the score. Zeros where
// something does not fit.
#[tactic(auto, using(crate::proofs::Laws::expecting), unfolding(crate::specs::Corrector::expected_row))]
pub fn expected_row(
    high: &[f64],
    low: &[f64],
    start: usize,
    base_dimension: usize,
    point: &[f32],
    median: &[f32],
) -> [f32; 16]
    ensures { result ≡ Corrector.expected_row high.now low.now start base_dimension point.now median.now }
{
    let d = point.len();
    if expected_fits(
        high.len(),
        low.len(),
        start,
        base_dimension,
        d,
        median.len(),
        d,
    ) {
        let missing = attributors::asked_indices(high, low, start, base_dimension);
        let row = copy_row(point, start, base_dimension);
        return predict(row, start, missing, median);
    }
    no_row()
}

// Writes the point with a row of it, from `start` on, replaced by the first `base` coordinates of another. Leaves `out` alone unless it is as long as the
// point, and 1 to 16 coordinates from `start` on lie in it.
#[tactic(auto, using(attributors::proofs::Laws::row_of), unfolding(crate::specs::Corrector::write_row))]
pub fn write_row(point: &[f32], start: usize, base: usize, row: [f32; 16], out: &mut [f32])
    ensures { out.new ≡ Corrector.write_row point.now start base row out.old }
{
    if attributors::row_fits(point.len(), out.len(), start, base) {
        copy(out, point);
        copy(&mut out[start..start + base], &row[..base]);
        return;
    }
}

// Writes the point that was expected: where few coordinates of the row at position account for the score, the conditional median there.
// Leaves `out` alone where something does not fit.
pub fn write_expected_point(
    high: &[f64],
    low: &[f64],
    position: usize,
    base_dimension: usize,
    point: &[f32],
    median: &[f32],
    out: &mut [f32],
)
    ensures { out.new ≡ Corrector.write_expected_point
        high.now low.now position base_dimension
        point.now median.now out.old }
{
    if expected_fits(
        high.len(),
        low.len(),
        position,
        base_dimension,
        point.len(),
        median.len(),
        out.len(),
    ) {
        let row = expected_row(high, low, position, base_dimension, point, median);
        write_row(point, position, base_dimension, row, out);
        return;
    }
}

// Whether the trigger's slices, of these lengths, fit.
#[tactic(auto, unfolding(crate::specs::Corrector::trigger_fits))]
fn trigger_fits(high: usize, low: usize, base: usize, ideal_high: usize, ideal_low: usize) -> bool
    ensures { result ≡ Corrector.trigger_fits high low base ideal_high ideal_low }
{
    (low == high)
        & ((ideal_high == high)
            & ((ideal_low == high) & ((high <= 65536) & ((0 < base) & (base <= 65536)))))
}

// sum + |a - b|, the difference narrowed first.
#[tactic(auto, unfolding(crate::specs::Corrector::plus_difference))]
fn plus_difference(sum: f32, a: f64, b: f64) -> f32
    ensures { result ≡ Corrector.plus_difference sum a b }
{
    sum + util::absf32(ieee::narrow(a - b))
}

// How far two attributions are apart in the n coordinates from `start` on.
#[tactic(auto, unfolding(crate::specs::Corrector::differential_remainder, crate::specs::Corrector::for_up_to))]
fn differential_remainder(
    high: &[f64],
    low: &[f64],
    ideal_high: &[f64],
    ideal_low: &[f64],
    start: usize,
    n: usize,
) -> f32
    requires high_in_bounds { start + n ≤ length high.now }
    requires low_in_bounds { start + n ≤ length low.now }
    requires ideal_high_in_bounds { start + n ≤ length ideal_high.now }
    requires ideal_low_in_bounds { start + n ≤ length ideal_low.now }
    ensures { result ≡ Corrector.differential_remainder
        high.now low.now ideal_high.now ideal_low.now start n }
{
    let mut sum = 0.0f32;
    for at in start..start + n {
        let low_added = plus_difference(sum, low[at], ideal_low[at]);
        sum = plus_difference(low_added, high[at], ideal_high[at]);
    }
    sum
}

// Whether the remainder is large beside the last score, and scaled to all dimensions beside the threshold.
#[tactic(auto, unfolding(crate::specs::Corrector::exceeds))]
fn exceeds(
    remainder: f32,
    dimensions: u32,
    difference: u32,
    last_score: f32,
    threshold: f32,
) -> bool
    ensures { result ≡ Corrector.exceeds remainder dimensions difference last_score threshold }
{
    if remainder > 0.3f32 * last_score {
        return remainder * std::num::nearest_u32_to_f32(dimensions)
            / std::num::nearest_u32_to_f32(difference)
            > threshold;
    }
    false
}

// The trigger behind a last anomaly with its attribution, for slices that fit.
#[tactic(auto, using(crate::proofs::Laws::triggering), unfolding(crate::specs::Corrector::trigger))]
fn compare(
    high: &[f64],
    low: &[f64],
    gap: usize,
    base_dimension: usize,
    ideal_high: &[f64],
    ideal_low: &[f64],
    last_score: f32,
    threshold: f32,
) -> bool
    requires { Corrector.trigger_fits
        (length high.now) (length low.now) base_dimension (length ideal_high.now) (length ideal_low.now) ≡ true }
    ensures { result ≡ Corrector.trigger
        high.now low.now gap base_dimension
        ideal_high.now ideal_low.now true true last_score threshold }
{
    let dimensions = high.len();
    if gap < dimensions {
        let difference = gap * base_dimension;
        if difference < dimensions {
            let remainder = differential_remainder(
                high,
                low,
                ideal_high,
                ideal_low,
                dimensions - difference,
                difference,
            );
            return exceeds(
                remainder,
                dimensions as u32,
                difference as u32,
                last_score,
                threshold,
            );
        }
        return true;
    }
    true
}

// Whether a reading so soon after an anomaly differs enough from what was expected to be one of its own.
#[tactic(auto, unfolding(crate::specs::Corrector::trigger))]
pub fn trigger(
    high: &[f64],
    low: &[f64],
    gap: usize,
    base_dimension: usize,
    ideal_high: &[f64],
    ideal_low: &[f64],
    has_anomaly: bool,
    has_attribution: bool,
    last_score: f32,
    threshold: f32,
) -> bool
    ensures { result ≡ Corrector.trigger
        high.now low.now gap base_dimension ideal_high.now ideal_low.now
        has_anomaly has_attribution last_score threshold }
{
    if has_anomaly {
        if has_attribution {
            let h = high.len();
            let i = ideal_high.len();
            let j = ideal_low.len();
            if trigger_fits(h, low.len(), base_dimension, i, j) {
                return compare(
                    high,
                    low,
                    gap,
                    base_dimension,
                    ideal_high,
                    ideal_low,
                    last_score,
                    threshold,
                );
            }
            return true;
        }
        return true;
    }
    true
}

// Whether the sizes are in range, and a point so long is as long as they say.
#[tactic(auto, unfolding(crate::specs::Corrector::point_fits))]
fn point_fits(shingle_size: usize, base_dimension: usize, len: usize) -> bool
    ensures { result ≡ Corrector.point_fits shingle_size base_dimension len }
{
    descriptor::sizes_ok(shingle_size, base_dimension)
        & (len == descriptor::dimension(shingle_size, base_dimension))
}

// Whether the corrector's slices, of these lengths, fit.
#[tactic(auto, unfolding(crate::specs::Corrector::corrector_fits))]
fn corrector_fits(
    point: usize,
    gap: usize,
    shingle_size: usize,
    base_dimension: usize,
    has_anomaly: bool,
    expected: usize,
    anomalous: usize,
    out: usize,
) -> bool
    ensures { result ≡ Corrector.corrector_fits point gap shingle_size base_dimension has_anomaly expected anomalous out }
{
    point_fits(shingle_size, base_dimension, point)
        & ((0 < gap)
            & ((out == point)
                & descriptor::last_points_ok(has_anomaly, point, expected, anomalous)))
}

// corrected[i] += anomalous[j] - expected[j] for the n coordinates from `at` and from `from` on.
#[tactic(auto, unfolding(crate::specs::Corrector::amended_row, crate::specs::Corrector::for_up_to))]
fn amend_row(
    corrected: &mut [f32],
    at: usize,
    anomalous: &[f32],
    expected: &[f32],
    from: usize,
    n: usize,
)
    requires corrected_in_bounds { at + n ≤ length corrected.old }
    requires anomalous_in_bounds { from + n ≤ length anomalous.now }
    requires expected_in_bounds { from + n ≤ length expected.now }
    ensures { corrected.new ≡ Corrector.amended_row corrected.old at anomalous.now expected.now from n }
{
    for y in 0..n {
        let i = at + y;
        let j = from + y;
        corrected[i] = corrected[i] + (anomalous[j] - expected[j]);
    }
}

// The last expected point from `shift` on, then the rest of the point.
fn shift_in(point: &[f32], expected: &[f32], shift: usize, out: &mut [f32])
    requires shift_in_bounds { shift ≤ length point.now }
    requires expected_len { length expected.now ≡ length point.now }
    requires out_len { length out.old ≡ length point.now }
    ensures { out.new ≡ Corrector.shifted point.now expected.now shift }
{
    let kept = point.len() - shift;
    copy(&mut out[..kept], &expected[shift..]);
    copy(&mut out[kept..], &point[kept..]);
}

// Behind a last anomaly in the newest row: what was differenced against it.
#[tactic(auto, unfolding(crate::specs::Corrector::amended))]
fn amend(
    corrected: &mut [f32],
    expected: &[f32],
    anomalous: &[f32],
    gap: usize,
    base: usize,
    use_difference: bool,
    time_augmented: bool,
)
    requires gap_nonzero { 0 < gap }
    requires base_nonzero { 0 < base }
    requires base_value { (gap - 1) * base + base ≡ gap * base }
    requires base_in_bounds { gap * base ≤ length corrected.old }
    requires expected_len { length expected.now ≡ length corrected.old }
    requires anomalous_len { length anomalous.now ≡ length corrected.old }
    ensures { corrected.new ≡ Corrector.amended
        corrected.old expected.now anomalous.now gap base use_difference time_augmented }
{
    let d = corrected.len();
    if use_difference {
        amend_row(
            corrected,
            d - gap * base,
            anomalous,
            expected,
            d - base,
            base,
        );
        return;
    }
    if time_augmented {
        let i = d - (gap - 1) * base - 1;
        corrected[i] = corrected[i] + (anomalous[d - 1] - expected[d - 1]);
        return;
    }
}

// The corrected point, for slices that fit.
#[tactic(auto, unfolding(crate::specs::Corrector::apply_basic_corrector))]
fn correct(
    point: &[f32],
    gap: usize,
    shingle_size: usize,
    base_dimension: usize,
    has_anomaly: bool,
    expected: &[f32],
    anomalous: &[f32],
    relative_index: i32,
    use_difference: bool,
    time_augmented: bool,
    out: &mut [f32],
)
    requires { Steps.Correcting
        (length point.now) gap shingle_size base_dimension has_anomaly
        (length expected.now) (length anomalous.now) (length out.old) }
    ensures { out.new ≡ Corrector.apply_basic_corrector
        point.now gap shingle_size base_dimension has_anomaly
        expected.now anomalous.now relative_index use_difference time_augmented }
{
    if has_anomaly {
        if gap <= shingle_size {
            shift_in(point, expected, gap * base_dimension, out);
            if relative_index == 0 {
                amend(
                    out,
                    expected,
                    anomalous,
                    gap,
                    base_dimension,
                    use_difference,
                    time_augmented,
                );
                return;
            }
            return;
        }
        copy(out, point);
        return;
    }
    copy(out, point);
}

// Writes the point as it would be had the last anomaly not been: its rows as they were expected, and what was differenced against it put right.
// Leaves `out` alone where something does not fit or the gap is 0.
#[tactic(auto, using(crate::proofs::Laws::correcting))]
pub fn write_corrected_point(
    point: &[f32],
    gap: usize,
    shingle_size: usize,
    base_dimension: usize,
    has_anomaly: bool,
    last_expected: &[f32],
    last_anomalous: &[f32],
    relative_index: i32,
    use_difference: bool,
    time_augmented: bool,
    out: &mut [f32],
)
    ensures { out.new ≡ Corrector.write_corrected_point
        point.now gap shingle_size base_dimension has_anomaly
        last_expected.now last_anomalous.now
        relative_index use_difference time_augmented out.old }
{
    let d = point.len();
    let e = last_expected.len();
    let a = last_anomalous.len();
    let o = out.len();
    if corrector_fits(d, gap, shingle_size, base_dimension, has_anomaly, e, a, o) {
        correct(
            point,
            gap,
            shingle_size,
            base_dimension,
            has_anomaly,
            last_expected,
            last_anomalous,
            relative_index,
            use_difference,
            time_augmented,
            out,
        );
        return;
    }
}

// How `newest_row` answers a point so long: refusal 2, then 3.
#[tactic(auto, unfolding(crate::specs::Corrector::newest_row_answer))]
pub fn newest_row_answer(
    shingle_size: usize,
    base_dimension: usize,
    len: usize,
) -> Result<(), Refusal>
    ensures { result ≡ Corrector.newest_row_answer shingle_size base_dimension len }
{
    if descriptor::sizes_ok(shingle_size, base_dimension) {
        if len == descriptor::dimension(shingle_size, base_dimension) {
            return Ok(());
        }
        return Err(Refusal::Length);
    }
    Err(Refusal::Range)
}

// The newest row, a part of the caller's own point, as document 01 names the form; empty where `newest_row_answer` refuses, which an accepted row never is.
pub fn newest_row(point: &[f32], shingle_size: usize, base_dimension: usize) -> &[f32]
    ensures { result.now ≡ Corrector.newest_row point.now shingle_size base_dimension }
{
    if point_fits(shingle_size, base_dimension, point.len()) {
        let at = point.len() - base_dimension;
        return &point[at..];
    }
    let end = point.len();
    &point[end..]
}
