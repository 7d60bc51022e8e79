// The steps of basicthresholder.rs that work on numbers alone: when statistics are ready, the factor, a threshold from its parts, how surprising a score is,
// and its grade. The crate basicthresholder hands them the fields of its state.
#![tactic(auto)]

ghost use Rattle.std.specs.Prelude.{◌≡◌};
ghost use Rattle.grading.specs.Grading as Grading;

use ieee::narrow;
use util::{maxf32, minf32};

const MINIMUM_SCORES: i32 = 10;

const MINIMUM_Z_FACTOR: f32 = 2.0;

#[tactic(auto, unfolding(crate::specs::Grading::counts_ready))]
pub fn counts_ready(count: i32, score_differencing: f32, primary_count: i32) -> bool
    ensures { result ≡ Grading.counts_ready count score_differencing primary_count }
{
    if count < MINIMUM_SCORES {
        return false;
    }
    if score_differencing != 0.0 {
        return MINIMUM_SCORES <= primary_count;
    }
    true
}

#[tactic(auto, unfolding(crate::specs::Grading::intermediate_fraction))]
pub fn intermediate_fraction(count: i32) -> f32
    ensures { result ≡ Grading.intermediate_fraction count }
{
    if count < MINIMUM_SCORES {
        return 0.0;
    }
    if 2 * MINIMUM_SCORES < count {
        return 1.0;
    }
    std::num::nearest_i32_to_f32(count - MINIMUM_SCORES) * 1.0 / 10.0
}

#[tactic(auto, unfolding(crate::specs::Grading::at_least_minimum))]
fn at_least_minimum(corrected_factor: f32) -> f32
    ensures { result ≡ Grading.at_least_minimum corrected_factor }
{
    if corrected_factor < MINIMUM_Z_FACTOR {
        return MINIMUM_Z_FACTOR;
    }
    corrected_factor
}

// `base` is the primary mean, `limit` the factor adjustment threshold.
#[tactic(auto, unfolding(crate::specs::Grading::adjusted_factor))]
pub fn adjusted_factor(base: f32, factor: f32, limit: f32, none: bool) -> f32
    ensures { result ≡ Grading.adjusted_factor base factor limit none }
{
    if (base < limit) & !none {
        return at_least_minimum(base * factor / limit);
    }
    at_least_minimum(factor)
}

#[tactic(auto, unfolding(crate::specs::Grading::smaller))]
pub fn smaller(a: f64, b: f64) -> f64
    ensures { result ≡ Grading.smaller a b }
{
    if a < b { a } else { b }
}

#[tactic(auto, unfolding(crate::specs::Grading::mixed))]
pub fn mixed(score_differencing: f32, first: f64, second: f64) -> f32
    ensures { result ≡ Grading.mixed score_differencing first second }
{
    score_differencing * narrow(first) + (1.0 - score_differencing) * narrow(second)
}

#[tactic(auto, unfolding(crate::specs::Grading::eased_absolute))]
pub fn eased_absolute(t: f32, intermediate_fraction: f32, limit: f32, absolute: f32) -> f32
    ensures { result ≡ Grading.eased_absolute t intermediate_fraction limit absolute }
{
    if (intermediate_fraction >= 1.0) & (t < limit) {
        return t * absolute / limit;
    }
    absolute
}

#[tactic(auto, unfolding(crate::specs::Grading::threshold_from))]
pub fn threshold_from(
    ready: bool,
    intermediate_fraction: f32,
    mean: f32,
    scaled_deviation: f32,
    initial: f32,
    absolute: f32,
) -> f32
    ensures { result ≡ Grading.threshold_from ready intermediate_fraction mean scaled_deviation initial absolute }
{
    if !ready {
        return maxf32(initial, absolute);
    }
    let t = intermediate_fraction * (mean + scaled_deviation)
        + (1.0 - intermediate_fraction) * initial;
    maxf32(t, absolute)
}

#[tactic(auto, unfolding(crate::specs::Grading::surprise_index))]
pub fn surprise_index(
    ready: bool,
    score: f32,
    base: f32,
    factor: f32,
    deviation: f32,
    absolute: f32,
) -> f32
    ensures { result ≡ Grading.surprise_index ready score base factor deviation absolute }
{
    if ready {
        if deviation > 0.0 {
            return maxf32(minf32((score - base) / deviation, factor) / factor, 0.0);
        }
        return maxf32(2.0 * factor / factor, 0.0);
    }
    minf32(1.0, maxf32((score - absolute) / absolute, 0.0))
}

#[tactic(auto, unfolding(crate::specs::Grading::sixteenths))]
pub fn sixteenths(t: f32) -> f32
    ensures { result ≡ Grading.sixteenths t }
{
    minf32(ieee::floor(t * 20.0) / 16.0, 1.0)
}

#[tactic(auto, unfolding(crate::specs::Grading::threshold_by))]
pub fn threshold_by(mean: f32, z_factor: f32, deviation: f32) -> f32
    ensures { result ≡ Grading.threshold_by mean z_factor deviation }
{
    mean + z_factor * deviation
}

#[tactic(auto, unfolding(crate::specs::Grading::grade_over))]
pub fn grade_over(t: f32, deviation: f32) -> f32
    ensures { result ≡ Grading.grade_over t deviation }
{
    if t > 0.0 {
        if deviation > 0.0 {
            return minf32(t / deviation, 1.0);
        }
        return 0.1;
    }
    0.0
}
