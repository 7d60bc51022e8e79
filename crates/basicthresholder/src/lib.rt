// basicthresholder.rs: turns the statistics of past scores into a threshold, and a score into a grade. `&mut self` becomes the
// state in and the state out; each statistic's root is computed at most once in a call.
#![tactic(auto)]

ghost use Rattle.std.specs.Prelude.{◌≡◌, false};
ghost use Rattle.std.specs.Float.{binary32};
ghost use Rattle.std.specs.Float.Ieee as Ieee;
ghost use Rattle.ieee.specs.Round as Round;
ghost use Rattle.deviation.specs.Const.{zero64};
ghost use Rattle.deviation.specs.Statistics.{mean, deviation, measured_mean, measured_deviation};
ghost use Rattle.grading.specs.Grading.{surprise_index};
ghost use Rattle.basicthresholder.specs.Grades as Grades;
ghost use Rattle.basicthresholder.specs.Updates as Updates;

use deviation::Deviation;
use ieee::narrow;
use types::{Refusal, TransformMethod, Updated};
use util::minf32;

const DEFAULT_ELASTICITY: f32 = 0.01;

const DEFAULT_SCORE_DIFFERENCING: f32 = 0.5;

const DEFAULT_ABSOLUTE_THRESHOLD: f32 = 0.8;

const DEFAULT_ABSOLUTE_SCORE_FRACTION: f32 = 0.5;

const DEFAULT_LOWER_THRESHOLD: f32 = 1.0;

const DEFAULT_INITIAL_THRESHOLD: f32 = 1.5;

// Document 02's (A5); the Rust's is 3.
const DEFAULT_Z_FACTOR: f32 = 2.5;

const DEFAULT_FACTOR_ADJUSTMENT_THRESHOLD: f32 = 0.9;

const ROOT_OF_TWO: f64 = 1.4142135623730951;

#[derive(Clone, Copy)]
pub struct BasicThresholder {
    pub elasticity: f32,
    pub count: i32,
    pub score_differencing: f32,
    pub last_score: f32,
    pub primary_deviation: Deviation,
    pub secondary_deviation: Deviation,
    pub threshold_deviation: Deviation,
    pub auto_threshold: bool,
    pub absolute_threshold: f32,
    pub absolute_score_fraction: f32,
    pub lower_threshold: f32,
    pub factor_adjustment_threshold: f32,
    pub initial_threshold: f32,
    pub z_factor: f32,
}

// The Rust's pair (threshold, grade).
#[derive(Clone, Copy)]
pub struct Graded {
    pub threshold: f32,
    pub grade: f32,
}

fn graded_or(score: f32, threshold: f32, grade: f32) -> Graded
    ensures { result ≡ Grades.graded_or score threshold grade }
{
    if grade > 0.0 {
        return Graded { threshold, grade };
    }
    Graded {
        threshold: score,
        grade: 0.0,
    }
}

// Below the threshold, or where that is 0, the surprise is not worked out.
fn grade_against(
    score: f32,
    threshold: f32,
    ready: bool,
    factor: f32,
    scaled_deviation: f32,
    absolute: f32,
) -> Graded
    ensures { result ≡ Grades.grade_against score threshold (surprise_index ready score threshold factor (Ieee.div binary32 scaled_deviation factor) absolute) }
{
    if score < threshold {
        return Graded {
            threshold,
            grade: 0.0,
        };
    }
    if threshold == 0.0 {
        return Graded {
            threshold,
            grade: 0.0,
        };
    }
    let deviation = scaled_deviation / factor;
    let surprise = grading::surprise_index(ready, score, threshold, factor, deviation, absolute);
    graded_or(score, threshold, grading::sixteenths(surprise))
}

// Refusal 7 is of any other horizon.
fn is_horizon(horizon: f32) -> bool
    ensures { result ≡ Updates.is_horizon horizon }
{
    (horizon >= 0.0) & (horizon <= 1.0)
}

fn counted_gap(third: Deviation, gap: f32) -> Deviation
    ensures { result ≡ Updates.counted_gap third gap }
{
    if gap > 0.0 {
        return third.counted(std::num::f32_to_f64_with_nan(gap));
    }
    third
}

// The third statistic after a score: it counts the gap over the primary's mean, where that is above 0. A record that refusal 6 is of stays as it is.
pub fn counted_over(third: Deviation, primary: Deviation, score: f32) -> Deviation
    ensures { result ≡ Updates.counted_over third primary score }
{
    counted_gap(third, score - narrow(primary.mean_or_zero()))
}

// An update's answer by the counts before it: refusal 6 hands the state back as it came.
fn by_counts(before: BasicThresholder, after: BasicThresholder) -> Updated<BasicThresholder>
    ensures { result ≡ Updates.updated before after }
{
    if before.counts_ok() {
        return Updated {
            answer: Ok(()),
            state: after,
        };
    }
    Updated {
        answer: Err(Refusal::Count),
        state: before,
    }
}

impl BasicThresholder {
    pub fn new_adjustible(discount: f64, adjust: bool) -> Result<BasicThresholder, Refusal>
        ensures { result ≡ Updates.new_adjustible discount adjust }
    {
        if (discount >= 0.0) & (discount < 1.0) {
            return Ok(BasicThresholder::fresh(discount, adjust));
        }
        Err(Refusal::Discount)
    }

    pub fn new(discount: f64) -> Result<BasicThresholder, Refusal>
        ensures { result ≡ Updates.new_adjustible discount false }
    {
        BasicThresholder::new_adjustible(discount, false)
    }

    // A new state of discount 0, as `Deviation::default` is a new statistic of it.
    pub fn default() -> BasicThresholder
        ensures { result ≡ Updates.fresh_thresholder zero64 false }
    {
        BasicThresholder::fresh(0.0, false)
    }

    // `new_adjustible` tests the discount.
    fn fresh(discount: f64, adjust: bool) -> BasicThresholder
        ensures { result ≡ Updates.fresh_thresholder discount adjust }
    {
        let statistic = Deviation::create(discount, 0.0, 0.0, 0.0, 0);
        let third = Deviation::create(discount / 2.0, 0.0, 0.0, 0.0, 0);
        BasicThresholder {
            elasticity: DEFAULT_ELASTICITY,
            count: 0,
            score_differencing: DEFAULT_SCORE_DIFFERENCING,
            last_score: 0.0,
            primary_deviation: statistic,
            secondary_deviation: statistic,
            threshold_deviation: third,
            auto_threshold: adjust,
            absolute_threshold: DEFAULT_ABSOLUTE_THRESHOLD,
            absolute_score_fraction: DEFAULT_ABSOLUTE_SCORE_FRACTION,
            lower_threshold: DEFAULT_LOWER_THRESHOLD,
            factor_adjustment_threshold: DEFAULT_FACTOR_ADJUSTMENT_THRESHOLD,
            initial_threshold: DEFAULT_INITIAL_THRESHOLD,
            z_factor: DEFAULT_Z_FACTOR,
        }
    }

    pub fn is_deviation_ready(self) -> bool
        ensures { result ≡ Grades.is_deviation_ready self }
    {
        let primary = self.primary_deviation;
        grading::counts_ready(self.count, self.score_differencing, primary.count)
    }

    // `first` is the primary deviation, which the caller has.
    fn smallest_deviation(self, first: f64) -> f32
        requires { first ≡ deviation self.primary_deviation }
        ensures { result ≡ Grades.smallest_deviation self }
    {
        let t = ROOT_OF_TWO * self.threshold_deviation.deviation_or_zero();
        let second = self.secondary_deviation.deviation_or_zero();
        grading::mixed(
            self.score_differencing,
            grading::smaller(second, grading::smaller(t, first)),
            second,
        )
    }

    // `t` is the primary mean as f32 and `first` the primary deviation, which the caller has.
    fn long_term_deviation(self, t: f32, first: f64, differenced: bool, shingle_size: usize) -> f32
        requires fact_1 { t ≡ Round.narrow (mean self.primary_deviation) }
        requires fact_2 { first ≡ deviation self.primary_deviation }
        ensures { result ≡ Grades.long_term_deviation self differenced shingle_size }
    {
        if (shingle_size == 1) & !differenced {
            return minf32(
                narrow(ROOT_OF_TWO * self.threshold_deviation.mean_or_zero()),
                t,
            );
        }
        self.smallest_deviation(first)
    }

    fn absolute(self, t: f32, fraction: f32) -> f32
        requires { fraction ≡ Grades.intermediate_fraction self.count }
        ensures { result ≡ Grades.absolute_of self t }
    {
        if self.auto_threshold {
            return grading::eased_absolute(
                t,
                fraction,
                self.factor_adjustment_threshold,
                self.absolute_threshold,
            );
        }
        self.absolute_threshold
    }

    pub fn threshold_and_grade(
        self,
        score: f32,
        method: TransformMethod,
        shingle_size: usize,
    ) -> Graded
        ensures { result ≡ Grades.threshold_and_grade self score method shingle_size }
    {
        self.threshold_and_grade_with_factor(score, self.z_factor, method, shingle_size)
    }

    pub fn threshold_and_grade_with_factor(
        self,
        score: f32,
        factor: f32,
        method: TransformMethod,
        shingle_size: usize,
    ) -> Graded
        ensures { result ≡ Grades.threshold_and_grade_with_factor self score factor method shingle_size }
    {
        let ready = self.is_deviation_ready();
        let fraction = grading::intermediate_fraction(self.count);
        let t = narrow(self.primary_deviation.mean_or_zero());
        let first = self.primary_deviation.deviation_or_zero();
        let limit = self.factor_adjustment_threshold;
        let new_factor = grading::adjusted_factor(t, factor, limit, method.is_none());
        let long_term = self.long_term_deviation(t, first, method.is_differenced(), shingle_size);
        let scaled_deviation = (new_factor - 1.0) * long_term + narrow(first);
        let absolute = self.absolute(t, fraction);
        let initial = self.initial_threshold;
        let threshold = grading::threshold_from(
            ready,
            fraction,
            t,
            scaled_deviation,
            initial,
            absolute,
        );
        grade_against(
            score,
            threshold,
            ready,
            new_factor,
            scaled_deviation,
            self.absolute_threshold,
        )
    }

    pub fn threshold(self) -> f32
        ensures { result ≡ Grades.threshold self }
    {
        grading::threshold_by(
            narrow(self.primary_deviation.mean_or_zero()),
            self.z_factor,
            narrow(self.primary_deviation.deviation_or_zero()),
        )
    }

    pub fn primary_grade(self, score: f32) -> f32
        ensures { result ≡ Grades.primary_grade self score }
    {
        let graded = self.primary_threshold_and_grade(score);
        graded.grade
    }

    pub fn primary_threshold_and_grade(self, score: f32) -> Graded
        ensures { result ≡ Grades.primary_threshold_and_grade self score }
    {
        let mean = narrow(self.primary_deviation.mean_or_zero());
        let deviation = narrow(self.primary_deviation.deviation_or_zero());
        let threshold = grading::threshold_by(mean, self.z_factor, deviation);
        if self.is_deviation_ready() {
            return Graded {
                threshold,
                grade: grading::grade_over(score - threshold, deviation),
            };
        }
        Graded {
            threshold,
            grade: 0.0,
        }
    }

    // What `update_threshold`, `update_primary` and `update_both` leave where `counts_ok`.
    fn threshold_counted(self, score: f32) -> BasicThresholder
        ensures { result ≡ Updates.threshold_counted self score }
    {
        let third = counted_over(self.threshold_deviation, self.primary_deviation, score);
        let mut out = self;
        out.threshold_deviation = third;
        out
    }

    fn primary_counted(self, score: f64) -> BasicThresholder
        ensures { result ≡ Updates.primary_counted self score }
    {
        let last_score = narrow(score);
        let primary = self.primary_deviation.counted(score);
        let third = counted_over(self.threshold_deviation, primary, last_score);
        let count = deviation::one_more(self.count);
        let mut out = self;
        out.last_score = last_score;
        out.primary_deviation = primary;
        out.threshold_deviation = third;
        out.count = count;
        out
    }

    fn both_counted(self, primary: f32, secondary: f32) -> BasicThresholder
        ensures { result ≡ Updates.both_counted self primary secondary }
    {
        let first = self
            .primary_deviation
            .counted(std::num::f32_to_f64_with_nan(primary));
        let second = self
            .secondary_deviation
            .counted(std::num::f32_to_f64_with_nan(secondary));
        let third = counted_over(self.threshold_deviation, first, primary);
        let count = deviation::one_more(self.count);
        let mut out = self;
        out.last_score = primary;
        out.primary_deviation = first;
        out.secondary_deviation = second;
        out.threshold_deviation = third;
        out.count = count;
        out
    }

    // Every count of the record takes an update.
    pub fn counts_ok(self) -> bool
        ensures { result ≡ Updates.counts_ok self }
    {
        let primary = self.primary_deviation;
        let secondary = self.secondary_deviation;
        let third = self.threshold_deviation;
        deviation::countable(self.count)
            & (deviation::countable(primary.count)
                & (deviation::countable(secondary.count) & deviation::countable(third.count)))
    }

    pub fn update_threshold(self, score: f32) -> Updated<BasicThresholder>
        ensures { result ≡ Updates.update_threshold self score }
    {
        by_counts(self, self.threshold_counted(score))
    }

    pub fn update_primary(self, score: f64) -> Updated<BasicThresholder>
        ensures { result ≡ Updates.update_primary self score }
    {
        by_counts(self, self.primary_counted(score))
    }

    pub fn update_both(self, primary: f32, secondary: f32) -> Updated<BasicThresholder>
        ensures { result ≡ Updates.update_both self primary secondary }
    {
        by_counts(self, self.both_counted(primary, secondary))
    }

    // The primary is capped at 2.
    pub fn update(self, primary: f32, secondary: f32, last_score: f32) -> Updated<BasicThresholder>
        ensures { result ≡ Updates.update self primary secondary last_score }
    {
        self.update_both(minf32(2.0, primary), secondary - last_score)
    }

    pub fn z_factor(self) -> f32
        ensures { result ≡ self.z_factor }
    {
        self.z_factor
    }

    pub fn set_z_factor(self, factor: f32) -> BasicThresholder
        ensures { result ≡ Updates.with_z_factor self factor }
    {
        let mut out = self;
        out.z_factor = factor;
        out
    }

    pub fn set_lower_threshold(self, lower: f32) -> BasicThresholder
        ensures { result ≡ Updates.with_lower_threshold self lower }
    {
        let mut out = self;
        out.lower_threshold = lower;
        out
    }

    pub fn set_absolute_threshold(self, value: f32) -> BasicThresholder
        ensures { result ≡ Updates.with_absolute_threshold self value }
    {
        let mut out = self;
        out.absolute_threshold = value;
        out
    }

    pub fn set_initial_threshold(self, initial: f32) -> BasicThresholder
        ensures { result ≡ Updates.with_initial_threshold self initial }
    {
        let mut out = self;
        out.initial_threshold = initial;
        out
    }

    // Refusal 7 hands the state back as it came.
    pub fn set_score_differencing(self, horizon: f32) -> Updated<BasicThresholder>
        ensures { result ≡ Updates.set_score_differencing self horizon }
    {
        if is_horizon(horizon) {
            let mut out = self;
            out.score_differencing = horizon;
            return Updated {
                answer: Ok(()),
                state: out,
            };
        }
        Updated {
            answer: Err(Refusal::Horizon),
            state: self,
        }
    }

    pub fn last_score(self) -> f32
        ensures { result ≡ self.last_score }
    {
        self.last_score
    }

    // What a dashboard reads of a drawer, here and in `primary_deviation`.
    pub fn primary_mean(self) -> Option<f64>
        ensures { result ≡ measured_mean self.primary_deviation }
    {
        self.primary_deviation.mean()
    }

    pub fn primary_deviation(self) -> Option<f64>
        ensures { result ≡ measured_deviation self.primary_deviation }
    {
        self.primary_deviation.deviation()
    }
}
