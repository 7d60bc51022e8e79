// predictorcorrector.rs: the state, its construction and setters, and what a reading does to it.
#![tactic(auto)]

ghost use Rattle.std.specs.Prelude.{◌≡◌, ◌≤◌, false, length};
ghost use Rattle.deviation.specs.Const.{zero64};
ghost use Rattle.deviation.specs.Statistics as Statistics;
ghost use Rattle.basicthresholder.specs.Updates as Updates;
ghost use Rattle.predictorcorrector.specs.Lists as Lists;
ghost use Rattle.predictorcorrector.specs.State as State;

use basicthresholder::BasicThresholder;
use deviation::Deviation;
use types::{Refusal, ScoringStrategy, Updated};

// The lists have room for 16 in memory of a fixed size; the first `base_dimension` entries exist with auto adjust, and none without it.
#[derive(Clone, Copy)]
pub struct PredictorCorrector {
    pub basic_thresholder: BasicThresholder,
    pub auto_adjust: bool,
    pub run_length: u32,
    pub base_dimension: u32,
    pub deviations_actual: [Deviation; 16],
    pub deviations_expected: [Deviation; 16],
}

// How a state stands: all that judging looks at. Of the two lists the last entries alone decide; `counts_ok` is refusal 6's test, which the state's owner makes.
#[derive(Clone, Copy)]
pub struct Standing {
    pub basic_thresholder: BasicThresholder,
    pub auto_adjust: bool,
    pub run_length: u32,
    pub base_dimension: usize,
    pub counts_ok: bool,
    pub last_actual: Deviation,
    pub last_expected: Deviation,
}

// The longest run that refusal 6 lets pass.
const RUN_LIMIT: u32 = 16777215;

fn count_row(mut list: [Deviation; 16], row: &[f32], n: usize) -> [Deviation; 16]
    requires few { n ≤ 16 }
    requires wide { n ≤ length row.now }
    ensures { result ≡ Lists.stepped Statistics.counted n list row.now }
{
    for i in 0..n {
        let d = list[i];
        list[i] = d.counted(std::num::f32_to_f64_with_nan(row[i]));
    }
    list
}

fn reset_row(mut list: [Deviation; 16], n: usize) -> [Deviation; 16]
    requires { n ≤ 16 }
    ensures { result ≡ Lists.changed Statistics.reset n list }
{
    for d in list[..n].iter_mut() {
        *d = d.reset();
    }
    list
}

// The counts of the first n statistics take an update.
fn first_countable(list: [Deviation; 16], n: usize) -> bool
    requires { n ≤ 16 }
    ensures { result ≡ Lists.first_countable n list }
{
    list[..n].iter().all(|d| deviation::countable(d.count))
}

// The first n statistics can count a row.
#[tactic(auto, unfolding(crate::specs::Lists::row_fits))]
fn row_fits(list: [Deviation; 16], row: &[f32], n: usize) -> bool
    ensures { result ≡ Lists.row_fits n list row.now }
{
    if (n <= 16) & (n <= row.len()) {
        return first_countable(list, n);
    }
    false
}

#[tactic(auto, unfolding(crate::specs::Lists::list_countable))]
fn list_countable(list: [Deviation; 16], n: usize) -> bool
    ensures { result ≡ Lists.list_countable n list }
{
    first_countable(list, n.min(16))
}

// How many entries of the lists exist.
fn existing(auto_adjust: bool, base_dimension: u32) -> usize
    ensures { result ≡ State.existing auto_adjust base_dimension }
{
    if auto_adjust {
        return base_dimension as usize;
    }
    0
}

fn fresh_row(discount: f64, n: usize) -> [Deviation; 16]
    requires { n ≤ 16 }
    ensures { result ≡ State.fresh_list discount n }
{
    let mut out = [Deviation::default(); 16];
    out[..n].fill(Deviation::create(discount, 0.0, 0.0, 0.0, 0));
    out
}

// One more; a run that refusal 6 is of stays.
#[tactic(auto, unfolding(crate::specs::State::longer_run))]
pub fn longer_run(n: u32) -> u32
    ensures { result ≡ State.longer_run n }
{
    if n <= RUN_LIMIT {
        return n + 1;
    }
    n
}

// The score where it is a height, else 0.
#[tactic(auto, unfolding(crate::specs::State::height_score))]
pub fn height_score(strategy: ScoringStrategy, score: f32) -> f32
    ensures { result ≡ State.height_score strategy score }
{
    if strategy.is_height() {
        return score;
    }
    0.0
}

// Every accepted reading with a score enters the statistics once. A step of the judge, on the thresholder alone: it is left alone, whole, where refusal 6 applies.
#[tactic(auto, unfolding(crate::specs::State::update_score))]
pub fn update_score(
    t: BasicThresholder,
    strategy: ScoringStrategy,
    score: f32,
    corrected_score: f32,
    last_strategy: ScoringStrategy,
    last_score: f32,
) -> BasicThresholder
    ensures { result ≡ State.update_score t strategy score corrected_score last_strategy last_score }
{
    if strategy.is_height() {
        let height = t.update(
            score,
            corrected_score,
            height_score(last_strategy, last_score),
        );
        return height.state;
    }
    let distance = t.update_primary(std::num::f32_to_f64_with_nan(score));
    distance.state
}

// What `set_horizon` answers of any state.
fn horizon_answer(horizon: f32) -> Result<(), Refusal>
    ensures { result ≡ (Updates.set_score_differencing (Updates.fresh_thresholder zero64 false) horizon).answer }
{
    let u = BasicThresholder::default().set_score_differencing(horizon);
    u.answer
}

impl PredictorCorrector {
    // The new state, by the thresholder that `BasicThresholder::new` built.
    #[tactic(auto, unfolding(crate::specs::State::fresh_state))]
    fn fresh(
        t: BasicThresholder,
        discount: f64,
        auto_adjust: bool,
        base_dimension: u32,
    ) -> PredictorCorrector
        requires fresh { t ≡ Updates.fresh_thresholder discount false }
        requires few { base_dimension ≤ 16 }
        ensures { result ≡ State.fresh_state discount auto_adjust base_dimension }
    {
        let n = existing(auto_adjust, base_dimension);
        let row = fresh_row(discount, n);
        PredictorCorrector {
            basic_thresholder: t,
            auto_adjust,
            run_length: 0,
            base_dimension,
            deviations_actual: row,
            deviations_expected: row,
        }
    }

    // Refusal 1 of the discount, then 2 of the base.
    pub fn new(
        discount: f64,
        auto_adjust: bool,
        base_dimension: usize,
    ) -> Result<PredictorCorrector, Refusal>
        ensures { result ≡ State.new discount auto_adjust base_dimension }
    {
        let t = BasicThresholder::new(discount)?;
        if (1 <= base_dimension) & (base_dimension <= 16) {
            return Ok(PredictorCorrector::fresh(t, discount, auto_adjust, base_dimension as u32));
        }
        Err(Refusal::Range)
    }

    // The setters by value; `set_z_factor` and its like below change a lent state.
    pub fn with_z_factor(self, factor: f32) -> PredictorCorrector
        ensures { result ≡ State.z_factor_set self factor }
    {
        let t = self.basic_thresholder.set_z_factor(factor);
        self.with_thresholder(t)
    }

    pub fn with_lower_threshold(self, lower: f32) -> PredictorCorrector
        ensures { result ≡ State.lower_threshold_set self lower }
    {
        let t = self.basic_thresholder.set_absolute_threshold(lower);
        self.with_thresholder(t)
    }

    pub fn with_initial_threshold(self, initial: f32) -> PredictorCorrector
        ensures { result ≡ State.initial_threshold_set self initial }
    {
        let t = self.basic_thresholder.set_initial_threshold(initial);
        self.with_thresholder(t)
    }

    // Refusal 7 hands the state back as it came.
    #[tactic(auto, unfolding(crate::specs::State::set_horizon))]
    pub fn with_horizon(self, horizon: f32) -> Updated<PredictorCorrector>
        ensures { result ≡ State.set_horizon self horizon }
    {
        let u = self.basic_thresholder.set_score_differencing(horizon);
        let answer = u.answer;
        Updated {
            answer,
            state: self.with_thresholder(u.state),
        }
    }

    fn horizon_set(self, horizon: f32) -> PredictorCorrector
        ensures { result ≡ (State.set_horizon self horizon).state }
    {
        let u = self.with_horizon(horizon);
        u.state
    }

    pub fn set_z_factor(&mut self, factor: f32)
        ensures { self.new ≡ State.z_factor_set self.old factor }
    {
        *self = (*self).with_z_factor(factor);
    }

    pub fn set_lower_threshold(&mut self, lower: f32)
        ensures { self.new ≡ State.lower_threshold_set self.old lower }
    {
        *self = (*self).with_lower_threshold(lower);
    }

    pub fn set_initial_threshold(&mut self, initial: f32)
        ensures { self.new ≡ State.initial_threshold_set self.old initial }
    {
        *self = (*self).with_initial_threshold(initial);
    }

    // Refusal 7 leaves the state as it was.
    pub fn set_horizon(&mut self, horizon: f32) -> Result<(), Refusal>
        ensures { State.updated result self.new ≡ State.set_horizon self.old horizon }
    {
        *self = (*self).horizon_set(horizon);
        horizon_answer(horizon)
    }

    pub fn with_thresholder(self, t: BasicThresholder) -> PredictorCorrector
        ensures { result ≡ State.with_thresholder self t }
    {
        let mut out = self;
        out.basic_thresholder = t;
        out
    }

    // Refusal 6's test.
    #[tactic(auto, unfolding(crate::specs::State::state_counts_ok))]
    pub fn counts_ok(self) -> bool
        ensures { result ≡ State.state_counts_ok self }
    {
        let n = existing(self.auto_adjust, self.base_dimension);
        let actual = self.deviations_actual;
        let expected = self.deviations_expected;
        (self.run_length <= RUN_LIMIT)
            & (self.basic_thresholder.counts_ok()
                & (list_countable(actual, n) & list_countable(expected, n)))
    }

    // The steps of the judge, which refuses first. What they cannot change whole they leave alone, whole.
    // Opening grade 0: with auto adjust the run ends, and both lists are reset. A base over 16 leaves the state alone.
    #[tactic(auto, unfolding(crate::specs::State::run_ended))]
    pub fn run_ended(self) -> PredictorCorrector
        ensures { result ≡ State.run_ended self }
    {
        let n = self.base_dimension as usize;
        if self.auto_adjust & (n <= 16) {
            let actual = self.deviations_actual;
            let expected = self.deviations_expected;
            let reset_actual = reset_row(actual, n);
            let reset_expected = reset_row(expected, n);
            let mut out = self;
            out.run_length = 0;
            out.deviations_actual = reset_actual;
            out.deviations_expected = reset_expected;
            return out;
        }
        self
    }

    // What `update_auto_adjust` leaves: within a run the oldest row is counted, and the run is one longer. A row that does not fit, and a run or an entry that
    // refusal 6 is of, leave the state alone; `calls::update_auto_adjust` refuses.
    #[tactic(auto, using(crate::proofs::Rows::fits_within), unfolding(crate::specs::State::auto_adjusted))]
    pub fn auto_adjusted(self, point: &[f32]) -> PredictorCorrector
        ensures { result ≡ State.auto_adjusted self point.now }
    {
        let n = self.base_dimension as usize;
        let run = self.run_length;
        let actual = self.deviations_actual;
        if self.auto_adjust & ((0 < run) & ((run <= RUN_LIMIT) & row_fits(actual, point, n))) {
            let longer = longer_run(run);
            let counted = count_row(actual, point, n);
            let mut out = self;
            out.run_length = longer;
            out.deviations_actual = counted;
            return out;
        }
        self
    }

    // The candidate branch: the newest rows of the point and of the expected point are counted, both or neither. A row that does not fit, and an entry that
    // refusal 6 is of, leave the state alone.
    #[tactic(auto, using(crate::proofs::Rows::fits_within), unfolding(crate::specs::State::candidate_counted))]
    pub fn candidate_counted(self, newest: &[f32], expected: &[f32]) -> PredictorCorrector
        ensures { result ≡ State.candidate_counted self newest.now expected.now }
    {
        let n = self.base_dimension as usize;
        let actuals = self.deviations_actual;
        let expecteds = self.deviations_expected;
        if self.auto_adjust & (row_fits(actuals, newest, n) & row_fits(expecteds, expected, n)) {
            let counted_actual = count_row(actuals, newest, n);
            let counted_expected = count_row(expecteds, expected, n);
            let mut out = self;
            out.deviations_actual = counted_actual;
            out.deviations_expected = counted_expected;
            return out;
        }
        self
    }

    // A raised reading is one more of the run; a run that refusal 6 is of stays.
    #[tactic(auto, unfolding(crate::specs::State::run_grown))]
    pub fn run_grown(self) -> PredictorCorrector
        ensures { result ≡ State.run_grown self }
    {
        let run = longer_run(self.run_length);
        let mut out = self;
        out.run_length = run;
        out
    }
}
