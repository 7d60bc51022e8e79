// deviation.rs: discounted statistics of a run of scores. `&mut self` becomes the record in and the record out.
#![tactic(auto)]

ghost use Rattle.std.specs.Prelude.{◌≡◌, T, pos, ◌+ℤ◌};
ghost use Rattle.std.specs.Float.Ieee as Ieee;
ghost use Rattle.std.specs.Float.{binary64};
ghost use Rattle.deviation.specs.Statistics as Statistics;
ghost use Rattle.deviation.specs.Const.{zero64};

use types::{Refusal, Updated};

// Document 01's record of five numbers.
#[derive(Clone, Copy)]
pub struct Deviation {
    pub discount: f64,
    pub weight: f64,
    pub sum_squared: f64,
    pub sum: f64,
    pub count: i32,
}

// The largest count that an update takes.
const COUNT_LIMIT: i32 = 16777215;

// A count that an update takes: 0 to 16,777,215.
pub fn countable(count: i32) -> bool
    ensures { result ≡ Statistics.countable count }
{
    if count < 0 {
        return false;
    }
    count <= COUNT_LIMIT
}

fn plus_one(count: i32) -> i32
    requires { T (Statistics.countable count) }
    ensures { result ≡ count +ℤ pos 1 }
{
    count + 1
}

// One more than a countable number; any other number itself.
pub fn one_more(count: i32) -> i32
    ensures { result ≡ Statistics.one_more count }
{
    if countable(count) {
        return plus_one(count);
    }
    count
}

fn plus_two(count: i32) -> f64
    requires { T (Statistics.countable count) }
    ensures { result ≡ Ieee.of_int binary64 (count +ℤ pos 2) }
{
    (count + 2) as f64
}

// What the sums are multiplied by before a score is added.
fn factor(discount: f64, count: i32) -> f64
    requires { T (Statistics.countable count) }
    ensures { result ≡ Statistics.factor discount count }
{
    if discount == 0.0 {
        return 1.0;
    }
    let a = 1.0 - discount;
    let b = 1.0 - 1.0 / plus_two(count);
    if a < b { a } else { b }
}

fn positive_root(x: f64) -> f64
    ensures { result ≡ Statistics.positive_root x }
{
    if x > 0.0 { ieee::sqrt(x) } else { 0.0 }
}

// What the chain takes of what a statistic says: 0 where there is no number.
pub fn or_zero(measured: Option<f64>) -> f64
    ensures { result ≡ Statistics.or_zero measured }
{
    measured.unwrap_or(0.0)
}

impl Deviation {
    pub fn new(discount: f64) -> Result<Deviation, Refusal>
        ensures { result ≡ Statistics.new discount }
    {
        if (discount >= 0.0) & (discount < 1.0) {
            return Ok(Deviation::create(discount, 0.0, 0.0, 0.0, 0));
        }
        Err(Refusal::Discount)
    }

    pub fn default() -> Deviation
        ensures { result ≡ Statistics.fresh zero64 }
    {
        Deviation::create(0.0, 0.0, 0.0, 0.0, 0)
    }

    pub fn create(discount: f64, weight: f64, sum: f64, sum_squared: f64, count: i32) -> Deviation
        ensures { result ≡ Statistics.create discount weight sum sum_squared count }
    {
        Deviation {
            discount,
            weight,
            sum_squared,
            sum,
            count,
        }
    }

    pub fn reset(self) -> Deviation
        ensures { result ≡ Statistics.reset self }
    {
        Deviation::create(self.discount, 0.0, 0.0, 0.0, 0)
    }

    // An empty statistic, its weight at or below 0, has no mean and no deviation.
    pub fn mean(self) -> Option<f64>
        ensures { result ≡ Statistics.measured_mean self }
    {
        if self.is_empty() {
            return None;
        }
        Some(self.sum / self.weight)
    }

    // The Rust's `mean`, which the chain takes.
    pub fn mean_or_zero(self) -> f64
        ensures { result ≡ Statistics.mean self }
    {
        or_zero(self.mean())
    }

    fn next(self, score: f64) -> Deviation
        requires { T (Statistics.countable self.count) }
        ensures { result ≡ Statistics.next self score }
    {
        let factor = factor(self.discount, self.count);
        Deviation {
            discount: self.discount,
            weight: self.weight * factor + 1.0,
            sum_squared: self.sum_squared * factor + score * score,
            sum: self.sum * factor + score,
            count: plus_one(self.count),
        }
    }

    // Refusal 6 hands the record back as it came.
    pub fn update(self, score: f64) -> Updated<Deviation>
        ensures { result ≡ Statistics.update self score }
    {
        if countable(self.count) {
            return Updated {
                answer: Ok(()),
                state: self.next(score),
            };
        }
        Updated {
            answer: Err(Refusal::Count),
            state: self,
        }
    }

    // A step: the record that `update` hands back, which is this one where refusal 6 applies.
    pub fn counted(self, score: f64) -> Deviation
        ensures { result ≡ Statistics.counted self score }
    {
        let after = self.update(score);
        after.state
    }

    pub fn deviation(self) -> Option<f64>
        ensures { result ≡ Statistics.measured_deviation self }
    {
        let temp = self.mean()?;
        Some(positive_root(self.sum_squared / self.weight - temp * temp))
    }

    // The Rust's `deviation`, which the chain takes.
    pub fn deviation_or_zero(self) -> f64
        ensures { result ≡ Statistics.deviation self }
    {
        or_zero(self.deviation())
    }

    pub fn is_empty(self) -> bool
        ensures { result ≡ Statistics.is_empty self }
    {
        self.weight <= 0.0
    }

    pub fn discount(self) -> f64
        ensures { result ≡ self.discount }
    {
        self.discount
    }

    pub fn set_discount(self, discount: f64) -> Deviation
        ensures { result ≡ Statistics.with_discount self discount }
    {
        let mut out = self;
        out.discount = discount;
        out
    }

    pub fn sum(self) -> f64
        ensures { result ≡ self.sum }
    {
        self.sum
    }

    pub fn sum_squared(self) -> f64
        ensures { result ≡ self.sum_squared }
    {
        self.sum_squared
    }

    pub fn weight(self) -> f64
        ensures { result ≡ self.weight }
    {
        self.weight
    }

    pub fn count(self) -> i32
        ensures { result ≡ self.count }
    {
        self.count
    }

    pub fn set_count(self, count: i32) -> Deviation
        ensures { result ≡ Statistics.with_count self count }
    {
        let mut out = self;
        out.count = count;
        out
    }
}

// Number-or-0 of both answers is what they were before they could be empty. Nothing calls it: the check asks for its proof.
fn or_zero_as_before()
    ensures { Statistics.OrZeroAsBefore }
{}
