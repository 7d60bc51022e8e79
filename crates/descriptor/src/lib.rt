// descriptor.rs as far as a reading lends it, and document 01's entry checks of a reading.
#![tactic(auto)]

ghost use Rattle.std.specs.Prelude.{◌≡◌, ◌&&◌, Bool, length};
ghost use Rattle.std.specs.Float.Ieee.Scale.{finite};
ghost use Rattle.descriptor.specs.Checks as Checks;
ghost use Rattle.descriptor.specs.Lent.{lists_of};

use types::{Refusal, ScoringStrategy, TransformMethod};

// The numbers of a reading. Its buffers are lent beside it, as `Lent`.
#[derive(Clone, Copy)]
pub struct Reading {
    pub shingle_size: usize,
    pub base_dimension: usize,
    pub scoring_strategy: ScoringStrategy,
    pub transform_method: TransformMethod,
    pub time_augmented: bool,
    pub values_seen: usize,
    pub score: f32,
    pub corrected_score: f32,
}

// The last anomaly: read only behind `has_anomaly`, a yes/no beside it, which is document 01's form of the Rust's `Option` fields. Of its attribution the yes/no alone counts.
#[derive(Clone, Copy)]
pub struct LastAnomaly {
    pub relative_index: i32,
    pub values_seen: usize,
    pub has_attribution: bool,
    pub score: f32,
}

// What the chain reads of the descriptor before this reading.
#[derive(Clone, Copy)]
pub struct LastDescriptor {
    pub scoring_strategy: ScoringStrategy,
    pub score: f32,
    pub threshold: f32,
    pub has_anomaly: bool,
    pub anomaly: LastAnomaly,
}

// The buffers that the host lends with a reading; the field order is that of the C functions.
#[derive(Clone, Copy)]
pub struct Lent<'a> {
    pub point: &'a [f32],
    pub scale: &'a [f32],
    pub shift: &'a [f32],
    pub difference_deviations: &'a [f32],
    pub last_expected: &'a [f32],
    pub last_anomalous: &'a [f32],
    pub high: &'a [f64],
    pub low: &'a [f64],
    pub median: &'a [f32],
    pub ideal_high: &'a [f64],
    pub ideal_low: &'a [f64],
    pub neighbours: &'a [f32],
}

// The lengths of a reading's buffers: of the twelve that are lent, then of the three that a raised reading writes.
#[derive(Clone, Copy)]
pub struct Lengths {
    pub point: usize,
    pub scale: usize,
    pub shift: usize,
    pub difference_deviations: usize,
    pub last_expected: usize,
    pub last_anomalous: usize,
    pub high: usize,
    pub low: usize,
    pub median: usize,
    pub ideal_high: usize,
    pub ideal_low: usize,
    pub neighbours: usize,
    pub expected: usize,
    pub out_high: usize,
    pub out_low: usize,
}

impl<'a> Lent<'a> {
    // Beside the lengths of the three slices to be written, which are not lent here.
    #[tactic(auto, unfolding(crate::specs::Checks::lengths_of))]
    fn lengths(self, expected: usize, out_high: usize, out_low: usize) -> Lengths
        ensures { result ≡ Checks.lengths_of (lists_of self.entry) expected out_high out_low }
    {
        Lengths {
            point: self.point.len(),
            scale: self.scale.len(),
            shift: self.shift.len(),
            difference_deviations: self.difference_deviations.len(),
            last_expected: self.last_expected.len(),
            last_anomalous: self.last_anomalous.len(),
            high: self.high.len(),
            low: self.low.len(),
            median: self.median.len(),
            ideal_high: self.ideal_high.len(),
            ideal_low: self.ideal_low.len(),
            neighbours: self.neighbours.len(),
            expected,
            out_high,
            out_low,
        }
    }
}

// A float of either width.
pub trait Number: Copy {
    ghost finite: { Self → Bool };

    fn is_finite(self) -> bool
        ensures { result ≡ finite self };
}

impl Number for f32 {
    ghost finite = { finite };

    fn is_finite(self) -> bool {
        ieee::is_finite(self)
    }
}

#[tactic(auto, using(ieee::proofs::Finite::finite_is))]
impl Number for f64 {
    ghost finite = { finite };

    fn is_finite(self) -> bool {
        let gap = self - self;
        gap == gap
    }
}

// No early exit: a turn without a branch lets the compiler take several elements at once.
pub fn all_finite<N: Number>(xs: &[N]) -> bool
    ensures { result ≡ Checks.every N.finite xs.now }
{
    let mut ok = true;
    for x in xs {
        ok = ok & x.is_finite();
    }
    ok
}

// Slices of one length in one loop: two, and below three and four. One loop over an array of slices would have another in each turn.
fn pair_finite<N: Number>(xs: &[N], ys: &[N]) -> bool
    requires { length ys.now ≡ length xs.now }
    ensures { result ≡ (Checks.every N.finite xs.now && Checks.every N.finite ys.now) }
{
    let mut ok = true;
    for i in 0..xs.len() {
        ok = ok & xs[i].is_finite() & ys[i].is_finite();
    }
    ok
}

fn triple_finite<N: Number>(xs: &[N], ys: &[N], zs: &[N]) -> bool
    requires ys_len { length ys.now ≡ length xs.now }
    requires zs_len { length zs.now ≡ length xs.now }
    ensures { result ≡ (Checks.every N.finite xs.now && Checks.every N.finite ys.now && Checks.every N.finite zs.now) }
{
    let mut ok = true;
    for i in 0..xs.len() {
        ok = ok & xs[i].is_finite() & ys[i].is_finite() & zs[i].is_finite();
    }
    ok
}

fn quad_finite<N: Number>(xs: &[N], ys: &[N], zs: &[N], ws: &[N]) -> bool
    requires ys_len { length ys.now ≡ length xs.now }
    requires zs_len { length zs.now ≡ length xs.now }
    requires ws_len { length ws.now ≡ length xs.now }
    ensures { result ≡ (Checks.every N.finite xs.now && Checks.every N.finite ys.now && Checks.every N.finite zs.now && Checks.every N.finite ws.now) }
{
    let mut ok = true;
    for i in 0..xs.len() {
        ok = ok & xs[i].is_finite() & ys[i].is_finite() & zs[i].is_finite() & ws[i].is_finite();
    }
    ok
}

// Both slices; in one loop where they are as long as each other.
fn both_finite(xs: &[f32], ys: &[f32]) -> bool
    ensures { result ≡ (Checks.all_finite xs.now && Checks.all_finite ys.now) }
{
    if ys.len() == xs.len() {
        return pair_finite(xs, ys);
    }
    all_finite(xs) & all_finite(ys)
}

// The three rows; in one loop where they are as long as each other.
fn rows_finite(scale: &[f32], shift: &[f32], deviations: &[f32]) -> bool
    ensures { result ≡ (Checks.all_finite scale.now && Checks.all_finite shift.now && Checks.all_finite deviations.now) }
{
    if shift.len() == scale.len() {
        if deviations.len() == scale.len() {
            return triple_finite(scale, shift, deviations);
        }
    }
    all_finite(scale) & all_finite(shift) & all_finite(deviations)
}

// The two attributions, each a high and a low; in one loop where all four are as long as each other.
fn attributions_finite(high: &[f64], low: &[f64], ideal_high: &[f64], ideal_low: &[f64]) -> bool
    ensures { result ≡ (Checks.all_finite high.now && Checks.all_finite low.now && Checks.all_finite ideal_high.now && Checks.all_finite ideal_low.now) }
{
    if low.len() == high.len() {
        if ideal_high.len() == high.len() {
            if ideal_low.len() == high.len() {
                return quad_finite(high, low, ideal_high, ideal_low);
            }
        }
    }
    all_finite(high) & all_finite(low) & all_finite(ideal_high) & all_finite(ideal_low)
}

#[tactic(auto, unfolding(crate::specs::Checks::sizes_ok))]
pub fn sizes_ok(shingle_size: usize, base_dimension: usize) -> bool
    ensures { result ≡ Checks.sizes_ok shingle_size base_dimension }
{
    (1 <= shingle_size) & ((shingle_size <= 64) & ((1 <= base_dimension) & (base_dimension <= 16)))
}

// D, or 0 where the sizes are out of range.
#[tactic(auto, using(crate::proofs::Bounds::product_fits), unfolding(crate::specs::Checks::dimension))]
pub fn dimension(shingle_size: usize, base_dimension: usize) -> usize
    ensures { result ≡ Checks.dimension shingle_size base_dimension }
{
    if sizes_ok(shingle_size, base_dimension) {
        return shingle_size * base_dimension;
    }
    0
}

#[tactic(auto, unfolding(crate::specs::Checks::range_ok))]
pub fn range_ok(shingle_size: usize, base_dimension: usize, state_base: usize) -> bool
    ensures { result ≡ Checks.range_ok shingle_size base_dimension state_base }
{
    sizes_ok(shingle_size, base_dimension) & (base_dimension == state_base)
}

// D each: the point, the two attributions, the median, and what is written.
#[tactic(auto, unfolding(crate::specs::Checks::points_ok))]
fn points_ok(d: usize, n: Lengths) -> bool
    ensures { result ≡ Checks.points_ok d n }
{
    (n.point == d)
        & ((n.high == d)
            & ((n.low == d)
                & ((n.median == d)
                    & ((n.ideal_high == d)
                        & ((n.ideal_low == d)
                            & ((n.expected == d) & ((n.out_high == d) & (n.out_low == d))))))))
}

// As long as the base each.
#[tactic(auto, unfolding(crate::specs::Checks::rows_ok))]
fn rows_ok(base: usize, n: Lengths) -> bool
    ensures { result ≡ Checks.rows_ok base n }
{
    (n.scale == base) & ((n.shift == base) & (n.difference_deviations == base))
}

#[tactic(auto, unfolding(crate::specs::Checks::neighbours_ok))]
pub fn neighbours_ok(d: usize, n: usize) -> bool
    ensures { result ≡ Checks.neighbours_ok d n }
{
    if d == 0 {
        return false;
    }
    (n % d == 0) & (n / d <= 256)
}

// The last anomaly's points, behind its yes/no.
#[tactic(auto, unfolding(crate::specs::Checks::last_points_ok))]
pub fn last_points_ok(has_anomaly: bool, d: usize, expected: usize, anomalous: usize) -> bool
    ensures { result ≡ Checks.last_points_ok has_anomaly d expected anomalous }
{
    if has_anomaly {
        return (expected == d) & (anomalous == d);
    }
    true
}

#[tactic(auto, unfolding(crate::specs::Checks::numbers_finite))]
pub fn numbers_finite(r: Reading, l: LastDescriptor) -> bool
    ensures { result ≡ Checks.numbers_finite r l }
{
    ieee::is_finite(r.score)
        & (ieee::is_finite(r.corrected_score)
            & (ieee::is_finite(l.score) & ieee::is_finite(l.threshold)))
}

#[tactic(auto, unfolding(crate::specs::Checks::last_finite))]
fn last_finite(l: LastDescriptor, expected: &[f32], anomalous: &[f32]) -> bool
    ensures { result ≡ Checks.last_finite l expected.now anomalous.now }
{
    let anomaly = l.anomaly;
    if l.has_anomaly {
        return ieee::is_finite(anomaly.score) & both_finite(expected, anomalous);
    }
    true
}

#[tactic(auto, unfolding(crate::specs::Checks::is_later))]
fn is_later(values_seen: usize, has_anomaly: bool, last_seen: usize) -> bool
    ensures { result ≡ Checks.is_later values_seen has_anomaly last_seen }
{
    if has_anomaly {
        return last_seen < values_seen;
    }
    true
}

#[tactic(auto, unfolding(crate::specs::Checks::seen_ok))]
pub fn seen_ok(values_seen: usize, has_anomaly: bool, last_seen: usize) -> bool
    ensures { result ≡ Checks.seen_ok values_seen has_anomaly last_seen }
{
    (1 <= values_seen) & ((values_seen <= 16777216) & is_later(values_seen, has_anomaly, last_seen))
}

// Refusal 3's test.
#[tactic(auto, unfolding(crate::specs::Checks::lengths_ok))]
fn lengths_ok(r: Reading, l: LastDescriptor, n: Lengths) -> bool
    ensures { result ≡ Checks.lengths_ok r l n }
{
    let d = dimension(r.shingle_size, r.base_dimension);
    points_ok(d, n)
        & (rows_ok(r.base_dimension, n)
            & (neighbours_ok(d, n.neighbours)
                & last_points_ok(l.has_anomaly, d, n.last_expected, n.last_anomalous)))
}

// Refusal 4's test. The attributions share a loop, so do the rows, the point and the median, and the last anomaly's two points.
#[tactic(auto, using(crate::proofs::Finite::in_order), unfolding(crate::specs::Checks::finite_ok))]
fn finite_ok(r: Reading, l: LastDescriptor, b: Lent) -> bool
    ensures { result ≡ Checks.finite_ok r l (lists_of b.entry) }
{
    numbers_finite(r, l)
        & (last_finite(l, b.last_expected, b.last_anomalous)
            & (both_finite(b.point, b.median)
                & (rows_finite(b.scale, b.shift, b.difference_deviations)
                    & (attributions_finite(b.high, b.low, b.ideal_high, b.ideal_low)
                        & all_finite(b.neighbours)))))
}

// The answer to a reading: the smallest refusal of document 01's table that applies. Of the three slices to be written, which are not lent here, the lengths are
// handed over; `counts_ok` is refusal 6's test, which the state's owner makes.
#[tactic(auto, unfolding(crate::specs::Checks::answer_of))]
pub fn answer(
    r: Reading,
    l: LastDescriptor,
    b: Lent,
    expected: usize,
    out_high: usize,
    out_low: usize,
    state_base: usize,
    counts_ok: bool,
) -> Result<(), Refusal>
    ensures { result ≡ Checks.answer_of r l (lists_of b.entry) expected out_high out_low state_base counts_ok }
{
    let anomaly = l.anomaly;
    if range_ok(r.shingle_size, r.base_dimension, state_base) {
        if lengths_ok(r, l, b.lengths(expected, out_high, out_low)) {
            return Refusal::of_fitting(
                finite_ok(r, l, b),
                seen_ok(r.values_seen, l.has_anomaly, anomaly.values_seen),
                counts_ok,
            );
        }
        return Err(Refusal::Length);
    }
    Err(Refusal::Range)
}
