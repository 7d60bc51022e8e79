// Which coordinates of a row account for a score: the likely missing indices of expected_point in trcf/predictorcorrector.rs, for which the forest's
// conditional field is asked.
#![tactic(auto)]

ghost use Rattle.std.specs.Prelude.{◌≡◌, cond, ◌+◌, ◌*◌, ◌<◌, ◌≤◌, leb, length, set};
ghost use Rattle.attributors.specs.Attributors as Attributors;
ghost use Rattle.attributors.specs.Sorted.{SortedPick};

// Indices of a point. The places from `count` on hold 0, as C is handed them; and while indices are looked for `count` passes five, which an `ArrayVec` cannot.
#[derive(Clone, Copy)]
pub struct Missing {
    pub count: usize,
    pub indices: [usize; 5],
}

// No indices.
fn nothing() -> Missing
    ensures { result ≡ Attributors.nothing }
{
    Missing {
        count: 0,
        indices: [0, 0, 0, 0, 0],
    }
}

// The sum of high and low over the row.
#[tactic(auto, unfolding(crate::specs::Attributors::attribution_sum, crate::specs::Attributors::for_up_to))]
fn attribution_sum(high: &[f64], low: &[f64], position: usize, base: usize) -> f64
    requires high_in_bounds { position + base ≤ length high.now }
    requires low_in_bounds { position + base ≤ length low.now }
    ensures { result ≡ Attributors.attribution_sum high.now low.now position base }
{
    let mut sum = 0.0f64;
    for at in position..position + base {
        sum += high[at] + low[at];
    }
    sum
}

// The tenth of it that an attributor must reach: half, over the most attributors.
#[tactic(auto, unfolding(crate::specs::Attributors::attribution_limit))]
fn attribution_limit(high: &[f64], low: &[f64], position: usize, base: usize) -> f64
    requires high_in_bounds { position + base ≤ length high.now }
    requires low_in_bounds { position + base ≤ length low.now }
    ensures { result ≡ Attributors.attribution_limit high.now low.now position base }
{
    attribution_sum(high, low, position, base) * 0.5 / 5.0
}

// The indices with one more behind the first `count`, as far as there is room.
fn placed(indices: [usize; 5], count: usize, index: usize) -> [usize; 5]
    ensures { result ≡ set indices count index }
{
    if count < 5 {
        let mut out = indices;
        out[count] = index;
        return out;
    }
    indices
}

// One index more where the test holds.
fn push(found: Missing, test: bool, index: usize) -> Missing
    requires { found.count < 16 }
    ensures { result ≡ Attributors.pushed found test index }
{
    if test {
        let indices = found.indices;
        return Missing {
            count: found.count + 1,
            indices: placed(indices, found.count, index),
        };
    }
    found
}

// The indices of the row whose sum reaches the limit.
#[tactic(auto, unfolding(crate::specs::Attributors::missing, crate::specs::Attributors::reaching, crate::specs::Attributors::for_up_to, crate::specs::Attributors::padded))]
fn reaching(high: &[f64], low: &[f64], limit: f64, position: usize, base: usize) -> Missing
    requires high_in_bounds { position + base ≤ length high.now }
    requires low_in_bounds { position + base ≤ length low.now }
    requires base_bound { base ≤ 16 }
    ensures { result ≡ Attributors.missing (Attributors.reaching high.now low.now limit position base) }
{
    let mut found = nothing();
    for at in position..position + base {
        found = push(found, high[at] + low[at] >= limit, at);
    }
    found
}

// Those found, or none where they are more than five.
fn at_most_five(found: Missing) -> Missing
    ensures { result ≡ cond (leb found.count 5) found Attributors.nothing }
{
    if found.count <= 5 {
        return found;
    }
    nothing()
}

#[tactic(auto, unfolding(crate::specs::Attributors::likely_missing_indices, crate::specs::Attributors::missing, crate::specs::Attributors::padded))]
fn likely_missing_indices(high: &[f64], low: &[f64], position: usize, base: usize) -> Missing
    requires high_in_bounds { position + base ≤ length high.now }
    requires low_in_bounds { position + base ≤ length low.now }
    requires base_bound { base ≤ 16 }
    ensures { result ≡ Attributors.missing (Attributors.likely_missing_indices high.now low.now position base) }
{
    if base == 1 {
        return Missing {
            count: 1,
            indices: [position, 0, 0, 0, 0],
        };
    }
    let limit = attribution_limit(high, low, position, base);
    at_most_five(reaching(high, low, limit, position, base))
}

// The Rust sorts the sums and picks by a cutoff among them: these are the same indices. Nothing calls it: the check asks for its proof.
fn picked_by_sorting()
    ensures { SortedPick }
{}

// Whether the row of so many coordinates from `position` on lies within `len`.
fn row_within(position: usize, base: usize, len: usize) -> bool
    ensures { result ≡ leb (position + base) len }
{
    if base <= len {
        return position <= len - base;
    }
    false
}

// Whether high and low are equally long, and the row of 1 to 16 coordinates from `position` on lies in them.
#[tactic(auto, unfolding(crate::specs::Attributors::row_fits))]
pub fn row_fits(high: usize, low: usize, position: usize, base: usize) -> bool
    ensures { result ≡ Attributors.row_fits high low position base }
{
    (low == high) & ((0 < base) & ((base <= 16) & row_within(position, base, high)))
}

// The indices for which the forest is asked: some, at most five, and fewer than half of the dimensions. None where the row does not fit.
#[tactic(auto, unfolding(crate::specs::Attributors::asked))]
pub fn asked_indices(high: &[f64], low: &[f64], position: usize, base: usize) -> Missing
    ensures { result ≡ Attributors.asked high.now low.now position base }
{
    if row_fits(high.len(), low.len(), position, base) {
        let found = likely_missing_indices(high, low, position, base);
        if 2 * found.count < high.len() {
            return found;
        }
        return nothing();
    }
    nothing()
}
