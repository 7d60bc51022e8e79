// divector.rs over two lent slices, high and low, in place of the two vectors. The two functions on bounding boxes are the forest's.
#![tactic(auto)]

ghost use Rattle.std.specs.Prelude.{◌≡◌, ◌+◌, ◌-◌, ◌*◌, ◌<◌, ◌≤◌, length, replicate, Float};
ghost use Rattle.divector.specs.DiVector as DiVector;
ghost use Rattle.divector.specs.DiVector.{after};

use types::Refusal;

// The sum of high and the sum of low, each in order from plus zero, added. Both in one loop, so that neither addition waits for the other.
fn total_of(high: &[f64], low: &[f64]) -> f64
    requires { length low.now ≡ length high.now }
    ensures { result ≡ DiVector.total_of high.now low.now }
{
    let mut a = 0.0f64;
    let mut b = 0.0f64;
    for i in 0..high.len() {
        a += high[i];
        b += low[i];
    }
    a + b
}

// x *= factor
#[tactic(auto, unfolding(crate::specs::DiVector::scaled))]
fn scale_one(xs: &mut [f64], factor: f64)
    ensures { xs.new ≡ DiVector.scaled factor xs.old }
{
    for x in xs.iter_mut() {
        *x *= factor;
    }
}

// x = f(x, y). By index, since nothing is known of what a `zip` with `iter_mut` leaves.
fn change_each<F: Fn(f64, f64) -> f64>(xs: &mut [f64], ys: &[f64], f: F)
    requires callable { F.IsAlwaysCallable f }
    requires alike { length xs.old ≡ length ys.now }
    ensures { (g : Float → Float → Float) → ((x y r : _) → F.post f x y r → r ≡ g x y) → xs.new ≡ DiVector.zipped g xs.old ys.now }
{
    for i in 0..ys.len() {
        xs[i] = f(xs[i], ys[i]);
    }
}

// Are the four lengths one?
#[tactic(auto, unfolding(crate::specs::DiVector::one_length))]
fn one_length(a: usize, b: usize, c: usize, d: usize) -> bool
    ensures { result ≡ DiVector.one_length a b c d }
{
    if a != b {
        return false;
    }
    if a != c {
        return false;
    }
    a == d
}

#[tactic(auto, unfolding(crate::specs::DiVector::total))]
pub fn total(high: &[f64], low: &[f64]) -> Result<f64, Refusal>
    ensures { result ≡ DiVector.total high.now low.now }
{
    if high.len() != low.len() {
        return Err(Refusal::Length);
    }
    Ok(total_of(high, low))
}

#[tactic(auto, unfolding(crate::specs::DiVector::high_low_sum))]
pub fn high_low_sum(high: &[f64], low: &[f64], index: usize) -> Result<f64, Refusal>
    ensures { result ≡ DiVector.high_low_sum high.now low.now index }
{
    if high.len() != low.len() {
        return Err(Refusal::Length);
    }
    if index < high.len() {
        return Ok(high[index] + low[index]);
    }
    Err(Refusal::Length)
}

#[tactic(auto, unfolding(crate::specs::DiVector::scale))]
pub fn scale(high: &mut [f64], low: &mut [f64], factor: f64) -> Result<(), Refusal>
    ensures { after result high.new low.new ≡ DiVector.scale high.old low.old factor }
{
    if high.len() != low.len() {
        return Err(Refusal::Length);
    }
    scale_one(high, factor);
    scale_one(low, factor);
    Ok(())
}

#[tactic(auto, unfolding(crate::specs::DiVector::divide))]
pub fn divide(high: &mut [f64], low: &mut [f64], num: usize) -> Result<(), Refusal>
    ensures { after result high.new low.new ≡ DiVector.divide high.old low.old num }
{
    scale(high, low, 1.0 / std::num::nearest_u64_to_f64(num as u64))
}

#[tactic(auto, using(crate::proofs::Laws::one_length_lem), unfolding(crate::specs::DiVector::assign))]
pub fn assign(
    high: &mut [f64],
    low: &mut [f64],
    from_high: &[f64],
    from_low: &[f64],
) -> Result<(), Refusal>
    ensures { after result high.new low.new ≡ DiVector.assign
        high.old low.old from_high.now from_low.now }
{
    if one_length(high.len(), low.len(), from_high.len(), from_low.len()) {
        // Not `copy_from_slice`, which calls memmove: an archive for C is to need memcpy and memset alone.
        change_each(high, from_high, |_, y| y);
        change_each(low, from_low, |_, y| y);
        return Ok(());
    }
    Err(Refusal::Length)
}

#[tactic(auto, using(crate::proofs::Laws::one_length_lem), unfolding(crate::specs::DiVector::add_to, crate::specs::DiVector::added))]
pub fn add_to(
    high: &[f64],
    low: &[f64],
    other_high: &mut [f64],
    other_low: &mut [f64],
) -> Result<(), Refusal>
    ensures { after result other_high.new other_low.new ≡ DiVector.add_to
        high.now low.now other_high.old other_low.old }
{
    if one_length(high.len(), low.len(), other_high.len(), other_low.len()) {
        change_each(other_high, high, |x, y| x + y);
        change_each(other_low, low, |x, y| x + y);
        return Ok(());
    }
    Err(Refusal::Length)
}

#[tactic(auto, using(crate::proofs::Laws::one_length_lem), unfolding(crate::specs::DiVector::add_to_scaled, crate::specs::DiVector::added_scaled))]
pub fn add_to_scaled(
    high: &[f64],
    low: &[f64],
    other_high: &mut [f64],
    other_low: &mut [f64],
    factor: f64,
) -> Result<(), Refusal>
    ensures { after result other_high.new other_low.new ≡ DiVector.add_to_scaled
        high.now low.now other_high.old other_low.old factor }
{
    if one_length(high.len(), low.len(), other_high.len(), other_low.len()) {
        change_each(other_high, high, |x, y| x + y * factor);
        change_each(other_low, low, |x, y| x + y * factor);
        return Ok(());
    }
    Err(Refusal::Length)
}

// What every entry of a pair of length n becomes where the total is not positive.
#[tactic(auto, unfolding(crate::specs::DiVector::share))]
fn share(value: f64, n: usize) -> f64
    ensures { result ≡ DiVector.share value n }
{
    value / (2.0 * std::num::nearest_u64_to_f64(n as u64))
}

#[tactic(auto, unfolding(crate::specs::DiVector::normalize))]
pub fn normalize(high: &mut [f64], low: &mut [f64], value: f64) -> Result<(), Refusal>
    ensures { after result high.new low.new ≡ DiVector.normalize high.old low.old value }
{
    if high.len() != low.len() {
        return Err(Refusal::Length);
    }
    let current = total_of(high, low);
    if current <= 0.0 {
        let v = share(value, high.len());
        high.fill(v);
        low.fill(v);
        return Ok(());
    }
    let factor = value / current;
    scale_one(high, factor);
    scale_one(low, factor);
    Ok(())
}

// What `normalize` would leave of high and low, written elsewhere.
#[tactic(auto, using(crate::proofs::Laws::one_length_lem), unfolding(crate::specs::DiVector::normalize_into))]
pub fn normalize_into(
    high: &[f64],
    low: &[f64],
    value: f64,
    out_high: &mut [f64],
    out_low: &mut [f64],
) -> Result<(), Refusal>
    ensures { after result out_high.new out_low.new ≡ DiVector.normalize_into
        high.now low.now value out_high.old out_low.old }
{
    if one_length(high.len(), low.len(), out_high.len(), out_low.len()) {
        let current = total_of(high, low);
        if current <= 0.0 {
            let v = share(value, high.len());
            out_high.fill(v);
            out_low.fill(v);
            return Ok(());
        }
        let factor = value / current;
        change_each(out_high, high, |_, y| y * factor);
        change_each(out_low, low, |_, y| y * factor);
        return Ok(());
    }
    Err(Refusal::Length)
}

// The sum of the block at place k.
#[tactic(auto, unfolding(crate::specs::DiVector::pair_sum, crate::specs::DiVector::block_sum))]
fn block_sum(high: &[f64], low: &[f64], base: usize, k: usize) -> f64
    requires alike { length high.now ≡ length low.now }
    requires block_in_bounds { k * base + base ≤ length high.now }
    ensures { result ≡ DiVector.block_sum high.now low.now base k }
{
    let at = k * base;
    let mut val = 0.0;
    for i in at..at + base {
        val += high[i] + low[i];
    }
    val
}

// The winner from the block at start on. Each block is summed once.
#[tactic(auto, unfolding(crate::specs::DiVector::winner))]
fn best_from(high: &[f64], low: &[f64], base: usize, start: usize, blocks: usize) -> usize
    requires alike { length high.now ≡ length low.now }
    requires some_block { start < blocks }
    requires blocks_in_bounds { blocks * base ≤ length high.now }
    ensures { result ≡ DiVector.winner high.now low.now base start blocks }
{
    let mut index = start;
    let mut val = block_sum(high, low, base, start);
    for j in start + 1..blocks {
        let sum = block_sum(high, low, base, j);
        if sum > val {
            val = sum;
            index = j;
        }
    }
    index
}

#[tactic(auto, unfolding(crate::specs::DiVector::max_gap_contribution, crate::specs::DiVector::bad_blocks))]
pub fn max_gap_contribution(
    high: &[f64],
    low: &[f64],
    base: usize,
    gap: usize,
) -> Result<usize, Refusal>
    ensures { result ≡ DiVector.max_gap_contribution high.now low.now base gap }
{
    let n = high.len();
    if n != low.len() {
        return Err(Refusal::Length);
    }
    if gap == 0 {
        return Err(Refusal::Blocks);
    }
    if base == 0 {
        return Err(Refusal::Blocks);
    }
    if n == 0 {
        return Err(Refusal::Blocks);
    }
    if n % base != 0 {
        return Err(Refusal::Blocks);
    }
    let blocks = n / base;
    if gap > blocks {
        return Ok(best_from(high, low, base, 0, blocks));
    }
    Ok(best_from(high, low, base, blocks - gap, blocks))
}

#[tactic(auto, unfolding(crate::specs::DiVector::max_contribution))]
pub fn max_contribution(high: &[f64], low: &[f64], base: usize) -> Result<usize, Refusal>
    ensures { result ≡ DiVector.max_contribution high.now low.now base }
{
    max_gap_contribution(high, low, base, high.len())
}
