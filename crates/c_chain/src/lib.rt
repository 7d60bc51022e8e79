// The chain for a host that calls over C: attribution vectors, the chain's state and its setters. Numbers, and slices of bytes or floats (a pointer, then a
// length). A state is its bytes, as the crate layout has them. A call answers document 01's number, 0 where it is done; a refused one has written nothing.
#![tactic(auto)]

ghost use Rattle.std.specs.Prelude.{◌≡◌, eqb};
ghost use Rattle.divector.specs.DiVector as DiVector;
ghost use Rattle.layout.specs.Left.{left, put_into};
ghost use Rattle.layout.specs.Numbers.{f64_bytes, bytes8};
ghost use Rattle.predictorcorrector.specs.State as State;
ghost use Rattle.c_chain.specs.States.{chain_set, horizon_set_in, chain_made};
ghost use Rattle.c_chain.specs.Vectors.{pair, numbered, number_into, block_into};

use predictorcorrector::PredictorCorrector;
use types::Refusal;

// Document 01's refusals of a yes/no byte, a code or a size, and of a length: numbers, as C is told them.
const RANGE: u8 = 2;

const LENGTH: u8 = 3;

fn put_f64(out: &mut [u8], x: f64) -> u8
    ensures { left result out.new ≡ put_into 8 out.old (f64_bytes x) }
{
    if out.len() == 8 {
        layout::write_f64(out, x);
        return 0;
    }
    LENGTH
}

fn put_usize(out: &mut [u8], n: usize) -> u8
    ensures { left result out.new ≡ put_into 8 out.old (bytes8 n) }
{
    if out.len() == 8 {
        layout::write_u64(out, n as u64);
        return 0;
    }
    LENGTH
}

// A slice of another length is refused before a search is.
fn put_block(out: &mut [u8], block: Result<usize, Refusal>) -> u8
    ensures { left result out.new ≡ block_into block out.old }
{
    match block {
        Ok(k) => put_usize(out, k),
        Err(why) => {
            if out.len() == 8 {
                return why.number();
            }
            LENGTH
        }
    }
}

pub fn krcf_total(high: &[f64], low: &[f64], out: &mut [u8]) -> u8
    ensures { left result out.new ≡ number_into (DiVector.total high.now low.now) out.old }
{
    match divector::total(high, low) {
        Ok(x) => put_f64(out, x),
        Err(why) => why.number(),
    }
}

pub fn krcf_scale(high: &mut [f64], low: &mut [f64], factor: f64) -> u8
    ensures { pair result high.new low.new ≡ numbered (DiVector.scale high.old low.old factor) }
{
    types::answered(divector::scale(high, low, factor))
}

pub fn krcf_normalize(high: &mut [f64], low: &mut [f64], value: f64) -> u8
    ensures { pair result high.new low.new ≡ numbered (DiVector.normalize high.old low.old value) }
{
    types::answered(divector::normalize(high, low, value))
}

pub fn krcf_divide(high: &mut [f64], low: &mut [f64], num: usize) -> u8
    ensures { pair result high.new low.new ≡ numbered (DiVector.divide high.old low.old num) }
{
    types::answered(divector::divide(high, low, num))
}

pub fn krcf_assign(high: &mut [f64], low: &mut [f64], from_high: &[f64], from_low: &[f64]) -> u8
    ensures { pair result high.new low.new ≡ numbered (DiVector.assign high.old low.old from_high.now from_low.now) }
{
    types::answered(divector::assign(high, low, from_high, from_low))
}

pub fn krcf_add_to(high: &[f64], low: &[f64], other_high: &mut [f64], other_low: &mut [f64]) -> u8
    ensures { pair result other_high.new other_low.new ≡ numbered (DiVector.add_to high.now low.now other_high.old other_low.old) }
{
    types::answered(divector::add_to(high, low, other_high, other_low))
}

pub fn krcf_add_to_scaled(
    high: &[f64],
    low: &[f64],
    other_high: &mut [f64],
    other_low: &mut [f64],
    factor: f64,
) -> u8
    ensures { pair result other_high.new other_low.new ≡ numbered (DiVector.add_to_scaled high.now low.now other_high.old other_low.old factor) }
{
    types::answered(divector::add_to_scaled(high, low, other_high, other_low, factor))
}

pub fn krcf_high_low_sum(high: &[f64], low: &[f64], index: usize, out: &mut [u8]) -> u8
    ensures { left result out.new ≡ number_into (DiVector.high_low_sum high.now low.now index) out.old }
{
    match divector::high_low_sum(high, low, index) {
        Ok(x) => put_f64(out, x),
        Err(why) => why.number(),
    }
}

pub fn krcf_max_gap_contribution(
    high: &[f64],
    low: &[f64],
    base: usize,
    gap: usize,
    out: &mut [u8],
) -> u8
    ensures { left result out.new ≡ block_into (DiVector.max_gap_contribution high.now low.now base gap) out.old }
{
    put_block(out, divector::max_gap_contribution(high, low, base, gap))
}

pub fn krcf_max_contribution(high: &[f64], low: &[f64], base: usize, out: &mut [u8]) -> u8
    ensures { left result out.new ≡ block_into (DiVector.max_contribution high.now low.now base) out.old }
{
    put_block(out, divector::max_contribution(high, low, base))
}

// All bytes are written: those of entries that do not exist are zero.
pub fn krcf_new(discount: f64, auto_adjust: u8, base_dimension: usize, out: &mut [u8]) -> u8
    ensures { left result out.new ≡ chain_made (State.new discount (eqb auto_adjust 1) base_dimension) auto_adjust out.old }
{
    match PredictorCorrector::new(discount, auto_adjust == 1, base_dimension) {
        Ok(s) => {
            if auto_adjust <= 1 {
                if out.len() == layout::STATE_LENGTH {
                    layout::clear(out);
                    layout::write_state(out, s);
                    return 0;
                }
                return LENGTH;
            }
            RANGE
        }
        Err(why) => why.number(),
    }
}

// Each setter changes the thresholder of a stored state: 3 for a slice of another length, 2 for a yes/no byte above 1. The chain's lower threshold is the
// thresholder's absolute threshold.
pub fn krcf_chain_set_z_factor(state: &mut [u8], factor: f32) -> u8
    ensures { left result state.new ≡ chain_set (λ s. State.z_factor_set s factor) state.old }
{
    match layout::read_standing(state) {
        Ok(k) => {
            let t = k.basic_thresholder;
            layout::write_kept(state, t.set_z_factor(factor), k.run_length);
            0
        }
        Err(why) => why.number(),
    }
}

pub fn krcf_chain_set_lower_threshold(state: &mut [u8], lower: f32) -> u8
    ensures { left result state.new ≡ chain_set (λ s. State.lower_threshold_set s lower) state.old }
{
    match layout::read_standing(state) {
        Ok(k) => {
            let t = k.basic_thresholder;
            layout::write_kept(state, t.set_absolute_threshold(lower), k.run_length);
            0
        }
        Err(why) => why.number(),
    }
}

pub fn krcf_chain_set_initial_threshold(state: &mut [u8], initial: f32) -> u8
    ensures { left result state.new ≡ chain_set (λ s. State.initial_threshold_set s initial) state.old }
{
    match layout::read_standing(state) {
        Ok(k) => {
            let t = k.basic_thresholder;
            layout::write_kept(state, t.set_initial_threshold(initial), k.run_length);
            0
        }
        Err(why) => why.number(),
    }
}

// A horizon is refused after the state.
pub fn krcf_chain_set_horizon(state: &mut [u8], horizon: f32) -> u8
    ensures { left result state.new ≡ horizon_set_in horizon state.old }
{
    match layout::read_standing(state) {
        Ok(k) => {
            let t = k.basic_thresholder;
            let set = t.set_score_differencing(horizon);
            let answer = set.answer;
            let after = set.state;
            match answer {
                Ok(()) => {
                    layout::write_kept(state, after, k.run_length);
                    0
                }
                Err(why) => why.number(),
            }
        }
        Err(why) => why.number(),
    }
}
