// The C functions of the crate c_chain, exported: each calls the library's function of its name and keeps its contract. The kit takes a crate as a library or as a static library, so C needs both.
#![tactic(auto)]

ghost use Rattle.std.specs.Prelude.{◌≡◌, eqb};
ghost use Rattle.divector.specs.DiVector as DiVector;
ghost use Rattle.layout.specs.Left.{left, put_into};
ghost use Rattle.layout.specs.Numbers.{f64_bytes, bytes8};
ghost use Rattle.predictorcorrector.specs.State as State;
ghost use Rattle.c_chain.specs.States.{chain_set, horizon_set_in, chain_made};
ghost use Rattle.c_chain.specs.Vectors.{pair, numbered, number_into, block_into};

#[unsafe(no_mangle)]
pub extern "C" fn krcf_total(high: &[f64], low: &[f64], out: &mut [u8]) -> u8
    ensures { left result out.new ≡ number_into (DiVector.total high.now low.now) out.old }
{
    c_chain::krcf_total(high, low, out)
}

#[unsafe(no_mangle)]
pub extern "C" fn krcf_scale(high: &mut [f64], low: &mut [f64], factor: f64) -> u8
    ensures { pair result high.new low.new ≡ numbered (DiVector.scale high.old low.old factor) }
{
    c_chain::krcf_scale(high, low, factor)
}

#[unsafe(no_mangle)]
pub extern "C" fn krcf_normalize(high: &mut [f64], low: &mut [f64], value: f64) -> u8
    ensures { pair result high.new low.new ≡ numbered (DiVector.normalize high.old low.old value) }
{
    c_chain::krcf_normalize(high, low, value)
}

#[unsafe(no_mangle)]
pub extern "C" fn krcf_divide(high: &mut [f64], low: &mut [f64], num: usize) -> u8
    ensures { pair result high.new low.new ≡ numbered (DiVector.divide high.old low.old num) }
{
    c_chain::krcf_divide(high, low, num)
}

#[unsafe(no_mangle)]
pub extern "C" fn krcf_assign(
    high: &mut [f64],
    low: &mut [f64],
    from_high: &[f64],
    from_low: &[f64],
) -> u8
    ensures { pair result high.new low.new ≡ numbered (DiVector.assign high.old low.old from_high.now from_low.now) }
{
    c_chain::krcf_assign(high, low, from_high, from_low)
}

#[unsafe(no_mangle)]
pub extern "C" fn krcf_add_to(
    high: &[f64],
    low: &[f64],
    other_high: &mut [f64],
    other_low: &mut [f64],
) -> u8
    ensures { pair result other_high.new other_low.new ≡ numbered (DiVector.add_to high.now low.now other_high.old other_low.old) }
{
    c_chain::krcf_add_to(high, low, other_high, other_low)
}

#[unsafe(no_mangle)]
pub extern "C" fn krcf_add_to_scaled(
    high: &[f64],
    low: &[f64],
    other_high: &mut [f64],
    other_low: &mut [f64],
    factor: f64,
) -> u8
    ensures { pair result other_high.new other_low.new ≡ numbered (DiVector.add_to_scaled high.now low.now other_high.old other_low.old factor) }
{
    c_chain::krcf_add_to_scaled(high, low, other_high, other_low, factor)
}

#[unsafe(no_mangle)]
pub extern "C" fn krcf_high_low_sum(high: &[f64], low: &[f64], index: usize, out: &mut [u8]) -> u8
    ensures { left result out.new ≡ number_into (DiVector.high_low_sum high.now low.now index) out.old }
{
    c_chain::krcf_high_low_sum(high, low, index, out)
}

#[unsafe(no_mangle)]
pub extern "C" fn krcf_max_gap_contribution(
    high: &[f64],
    low: &[f64],
    base: usize,
    gap: usize,
    out: &mut [u8],
) -> u8
    ensures { left result out.new ≡ block_into (DiVector.max_gap_contribution high.now low.now base gap) out.old }
{
    c_chain::krcf_max_gap_contribution(high, low, base, gap, out)
}

#[unsafe(no_mangle)]
pub extern "C" fn krcf_max_contribution(
    high: &[f64],
    low: &[f64],
    base: usize,
    out: &mut [u8],
) -> u8
    ensures { left result out.new ≡ block_into (DiVector.max_contribution high.now low.now base) out.old }
{
    c_chain::krcf_max_contribution(high, low, base, out)
}

// All bytes are written: those of entries that do not exist are zero.
#[unsafe(no_mangle)]
pub extern "C" fn krcf_new(
    discount: f64,
    auto_adjust: u8,
    base_dimension: usize,
    out: &mut [u8],
) -> u8
    ensures { left result out.new ≡ chain_made (State.new discount (eqb auto_adjust 1) base_dimension) auto_adjust out.old }
{
    c_chain::krcf_new(discount, auto_adjust, base_dimension, out)
}

// Each setter changes the thresholder of a stored state: 3 for a slice of another length, 2 for a yes/no byte above 1. The chain's lower threshold is the
// thresholder's absolute threshold.
#[unsafe(no_mangle)]
pub extern "C" fn krcf_chain_set_z_factor(state: &mut [u8], factor: f32) -> u8
    ensures { left result state.new ≡ chain_set (λ s. State.z_factor_set s factor) state.old }
{
    c_chain::krcf_chain_set_z_factor(state, factor)
}

#[unsafe(no_mangle)]
pub extern "C" fn krcf_chain_set_lower_threshold(state: &mut [u8], lower: f32) -> u8
    ensures { left result state.new ≡ chain_set (λ s. State.lower_threshold_set s lower) state.old }
{
    c_chain::krcf_chain_set_lower_threshold(state, lower)
}

#[unsafe(no_mangle)]
pub extern "C" fn krcf_chain_set_initial_threshold(state: &mut [u8], initial: f32) -> u8
    ensures { left result state.new ≡ chain_set (λ s. State.initial_threshold_set s initial) state.old }
{
    c_chain::krcf_chain_set_initial_threshold(state, initial)
}

// A horizon is refused after the state.
#[unsafe(no_mangle)]
pub extern "C" fn krcf_chain_set_horizon(state: &mut [u8], horizon: f32) -> u8
    ensures { left result state.new ≡ horizon_set_in horizon state.old }
{
    c_chain::krcf_chain_set_horizon(state, horizon)
}
