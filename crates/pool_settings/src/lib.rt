// The settings of a drawer in a pool, for a host that calls over C: the documents' number, 0 where it is set; a refused call has written nothing, and neither has one
// that leaves the state the same as it was.
#![tactic(auto)]

ghost use Rattle.std.specs.Prelude.{◌≡◌, ◌+◌, ◌≤◌, length};
ghost use Rattle.layout.specs.Left.{left};
ghost use Rattle.layout.specs.Numbers as Numbers;
ghost use Rattle.layout.specs.Places.{state_length};
ghost use Rattle.pool_settings.specs.Sameness.{same_float};
ghost use Rattle.pool_settings.specs.Settings as Settings;
ghost use Rattle.pool_settings.specs.Steps as Steps;

use types::Refusal;

// Where in a state the four numbers stand that are set.
const HORIZON_AT: usize = 8;

const ABSOLUTE_THRESHOLD_AT: usize = 125;

const INITIAL_THRESHOLD_AT: usize = 141;

const Z_FACTOR_AT: usize = 145;

// Document 01's refusal of a horizon: a number, as C is told it.
const HORIZON: u8 = 7;

// What a setting finds: where the state begins that it changes, or that the state has this number already.
#[derive(Drop)]
enum Found {
    At(usize),
    Same,
    Refused(Refusal),
}

// A NaN is the same as a NaN.
fn same(a: f32, b: f32) -> bool
    ensures { result ≡ same_float a b }
{
    if a == b {
        return true;
    }
    if a != a {
        return b != b;
    }
    false
}

// As in `layout`: it asks for room, and a `requires` does not cross a crate.
#[tactic(auto, using(layout::proofs::Words::four_at))]
fn u32_at(bytes: &[u8], at: usize) -> u32
    requires { at + 4 ≤ length bytes.now }
    ensures { result ≡ Numbers.le4 bytes.now at }
{
    let mut four = [0u8; 4];
    four.copy_from_slice(&bytes[at..at + 4]);
    u32::from_le_bytes(four)
}

// The number at place `at` of the drawer's state against the new one.
fn find(pool: &[u8], drawer: u32, at: usize, x: f32) -> Found
    requires { at + 4 ≤ state_length }
    ensures { result ≡ Steps.found pool.now drawer at x }
{
    match record_pool::locate(pool, drawer) {
        Ok(slot) => {
            let from = slot.state;
            if same(ieee::f32_from_bits(u32_at(pool, from + at)), x) {
                return Found::Same;
            }
            Found::At(from)
        }
        Err(why) => Found::Refused(why),
    }
}

// A horizon that a state has already can be one that is refused.
fn horizon_answer(horizon: f32) -> u8
    ensures { result ≡ Steps.horizon_answer horizon }
{
    if horizon >= 0.0 {
        if horizon <= 1.0 {
            return 0;
        }
    }
    HORIZON
}

// Each setter changes one number of the drawer's state: 13, then 11. The chain's lower threshold is the thresholder's absolute threshold.
pub fn krcf_pool_set_z_factor(pool: &mut [u8], drawer: u32, factor: f32) -> u8
    ensures { left result pool.new ≡ Settings.set (Settings.z_factor factor) drawer pool.old }
{
    match find(pool, drawer, Z_FACTOR_AT, factor) {
        Found::At(from) => {
            let upto = from + layout::STATE_LENGTH;
            c_chain::krcf_chain_set_z_factor(&mut pool[from..upto], factor)
        }
        Found::Same => 0,
        Found::Refused(why) => why.number(),
    }
}

pub fn krcf_pool_set_lower_threshold(pool: &mut [u8], drawer: u32, lower: f32) -> u8
    ensures { left result pool.new ≡ Settings.set (Settings.lower_threshold lower) drawer pool.old }
{
    match find(pool, drawer, ABSOLUTE_THRESHOLD_AT, lower) {
        Found::At(from) => {
            let upto = from + layout::STATE_LENGTH;
            c_chain::krcf_chain_set_lower_threshold(&mut pool[from..upto], lower)
        }
        Found::Same => 0,
        Found::Refused(why) => why.number(),
    }
}

pub fn krcf_pool_set_initial_threshold(pool: &mut [u8], drawer: u32, initial: f32) -> u8
    ensures { left result pool.new ≡ Settings.set (Settings.initial_threshold initial) drawer pool.old }
{
    match find(pool, drawer, INITIAL_THRESHOLD_AT, initial) {
        Found::At(from) => {
            let upto = from + layout::STATE_LENGTH;
            c_chain::krcf_chain_set_initial_threshold(&mut pool[from..upto], initial)
        }
        Found::Same => 0,
        Found::Refused(why) => why.number(),
    }
}

// A horizon is refused by 7, after the drawer.
pub fn krcf_pool_set_horizon(pool: &mut [u8], drawer: u32, horizon: f32) -> u8
    ensures { left result pool.new ≡ Settings.set (Settings.horizon horizon) drawer pool.old }
{
    match find(pool, drawer, HORIZON_AT, horizon) {
        Found::At(from) => {
            let upto = from + layout::STATE_LENGTH;
            c_chain::krcf_chain_set_horizon(&mut pool[from..upto], horizon)
        }
        Found::Same => horizon_answer(horizon),
        Found::Refused(why) => why.number(),
    }
}
