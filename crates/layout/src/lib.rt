// The stored state's bytes, in document 02's order, and those of a reading, the last descriptor and a verdict: little-endian, without gaps. The bytes of a
// number become one load or one store.
#![tactic(auto)]

ghost use Rattle.std.specs.Prelude.{◌≡◌, ℕ, ◌+◌, ◌*◌, ◌<◌, ◌≤◌, List, true, slice_index_or, length, take, drop, replicate};
ghost use Rattle.deviation.specs.Const.{zero64};
ghost use Rattle.deviation.specs.Statistics.{fresh, reset, counted};
ghost use Rattle.deviation.specs.declared.Deviation.{Deviation};
ghost use Rattle.predictorcorrector.specs.Lists.{changed, stepped, first_countable};
ghost use Rattle.basicthresholder.specs.Updates.{counts_ok};
ghost use Rattle.predictorcorrector.specs.State.{state_counts_ok, standing};
ghost use Rattle.types.specs.Codes as Codes;
ghost use Rattle.layout.specs.Places.{deviation_length, thresholder_length, state_length, base_dimension_at, list_length, reading_length, last_length, verdict_length};
ghost use Rattle.layout.specs.Numbers as Numbers;
ghost use Rattle.layout.specs.States as States;
ghost use Rattle.layout.specs.Chain as Chain;
ghost use Rattle.layout.specs.Readings as Readings;
ghost use Rattle.layout.specs.Call as Call;
ghost use Rattle.layout.specs.InPlace as InPlace;
ghost use Rattle.layout.specs.Parts as Parts;

use basicthresholder::{BasicThresholder, Graded};
use descriptor::{LastAnomaly, LastDescriptor, Reading};
use deviation::Deviation;
use predictorcorrector::{PredictorCorrector, Standing};
use types::{Refusal, ScoringStrategy, TransformMethod};
use util::minf32;

// How many bytes the records have.
pub const DEVIATION_LENGTH: usize = 36;

pub const THRESHOLDER_LENGTH: usize = 149;

pub const STATE_LENGTH: usize = 1310;

pub const READING_LENGTH: usize = 23;

pub const LAST_LENGTH: usize = 23;

pub const VERDICT_LENGTH: usize = 14;

// Where in a statistic, behind its discount, its numbers stand.
const WEIGHT_AT: usize = 8;

const SUM_SQUARED_AT: usize = 16;

const SUM_AT: usize = 24;

const DEVIATION_COUNT_AT: usize = 32;

// Where in a thresholder. A state begins with one.
const ELASTICITY_AT: usize = 0;

const COUNT_AT: usize = 4;

const SCORE_DIFFERENCING_AT: usize = 8;

const LAST_SCORE_AT: usize = 12;

const PRIMARY_AT: usize = 16;

const SECONDARY_AT: usize = 52;

const THIRD_AT: usize = 88;

const AUTO_THRESHOLD_AT: usize = 124;

const ABSOLUTE_THRESHOLD_AT: usize = 125;

const ABSOLUTE_SCORE_FRACTION_AT: usize = 129;

const LOWER_THRESHOLD_AT: usize = 133;

const FACTOR_ADJUSTMENT_THRESHOLD_AT: usize = 137;

const INITIAL_THRESHOLD_AT: usize = 141;

const Z_FACTOR_AT: usize = 145;

// Where in a state.
const AUTO_ADJUST_AT: usize = 149;

const RUN_LENGTH_AT: usize = 150;

const BASE_DIMENSION_AT: usize = 154;

const ACTUAL_AT: usize = 158;

const EXPECTED_AT: usize = 734;

// The longest run that refusal 6 lets pass.
const RUN_LIMIT: u32 = 16777215;

// Where in a reading.
const SHINGLE_SIZE_AT: usize = 0;

const READING_BASE_AT: usize = 4;

const STRATEGY_AT: usize = 8;

const METHOD_AT: usize = 9;

const TIME_AUGMENTED_AT: usize = 10;

const VALUES_SEEN_AT: usize = 11;

const SCORE_AT: usize = 15;

const CORRECTED_SCORE_AT: usize = 19;

// Where in the last descriptor.
const LAST_STRATEGY_AT: usize = 0;

const LAST_DESCRIPTOR_SCORE_AT: usize = 1;

const LAST_THRESHOLD_AT: usize = 5;

const HAS_ANOMALY_AT: usize = 9;

const ANOMALY_INDEX_AT: usize = 10;

const ANOMALY_SEEN_AT: usize = 14;

const HAS_ATTRIBUTION_AT: usize = 18;

const ANOMALY_SCORE_AT: usize = 19;

// Where in a verdict.
const KIND_AT: usize = 0;

const MODE_AT: usize = 1;

const THRESHOLD_AT: usize = 2;

const RELATIVE_INDEX_AT: usize = 10;

// What a call reads of all three slices.
#[derive(Clone, Copy)]
pub struct CallRead {
    pub standing: Standing,
    pub reading: Reading,
    pub last: LastDescriptor,
}

// The N bytes from `at` on.
fn chunk<const N: usize>(bytes: &[u8], at: usize) -> [u8; N]
    requires { at + N ≤ length bytes.now }
    ensures { result ≡ take N (drop at bytes.now) }
{
    let mut out = [0; N];
    out.copy_from_slice(&bytes[at..at + N]);
    out
}

// The number of the 4 bytes from `at` on, the lowest first.
#[tactic(auto, using(crate::proofs::Words::four_at))]
fn u32_at(bytes: &[u8], at: usize) -> u32
    requires { at + 4 ≤ length bytes.now }
    ensures { result ≡ Numbers.le4 bytes.now at }
{
    u32::from_le_bytes(chunk(bytes, at))
}

#[tactic(auto, unfolding(crate::specs::Numbers::f32_at))]
fn f32_at(bytes: &[u8], at: usize) -> f32
    requires { at + 4 ≤ length bytes.now }
    ensures { result ≡ Numbers.f32_at bytes.now at }
{
    ieee::f32_from_bits(u32_at(bytes, at))
}

#[tactic(auto, using(crate::proofs::Words::eight_at), unfolding(crate::specs::Numbers::f64_at))]
fn f64_at(bytes: &[u8], at: usize) -> f64
    requires { at + 8 ≤ length bytes.now }
    ensures { result ≡ Numbers.f64_at bytes.now at }
{
    ieee::f64_from_bits(u64::from_le_bytes(chunk(bytes, at)))
}

#[tactic(auto, using(crate::proofs::Words::signed_is), unfolding(crate::specs::Numbers::i32_at))]
fn i32_at(bytes: &[u8], at: usize) -> i32
    requires { at + 4 ≤ length bytes.now }
    ensures { result ≡ Numbers.i32_at bytes.now at }
{
    u32_at(bytes, at).cast_signed()
}

#[tactic(auto, unfolding(crate::specs::Numbers::flag_at))]
fn flag_at(bytes: &[u8], at: usize) -> bool
    requires { at < length bytes.now }
    ensures { result ≡ Numbers.flag_at bytes.now at }
{
    bytes[at] != 0
}

#[tactic(auto, unfolding(crate::specs::States::deviation_at))]
fn deviation_at(bytes: &[u8], at: usize) -> Deviation
    requires { at + deviation_length ≤ length bytes.now }
    ensures { result ≡ States.deviation_at bytes.now at }
{
    Deviation {
        discount: f64_at(bytes, at),
        weight: f64_at(bytes, at + WEIGHT_AT),
        sum_squared: f64_at(bytes, at + SUM_SQUARED_AT),
        sum: f64_at(bytes, at + SUM_AT),
        count: i32_at(bytes, at + DEVIATION_COUNT_AT),
    }
}

#[tactic(auto, unfolding(crate::specs::States::decode_thresholder))]
fn thresholder_of(bytes: &[u8]) -> BasicThresholder
    requires { thresholder_length ≤ length bytes.now }
    ensures { result ≡ States.decode_thresholder bytes.now }
{
    let primary = deviation_at(bytes, PRIMARY_AT);
    let secondary = deviation_at(bytes, SECONDARY_AT);
    let third = deviation_at(bytes, THIRD_AT);
    BasicThresholder {
        elasticity: f32_at(bytes, ELASTICITY_AT),
        count: i32_at(bytes, COUNT_AT),
        score_differencing: f32_at(bytes, SCORE_DIFFERENCING_AT),
        last_score: f32_at(bytes, LAST_SCORE_AT),
        primary_deviation: primary,
        secondary_deviation: secondary,
        threshold_deviation: third,
        auto_threshold: flag_at(bytes, AUTO_THRESHOLD_AT),
        absolute_threshold: f32_at(bytes, ABSOLUTE_THRESHOLD_AT),
        absolute_score_fraction: f32_at(bytes, ABSOLUTE_SCORE_FRACTION_AT),
        lower_threshold: f32_at(bytes, LOWER_THRESHOLD_AT),
        factor_adjustment_threshold: f32_at(bytes, FACTOR_ADJUSTMENT_THRESHOLD_AT),
        initial_threshold: f32_at(bytes, INITIAL_THRESHOLD_AT),
        z_factor: f32_at(bytes, Z_FACTOR_AT),
    }
}

// 3 for a slice of another length.
#[tactic(auto, unfolding(crate::specs::States::read_deviation))]
pub fn read_deviation(bytes: &[u8]) -> Result<Deviation, Refusal>
    ensures { result ≡ States.read_deviation bytes.now }
{
    if bytes.len() == DEVIATION_LENGTH {
        return Ok(deviation_at(bytes, 0));
    }
    Err(Refusal::Length)
}

// 3 for a slice of another length, then 2 for a yes/no byte above 1.
#[tactic(auto, unfolding(crate::specs::States::read_thresholder))]
pub fn read_thresholder(bytes: &[u8]) -> Result<BasicThresholder, Refusal>
    ensures { result ≡ States.read_thresholder bytes.now }
{
    if bytes.len() == THRESHOLDER_LENGTH {
        if bytes[AUTO_THRESHOLD_AT] <= 1 {
            return Ok(thresholder_of(bytes));
        }
        return Err(Refusal::Range);
    }
    Err(Refusal::Length)
}

#[tactic(auto, unfolding(crate::specs::Numbers::pasted))]
fn put<const N: usize>(out: &mut [u8], at: usize, bytes: &[u8; N])
    requires { at + N ≤ length out.old }
    ensures { out.new ≡ Numbers.pasted out.old at bytes.now }
{
    out[at..at + N].copy_from_slice(bytes);
}

#[tactic(auto, using(crate::proofs::Words::four))]
fn put_u32(out: &mut [u8], at: usize, n: u32)
    requires { at + 4 ≤ length out.old }
    ensures { out.new ≡ Numbers.pasted out.old at (Numbers.bytes4 n) }
{
    put(out, at, &n.to_le_bytes());
}

#[tactic(auto, unfolding(crate::specs::Numbers::f32_bytes))]
fn put_f32(out: &mut [u8], at: usize, x: f32)
    requires { at + 4 ≤ length out.old }
    ensures { out.new ≡ Numbers.pasted out.old at (Numbers.f32_bytes x) }
{
    put_u32(out, at, ieee::f32_to_bits(x));
}

#[tactic(auto, using(crate::proofs::Words::eight), unfolding(crate::specs::Numbers::f64_bytes))]
fn put_f64(out: &mut [u8], at: usize, x: f64)
    requires { at + 8 ≤ length out.old }
    ensures { out.new ≡ Numbers.pasted out.old at (Numbers.f64_bytes x) }
{
    put(out, at, &ieee::f64_to_bits(x).to_le_bytes());
}

#[tactic(auto, using(crate::proofs::Words::unsigned_is), unfolding(crate::specs::Numbers::i32_bytes))]
fn put_i32(out: &mut [u8], at: usize, n: i32)
    requires { at + 4 ≤ length out.old }
    ensures { out.new ≡ Numbers.pasted out.old at (Numbers.i32_bytes n) }
{
    put_u32(out, at, n.cast_unsigned());
}

fn put_deviation(out: &mut [u8], at: usize, d: Deviation)
    requires { at + deviation_length ≤ length out.old }
    ensures { out.new ≡ Numbers.pasted out.old at (States.encode_deviation d) }
{
    put_f64(out, at, d.discount);
    put_f64(out, at + WEIGHT_AT, d.weight);
    put_f64(out, at + SUM_SQUARED_AT, d.sum_squared);
    put_f64(out, at + SUM_AT, d.sum);
    put_i32(out, at + DEVIATION_COUNT_AT, d.count);
}

// A thresholder stands first, alone or in the chain's state.
fn put_thresholder(out: &mut [u8], s: BasicThresholder)
    requires { thresholder_length ≤ length out.old }
    ensures { out.new ≡ Numbers.pasted out.old 0 (States.encode_thresholder s) }
{
    put_f32(out, ELASTICITY_AT, s.elasticity);
    put_i32(out, COUNT_AT, s.count);
    put_f32(out, SCORE_DIFFERENCING_AT, s.score_differencing);
    put_f32(out, LAST_SCORE_AT, s.last_score);
    put_deviation(out, PRIMARY_AT, s.primary_deviation);
    put_deviation(out, SECONDARY_AT, s.secondary_deviation);
    put_deviation(out, THIRD_AT, s.threshold_deviation);
    out[AUTO_THRESHOLD_AT] = u8::from(s.auto_threshold);
    put_f32(out, ABSOLUTE_THRESHOLD_AT, s.absolute_threshold);
    put_f32(out, ABSOLUTE_SCORE_FRACTION_AT, s.absolute_score_fraction);
    put_f32(out, LOWER_THRESHOLD_AT, s.lower_threshold);
    put_f32(
        out,
        FACTOR_ADJUSTMENT_THRESHOLD_AT,
        s.factor_adjustment_threshold,
    );
    put_f32(out, INITIAL_THRESHOLD_AT, s.initial_threshold);
    put_f32(out, Z_FACTOR_AT, s.z_factor);
}

// Each of these writes a slice of its length, and leaves any other as it is.
#[tactic(auto, using(crate::proofs::Pasting::pasted_whole, crate::proofs::Laws::deviation_length_lem), unfolding(crate::specs::Numbers::written_of))]
pub fn write_deviation(out: &mut [u8], d: Deviation)
    ensures { out.new ≡ Numbers.written_of deviation_length out.old (States.encode_deviation d) }
{
    if out.len() == DEVIATION_LENGTH {
        put_deviation(out, 0, d);
    }
}

#[tactic(auto, using(crate::proofs::Pasting::pasted_whole, crate::proofs::Laws::thresholder_length_lem), unfolding(crate::specs::Numbers::written_of))]
pub fn write_thresholder(out: &mut [u8], s: BasicThresholder)
    ensures { out.new ≡ Numbers.written_of thresholder_length out.old (States.encode_thresholder s) }
{
    if out.len() == THRESHOLDER_LENGTH {
        put_thresholder(out, s);
    }
}

#[tactic(auto, using(crate::proofs::Pasting::pasted_whole), unfolding(crate::specs::Numbers::written_of, crate::specs::Numbers::f32_bytes, crate::specs::Numbers::bytes4))]
pub fn write_f32(out: &mut [u8], x: f32)
    ensures { out.new ≡ Numbers.written_of 4 out.old (Numbers.f32_bytes x) }
{
    if out.len() == 4 {
        put_f32(out, 0, x);
    }
}

#[tactic(auto, unfolding(crate::specs::Numbers::f64_bytes))]
pub fn write_f64(out: &mut [u8], x: f64)
    ensures { out.new ≡ Numbers.written_of 8 out.old (Numbers.f64_bytes x) }
{
    write_u64(out, ieee::f64_to_bits(x));
}

#[tactic(auto, unfolding(crate::specs::Numbers::written_of, crate::specs::Numbers::flag_bytes))]
pub fn write_flag(out: &mut [u8], b: bool)
    ensures { out.new ≡ Numbers.written_of 1 out.old (Numbers.flag_bytes b) }
{
    if out.len() == 1 {
        out[0] = u8::from(b);
    }
}

// A threshold and its grade, 8 bytes.
pub fn write_graded(out: &mut [u8], g: Graded)
    ensures { out.new ≡ Numbers.written_of 8 out.old (States.encode_graded g) }
{
    if out.len() == 8 {
        put_f32(out, 0, g.threshold);
        put_f32(out, 4, g.grade);
    }
}

#[tactic(auto, using(crate::proofs::Words::eight, crate::proofs::Pasting::pasted_whole), unfolding(crate::specs::Numbers::written_of, crate::specs::Numbers::bytes8, crate::specs::Numbers::bytes4))]
pub fn write_u64(out: &mut [u8], n: u64)
    ensures { out.new ≡ Numbers.written_of 8 out.old (Numbers.bytes8 n) }
{
    if out.len() == 8 {
        put(out, 0, &n.to_le_bytes());
    }
}

// Zero in every byte.
pub fn clear(out: &mut [u8])
    ensures { out.new ≡ replicate (length out.old) 0 }
{
    out.fill(0);
}

// How many entries of a stored state's lists exist.
#[tactic(auto, unfolding(crate::specs::Chain::entries))]
fn entries(auto_adjust: bool, base_dimension: u32) -> usize
    ensures { (result ≡ Chain.entries auto_adjust base_dimension) × (result ≤ 16) }
{
    if auto_adjust {
        if base_dimension <= 16 {
            return base_dimension as usize;
        }
        return 16;
    }
    0
}

#[tactic(auto, unfolding(crate::specs::Chain::empty_list))]
fn empty_list() -> [Deviation; 16]
    ensures { result ≡ Chain.empty_list }
{
    [Deviation::default(); 16]
}

// The first n entries of a list that is stored from `at` on; those behind them all zero.
fn list_at(bytes: &[u8], at: usize, n: usize) -> [Deviation; 16]
    requires few { n ≤ 16 }
    requires long { at + list_length ≤ length bytes.now }
    ensures { result ≡ Chain.list_at bytes.now at n }
{
    let mut out = empty_list();
    for i in 0..n {
        out[i] = deviation_at(bytes, at + DEVIATION_LENGTH * i);
    }
    out
}

#[tactic(auto, unfolding(crate::specs::Chain::decode_state))]
fn state_of(bytes: &[u8]) -> PredictorCorrector
    requires { length bytes.now ≡ state_length }
    ensures { result ≡ Chain.decode_state bytes.now }
{
    let auto_adjust = flag_at(bytes, AUTO_ADJUST_AT);
    let base_dimension = u32_at(bytes, BASE_DIMENSION_AT);
    let n = entries(auto_adjust, base_dimension);
    PredictorCorrector {
        basic_thresholder: thresholder_of(bytes),
        auto_adjust,
        run_length: u32_at(bytes, RUN_LENGTH_AT),
        base_dimension,
        deviations_actual: list_at(bytes, ACTUAL_AT, n),
        deviations_expected: list_at(bytes, EXPECTED_AT, n),
    }
}

// The state's two yes/no bytes hold 0 or 1. Nothing inside a slice of another length is looked at.
#[tactic(auto, unfolding(crate::specs::Chain::state_codes_ok))]
pub fn state_codes_ok(bytes: &[u8]) -> bool
    ensures { result ≡ Chain.state_codes_ok bytes.now }
{
    if bytes.len() == STATE_LENGTH {
        return (bytes[AUTO_THRESHOLD_AT] <= 1) & (bytes[AUTO_ADJUST_AT] <= 1);
    }
    true
}

// The counts of a stored list's first n entries take an update.
fn counts_at(bytes: &[u8], at: usize, n: usize) -> bool
    requires few { n ≤ 16 }
    requires long { at + list_length ≤ length bytes.now }
    ensures { result ≡ first_countable n (Chain.list_at bytes.now at n) }
{
    (0..n).all(|i| deviation::countable(i32_at(
        bytes,
        at + DEVIATION_LENGTH * i + DEVIATION_COUNT_AT,
    )))
}

// The thresholder's counts take an update.
#[tactic(auto, unfolding(basicthresholder::specs::Updates::counts_ok, crate::specs::States::decode_thresholder, crate::specs::States::deviation_at))]
fn thresholder_counts_ok(bytes: &[u8]) -> bool
    requires { thresholder_length ≤ length bytes.now }
    ensures { result ≡ counts_ok (States.decode_thresholder bytes.now) }
{
    deviation::countable(i32_at(bytes, COUNT_AT))
        & (deviation::countable(i32_at(bytes, PRIMARY_AT + DEVIATION_COUNT_AT))
            & (deviation::countable(i32_at(bytes, SECONDARY_AT + DEVIATION_COUNT_AT))
                & deviation::countable(i32_at(bytes, THIRD_AT + DEVIATION_COUNT_AT))))
}

// Refusal 6's test.
#[tactic(auto, using(crate::proofs::InPlace::counts_are))]
fn counts_ok_of(bytes: &[u8]) -> bool
    requires { length bytes.now ≡ state_length }
    ensures { result ≡ state_counts_ok (Chain.decode_state bytes.now) }
{
    let n = entries(
        flag_at(bytes, AUTO_ADJUST_AT),
        u32_at(bytes, BASE_DIMENSION_AT),
    );
    (u32_at(bytes, RUN_LENGTH_AT) <= RUN_LIMIT)
        & (thresholder_counts_ok(bytes)
            & (counts_at(bytes, ACTUAL_AT, n) & counts_at(bytes, EXPECTED_AT, n)))
}

// The entry before `base` of a stored list whose first n entries exist.
#[tactic(auto, unfolding(crate::specs::Parts::last_of))]
fn last_entry(bytes: &[u8], at: usize, n: usize, base: usize) -> Deviation
    requires few { n ≤ 16 }
    requires long { at + list_length ≤ length bytes.now }
    ensures { result ≡ Parts.last_of bytes.now at n base }
{
    if (n == base) & (1 <= n) {
        return deviation_at(bytes, at + DEVIATION_LENGTH * (n - 1));
    }
    Deviation::default()
}

#[tactic(auto, using(crate::proofs::InPlace::standing_is))]
fn standing_of(bytes: &[u8]) -> Standing
    requires { length bytes.now ≡ state_length }
    ensures { result ≡ standing (Chain.decode_state bytes.now) }
{
    let auto_adjust = flag_at(bytes, AUTO_ADJUST_AT);
    let stored_base = u32_at(bytes, BASE_DIMENSION_AT);
    let n = entries(auto_adjust, stored_base);
    let base_dimension = stored_base as usize;
    Standing {
        basic_thresholder: thresholder_of(bytes),
        auto_adjust,
        run_length: u32_at(bytes, RUN_LENGTH_AT),
        base_dimension,
        counts_ok: counts_ok_of(bytes),
        last_actual: last_entry(bytes, ACTUAL_AT, n, base_dimension),
        last_expected: last_entry(bytes, EXPECTED_AT, n, base_dimension),
    }
}

// The whole state by value: 3 for a slice of another length, then 2 for a yes/no byte above 1.
#[tactic(auto, unfolding(crate::specs::Chain::read_state))]
pub fn read_state(bytes: &[u8]) -> Result<PredictorCorrector, Refusal>
    ensures { result ≡ Chain.read_state bytes.now }
{
    if bytes.len() == STATE_LENGTH {
        if state_codes_ok(bytes) {
            return Ok(state_of(bytes));
        }
        return Err(Refusal::Range);
    }
    Err(Refusal::Length)
}

// How it stands, refused likewise.
#[tactic(auto, unfolding(crate::specs::Chain::read_standing))]
pub fn read_standing(bytes: &[u8]) -> Result<Standing, Refusal>
    ensures { result ≡ Chain.read_standing bytes.now }
{
    if bytes.len() == STATE_LENGTH {
        if state_codes_ok(bytes) {
            return Ok(standing_of(bytes));
        }
        return Err(Refusal::Range);
    }
    Err(Refusal::Length)
}

// The first n entries of a list, written from `at` on; the bytes of those behind them stay.
fn put_list(out: &mut [u8], at: usize, list: [Deviation; 16], n: usize)
    requires few { n ≤ 16 }
    requires long { at + list_length ≤ length out.old }
    ensures { out.new ≡ Chain.list_over out.old at list n }
{
    for i in 0..n {
        put_deviation(out, at + DEVIATION_LENGTH * i, list[i]);
    }
}

// The first n entries of a list stored from `at` on, each changed in place by its number and what it holds.
fn change_list<F: Fn(usize, Deviation) -> Deviation>(out: &mut [u8], at: usize, n: usize, f: F)
    requires few { n ≤ 16 }
    requires long { at + list_length ≤ length out.old }
    requires callable { (i : ℕ) (d : Deviation) → i < n → F.pre f i d }
    ensures { (ds : List Deviation) → ((i : ℕ) (d : Deviation) → i < n → F.post f i (States.deviation_at out.old (at + deviation_length * i)) d → d ≡ slice_index_or ds i (fresh zero64))
        → out.new ≡ Chain.list_over out.old at ds n }
{
    for i in 0..n {
        let d = deviation_at(out, at + DEVIATION_LENGTH * i);
        put_deviation(out, at + DEVIATION_LENGTH * i, f(i, d));
    }
}

// Each read and written back: a NaN gets its one pattern.
fn settle_list(out: &mut [u8], at: usize, n: usize)
    requires few { n ≤ 16 }
    requires long { at + list_length ≤ length out.old }
    ensures { out.new ≡ Chain.list_over out.old at (Chain.list_at out.old at n) n }
{
    change_list(out, at, n, |_, d| d);
}

fn reset_list(out: &mut [u8], at: usize, n: usize)
    requires few { n ≤ 16 }
    requires long { at + list_length ≤ length out.old }
    ensures { out.new ≡ Chain.list_over out.old at (changed reset n (Chain.list_at out.old at n)) n }
{
    change_list(out, at, n, |_, d| d.reset());
}

// Each counts its number of a row.
fn count_list(out: &mut [u8], at: usize, n: usize, row: &[f32])
    requires few { n ≤ 16 }
    requires long { at + list_length ≤ length out.old }
    requires wide { n ≤ length row.now }
    ensures { out.new ≡ Chain.list_over out.old at (stepped counted n (Chain.list_at out.old at n) row.now) n }
{
    change_list(
        out,
        at,
        n,
        |i, d| d.counted(std::num::f32_to_f64_with_nan(row[i])),
    );
}

// `settle_list` for a base dimension: at most 16 entries.
#[tactic(auto, unfolding(crate::specs::Parts::row_kept_over))]
fn settle_row(out: &mut [u8], at: usize, base: usize)
    requires { at + list_length ≤ length out.old }
    ensures { out.new ≡ Parts.row_kept_over out.old at base }
{
    settle_list(out, at, base.min(16));
}

// What stands before the lists.
#[tactic(auto, using(crate::proofs::InPlace::head_pasted, crate::proofs::Words::flag_is))]
fn put_head(
    out: &mut [u8],
    t: BasicThresholder,
    auto_adjust: bool,
    run_length: u32,
    base_dimension: u32,
)
    requires { length out.old ≡ state_length }
    ensures { out.new ≡ Numbers.pasted out.old 0 (Parts.head t auto_adjust run_length base_dimension) }
{
    put_thresholder(out, t);
    out[AUTO_ADJUST_AT] = u8::from(auto_adjust);
    put_u32(out, RUN_LENGTH_AT, run_length);
    put_u32(out, BASE_DIMENSION_AT, base_dimension);
}

// A stored state with another thresholder and run length, the lists as they are. A slice of another length is left alone.
#[tactic(auto, using(crate::proofs::InPlace::kept_written, crate::proofs::InPlace::kept_none), unfolding(crate::specs::Numbers::written_of))]
pub fn write_kept(out: &mut [u8], t: BasicThresholder, run_length: u32)
    ensures { out.new ≡ Numbers.written_of state_length out.old (Chain.encode_state_over out.old (InPlace.kept (Chain.decode_state out.old) t run_length)) }
{
    if out.len() == STATE_LENGTH {
        let auto_adjust = flag_at(out, AUTO_ADJUST_AT);
        let base = u32_at(out, BASE_DIMENSION_AT);
        put_head(out, t, auto_adjust, run_length, base);
        if auto_adjust {
            settle_row(out, ACTUAL_AT, base as usize);
            settle_row(out, EXPECTED_AT, base as usize);
        }
    }
}

// ---- what a reading does to a stored state

// The score that the primary statistic counts: a height's is capped at 2.
#[tactic(auto, unfolding(crate::specs::Parts::primary_score))]
fn primary_score(strategy: ScoringStrategy, score: f32) -> f32
    ensures { result ≡ Parts.primary_score strategy score }
{
    if strategy.is_height() {
        return minf32(2.0, score);
    }
    score
}

// The secondary statistic counts heights alone.
#[tactic(auto, unfolding(crate::specs::Parts::second_after))]
fn second_after(strategy: ScoringStrategy, d: Deviation, x: f32) -> Deviation
    ensures { result ≡ Parts.second_after strategy d x }
{
    if strategy.is_height() {
        return d.counted(std::num::f32_to_f64_with_nan(x));
    }
    d
}

// A score counted in the stored thresholder. Its numbers are read and written where they stand: a thresholder handed on by value is copied each time.
#[tactic(auto, unfolding(crate::specs::Parts::scored, crate::specs::States::decode_thresholder))]
fn put_scored(out: &mut [u8], primary_score: f64, last_score: f32, secondary: Deviation)
    requires { thresholder_length ≤ length out.old }
    ensures { out.new ≡ Numbers.pasted out.old 0 (States.encode_thresholder (Parts.scored
        (States.decode_thresholder out.old) primary_score last_score secondary)) }
{
    let primary = deviation_at(out, PRIMARY_AT).counted(primary_score);
    let third = basicthresholder::counted_over(deviation_at(out, THIRD_AT), primary, last_score);
    let scored = BasicThresholder {
        elasticity: f32_at(out, ELASTICITY_AT),
        count: deviation::one_more(i32_at(out, COUNT_AT)),
        score_differencing: f32_at(out, SCORE_DIFFERENCING_AT),
        last_score,
        primary_deviation: primary,
        secondary_deviation: secondary,
        threshold_deviation: third,
        auto_threshold: flag_at(out, AUTO_THRESHOLD_AT),
        absolute_threshold: f32_at(out, ABSOLUTE_THRESHOLD_AT),
        absolute_score_fraction: f32_at(out, ABSOLUTE_SCORE_FRACTION_AT),
        lower_threshold: f32_at(out, LOWER_THRESHOLD_AT),
        factor_adjustment_threshold: f32_at(out, FACTOR_ADJUSTMENT_THRESHOLD_AT),
        initial_threshold: f32_at(out, INITIAL_THRESHOLD_AT),
        z_factor: f32_at(out, Z_FACTOR_AT),
    };
    put_thresholder(out, scored);
}

// `update_score` in the stored thresholder. The records go by reference: one by value is copied each time.
// The last score is the primary one as it is: `update_primary` widens it and narrows it again, which gives it back.
fn put_scores(out: &mut [u8], r: &Reading, l: &LastDescriptor, corrected: f32)
    requires long { thresholder_length ≤ length out.old }
    requires counts { counts_ok (States.decode_thresholder out.old) ≡ true }
    ensures { out.new ≡ Numbers.pasted out.old 0 (States.encode_thresholder (InPlace.scored (Chain.decode_state out.old) r.now l.now corrected)) }
{
    let primary = primary_score(r.scoring_strategy, r.score);
    let gap = corrected - predictorcorrector::height_score(l.scoring_strategy, l.score);
    let secondary = second_after(r.scoring_strategy, deviation_at(out, SECONDARY_AT), gap);
    put_scored(
        out,
        std::num::f32_to_f64_with_nan(primary),
        primary,
        secondary,
    );
}

// What stands before the lists, the scores having entered.
#[tactic(auto, using(crate::proofs::InPlace::head_pasted, crate::proofs::Words::flag_is))]
fn put_entered(
    out: &mut [u8],
    r: &Reading,
    l: &LastDescriptor,
    corrected: f32,
    auto_adjust: bool,
    run_length: u32,
    base_dimension: u32,
)
    requires { Parts.Taking out.old }
    ensures { out.new ≡ Numbers.pasted out.old 0 (Parts.head (InPlace.scored (Chain.decode_state out.old) r.now l.now corrected) auto_adjust run_length base_dimension) }
{
    put_scores(out, r, l, corrected);
    out[AUTO_ADJUST_AT] = u8::from(auto_adjust);
    put_u32(out, RUN_LENGTH_AT, run_length);
    put_u32(out, BASE_DIMENSION_AT, base_dimension);
}

#[tactic(auto, unfolding(crate::specs::InPlace::run_after))]
fn run_after(grows: bool, run_length: u32) -> u32
    ensures { result ≡ InPlace.run_after grows run_length }
{
    if grows {
        return predictorcorrector::longer_run(run_length);
    }
    run_length
}

// The scores enter, and the lists stay.
#[tactic(auto, using(crate::proofs::InPlace::entered_lists, crate::proofs::InPlace::entered_none), unfolding(crate::specs::InPlace::run_after))]
fn enter(out: &mut [u8], r: &Reading, l: &LastDescriptor, corrected: f32, grows: bool)
    requires { Parts.Taking out.old }
    ensures { out.new ≡ Chain.encode_state_over out.old (InPlace.entered (Chain.decode_state out.old)
        (InPlace.scored (Chain.decode_state out.old) r.now l.now corrected) grows) }
{
    let auto_adjust = flag_at(out, AUTO_ADJUST_AT);
    let base = u32_at(out, BASE_DIMENSION_AT);
    let run = run_after(grows, u32_at(out, RUN_LENGTH_AT));
    put_entered(out, r, l, corrected, auto_adjust, run, base);
    if auto_adjust {
        settle_list(out, ACTUAL_AT, base as usize);
        settle_list(out, EXPECTED_AT, base as usize);
    }
}

// With auto adjust the run ends too, and both lists are reset.
#[tactic(auto, using(crate::proofs::InPlace::ended_lists, crate::proofs::InPlace::ended_entered))]
fn end(out: &mut [u8], r: &Reading, l: &LastDescriptor, corrected: f32)
    requires { Parts.Taking out.old }
    ensures { out.new ≡ Chain.encode_state_over out.old (InPlace.ended (Chain.decode_state out.old)
        (InPlace.scored (Chain.decode_state out.old) r.now l.now corrected)) }
{
    let auto_adjust = flag_at(out, AUTO_ADJUST_AT);
    if auto_adjust {
        let base = u32_at(out, BASE_DIMENSION_AT);
        put_entered(out, r, l, corrected, auto_adjust, 0, base);
        reset_list(out, ACTUAL_AT, base as usize);
        reset_list(out, EXPECTED_AT, base as usize);
        return;
    }
    enter(out, r, l, corrected, false);
}

// Within a run with auto adjust the first list counts the oldest row, the first of the point, and the run is one longer.
#[tactic(auto, using(crate::proofs::InPlace::adjusted_lists, crate::proofs::InPlace::adjusted_entered))]
fn adjust(out: &mut [u8], r: &Reading, l: &LastDescriptor, corrected: f32, point: &[f32])
    requires taking { Parts.Taking out.old }
    requires wide { Numbers.le4 out.old base_dimension_at ≤ length point.now }
    ensures { out.new ≡ Chain.encode_state_over out.old (InPlace.adjusted (Chain.decode_state out.old)
        (InPlace.scored (Chain.decode_state out.old) r.now l.now corrected) point.now) }
{
    let auto_adjust = flag_at(out, AUTO_ADJUST_AT);
    let run = u32_at(out, RUN_LENGTH_AT);
    if auto_adjust & (0 < run) {
        let base = u32_at(out, BASE_DIMENSION_AT);
        let longer = predictorcorrector::longer_run(run);
        put_entered(out, r, l, corrected, auto_adjust, longer, base);
        count_list(out, ACTUAL_AT, base as usize, point);
        settle_list(out, EXPECTED_AT, base as usize);
        return;
    }
    enter(out, r, l, corrected, false);
}

// With auto adjust the lists count the newest rows of the point and of the expected point.
#[tactic(auto, using(crate::proofs::InPlace::counted_lists, crate::proofs::InPlace::counted_none))]
fn count(
    out: &mut [u8],
    r: &Reading,
    l: &LastDescriptor,
    corrected: f32,
    grows: bool,
    newest: &[f32],
    newest_expected: &[f32],
)
    requires taking { Parts.Taking out.old }
    requires wide { Numbers.le4 out.old base_dimension_at ≤ length newest.now }
    requires wide_expected { Numbers.le4 out.old base_dimension_at ≤ length newest_expected.now }
    ensures { out.new ≡ Chain.encode_state_over out.old (InPlace.counted (Chain.decode_state out.old)
        (InPlace.scored (Chain.decode_state out.old) r.now l.now corrected) grows
        newest.now newest_expected.now) }
{
    let auto_adjust = flag_at(out, AUTO_ADJUST_AT);
    let base = u32_at(out, BASE_DIMENSION_AT);
    let run = run_after(grows, u32_at(out, RUN_LENGTH_AT));
    put_entered(out, r, l, corrected, auto_adjust, run, base);
    if auto_adjust {
        count_list(out, ACTUAL_AT, base as usize, newest);
        count_list(out, EXPECTED_AT, base as usize, newest_expected);
    }
}

// The smallest refusal of a reading that a stored state meets: 2, 3, 6. `lengths` is whether the caller's other slices fit.
#[tactic(auto, using(crate::proofs::Answered::fitting, crate::proofs::Answered::misfit, crate::proofs::Answered::other_length, crate::proofs::InPlace::base_is), unfolding(crate::specs::InPlace::reading_answer))]
pub fn reading_answer(bytes: &[u8], r: Reading, lengths: bool) -> Result<(), Refusal>
    ensures { result ≡ InPlace.reading_answer bytes.now r lengths }
{
    if state_codes_ok(bytes) {
        if bytes.len() == STATE_LENGTH {
            let base = size_at(bytes, BASE_DIMENSION_AT);
            let fits = descriptor::range_ok(r.shingle_size, r.base_dimension, base);
            if fits & lengths {
                return Refusal::of_fitting(true, true, counts_ok_of(bytes));
            }
            return Err(Refusal::of_misfit(fits));
        }
        let fits = descriptor::sizes_ok(r.shingle_size, r.base_dimension);
        return Err(Refusal::of_misfit(fits));
    }
    Err(Refusal::Range)
}

// The run length of a stored state; 0 of a slice of another length.
#[tactic(auto, unfolding(crate::specs::InPlace::stored_run, crate::specs::Chain::decode_state))]
pub fn run_length(bytes: &[u8]) -> u32
    ensures { result ≡ InPlace.stored_run bytes.now }
{
    if bytes.len() == STATE_LENGTH {
        return u32_at(bytes, RUN_LENGTH_AT);
    }
    0
}

// Each of these enters a reading's scores in a stored state, `corrected` being the corrected point's; what it does to run and lists is said above. A refused one
// leaves every byte alone.
#[tactic(auto, using(crate::proofs::InPlace::fitting), unfolding(crate::specs::InPlace::stored_by))]
pub fn write_entered(
    out: &mut [u8],
    r: Reading,
    l: LastDescriptor,
    corrected: f32,
    grows: bool,
) -> Result<(), Refusal>
    ensures answer { result ≡ InPlace.reading_answer out.old r true }
    ensures stored { out.new ≡ InPlace.stored_by (InPlace.reading_answer out.old r true)
        out.old (InPlace.entered (Chain.decode_state out.old) (InPlace.scored (Chain.decode_state out.old) r l corrected) grows) }
{
    let answer = reading_answer(out, r, true);
    match answer {
        Ok(()) => {
            enter(out, &r, &l, corrected, grows);
            answer
        }
        Err(_) => answer,
    }
}

#[tactic(auto, using(crate::proofs::InPlace::fitting), unfolding(crate::specs::InPlace::stored_by))]
pub fn write_ended(
    out: &mut [u8],
    r: Reading,
    l: LastDescriptor,
    corrected: f32,
) -> Result<(), Refusal>
    ensures answer { result ≡ InPlace.reading_answer out.old r true }
    ensures stored { out.new ≡ InPlace.stored_by (InPlace.reading_answer out.old r true)
        out.old (InPlace.ended (Chain.decode_state out.old) (InPlace.scored (Chain.decode_state out.old) r l corrected)) }
{
    let answer = reading_answer(out, r, true);
    match answer {
        Ok(()) => {
            end(out, &r, &l, corrected);
            answer
        }
        Err(_) => answer,
    }
}

// `update_auto_adjust`.
#[tactic(auto, using(crate::proofs::InPlace::fitting), unfolding(crate::specs::InPlace::stored_by))]
pub fn write_adjusted(
    out: &mut [u8],
    r: Reading,
    l: LastDescriptor,
    corrected: f32,
    point: &[f32],
) -> Result<(), Refusal>
    ensures answer { result ≡ InPlace.reading_answer out.old r (InPlace.row_in_point r (length point.now)) }
    ensures stored { out.new ≡ InPlace.stored_by (InPlace.reading_answer out.old r (InPlace.row_in_point r (length point.now)))
        out.old (InPlace.adjusted (Chain.decode_state out.old) (InPlace.scored (Chain.decode_state out.old) r l corrected) point.now) }
{
    let answer = reading_answer(out, r, r.base_dimension <= point.len());
    match answer {
        Ok(()) => {
            adjust(out, &r, &l, corrected, point);
            answer
        }
        Err(_) => answer,
    }
}

// The candidate branch.
#[tactic(auto, using(crate::proofs::InPlace::fitting), unfolding(crate::specs::InPlace::rows_fit, crate::specs::InPlace::stored_by))]
pub fn write_counted(
    out: &mut [u8],
    r: Reading,
    l: LastDescriptor,
    corrected: f32,
    grows: bool,
    newest: &[f32],
    newest_expected: &[f32],
) -> Result<(), Refusal>
    ensures answer { result ≡ InPlace.reading_answer out.old r (InPlace.rows_fit r (length newest.now) (length newest_expected.now)) }
    ensures stored { out.new ≡ InPlace.stored_by (InPlace.reading_answer out.old r (InPlace.rows_fit r (length newest.now) (length newest_expected.now)))
        out.old (InPlace.counted (Chain.decode_state out.old) (InPlace.scored (Chain.decode_state out.old) r l corrected) grows newest.now newest_expected.now) }
{
    let answer = reading_answer(
        out,
        r,
        (r.base_dimension <= newest.len()) & (r.base_dimension <= newest_expected.len()),
    );
    match answer {
        Ok(()) => {
            count(out, &r, &l, corrected, grows, newest, newest_expected);
            answer
        }
        Err(_) => answer,
    }
}

#[tactic(auto, using(crate::proofs::Rows::state_pasted, crate::proofs::InPlace::head_same), unfolding(crate::specs::Numbers::written_of))]
pub fn write_state(out: &mut [u8], s: PredictorCorrector)
    ensures { out.new ≡ Numbers.written_of state_length out.old (Chain.encode_state_over out.old s) }
{
    if out.len() == STATE_LENGTH {
        let n = entries(s.auto_adjust, s.base_dimension);
        let actual = s.deviations_actual;
        let expected = s.deviations_expected;
        put_head(
            out,
            s.basic_thresholder,
            s.auto_adjust,
            s.run_length,
            s.base_dimension,
        );
        put_list(out, ACTUAL_AT, actual, n);
        put_list(out, EXPECTED_AT, expected, n);
    }
}

// Code 0 is the height strategy's, and any other is taken for DISTANCE; a method's code outside its list for NONE. Such codes are refused first.
#[tactic(auto, unfolding(crate::specs::Readings::strategy_from))]
fn strategy_of(code: u8) -> ScoringStrategy
    ensures { result ≡ Readings.strategy_from code }
{
    if code == 0 {
        return ScoringStrategy::EXPECTED_INVERSE_HEIGHT;
    }
    ScoringStrategy::DISTANCE
}

#[tactic(auto, unfolding(crate::specs::Readings::method_from))]
fn method_of(code: u8) -> TransformMethod
    ensures { result ≡ Readings.method_from (Codes.method_of code) }
{
    match TransformMethod::try_from(code) {
        Ok(m) => m,
        Err(_) => TransformMethod::NONE,
    }
}

fn size_at(bytes: &[u8], at: usize) -> usize
    requires { at + 4 ≤ length bytes.now }
    ensures { result ≡ Numbers.le4 bytes.now at }
{
    u32_at(bytes, at) as usize
}

#[tactic(auto, unfolding(crate::specs::Readings::decode_reading))]
fn reading_of(bytes: &[u8]) -> Reading
    requires { length bytes.now ≡ reading_length }
    ensures { result ≡ Readings.decode_reading bytes.now }
{
    let strategy = strategy_of(bytes[STRATEGY_AT]);
    let method = method_of(bytes[METHOD_AT]);
    Reading {
        shingle_size: size_at(bytes, SHINGLE_SIZE_AT),
        base_dimension: size_at(bytes, READING_BASE_AT),
        scoring_strategy: strategy,
        transform_method: method,
        time_augmented: flag_at(bytes, TIME_AUGMENTED_AT),
        values_seen: size_at(bytes, VALUES_SEEN_AT),
        score: f32_at(bytes, SCORE_AT),
        corrected_score: f32_at(bytes, CORRECTED_SCORE_AT),
    }
}

// Strategy, method and the yes/no of time augmentation are in their lists. Nothing inside a slice of another length is looked at.
#[tactic(auto, unfolding(crate::specs::Readings::reading_codes_ok))]
pub fn reading_codes_ok(bytes: &[u8]) -> bool
    ensures { result ≡ Readings.reading_codes_ok bytes.now }
{
    if bytes.len() == READING_LENGTH {
        return (bytes[STRATEGY_AT] <= 1)
            & ((bytes[METHOD_AT] <= 5) & (bytes[TIME_AUGMENTED_AT] <= 1));
    }
    true
}

#[tactic(auto, unfolding(crate::specs::Readings::decode_anomaly))]
fn anomaly_of(bytes: &[u8]) -> LastAnomaly
    requires { length bytes.now ≡ last_length }
    ensures { result ≡ Readings.decode_anomaly bytes.now }
{
    LastAnomaly {
        relative_index: i32_at(bytes, ANOMALY_INDEX_AT),
        values_seen: size_at(bytes, ANOMALY_SEEN_AT),
        has_attribution: flag_at(bytes, HAS_ATTRIBUTION_AT),
        score: f32_at(bytes, ANOMALY_SCORE_AT),
    }
}

#[tactic(auto, unfolding(crate::specs::Readings::decode_last))]
fn last_of(bytes: &[u8]) -> LastDescriptor
    requires { length bytes.now ≡ last_length }
    ensures { result ≡ Readings.decode_last bytes.now }
{
    let strategy = strategy_of(bytes[LAST_STRATEGY_AT]);
    let anomaly = anomaly_of(bytes);
    LastDescriptor {
        scoring_strategy: strategy,
        score: f32_at(bytes, LAST_DESCRIPTOR_SCORE_AT),
        threshold: f32_at(bytes, LAST_THRESHOLD_AT),
        has_anomaly: flag_at(bytes, HAS_ANOMALY_AT),
        anomaly,
    }
}

// Strategy and the yes/no of an anomaly are in their lists, behind a yes that of its attribution too. Nothing inside a slice of another length is looked at.
#[tactic(auto, unfolding(crate::specs::Readings::last_codes_ok))]
pub fn last_codes_ok(bytes: &[u8]) -> bool
    ensures { result ≡ Readings.last_codes_ok bytes.now }
{
    if bytes.len() == LAST_LENGTH {
        return (bytes[LAST_STRATEGY_AT] <= 1)
            & ((bytes[HAS_ANOMALY_AT] <= 1)
                & ((bytes[HAS_ANOMALY_AT] == 0) | (bytes[HAS_ATTRIBUTION_AT] <= 1)));
    }
    true
}

// The codes and yes/no bytes of all three.
#[tactic(auto, unfolding(crate::specs::Call::codes_ok))]
fn codes_ok(state: &[u8], reading: &[u8], last: &[u8]) -> bool
    ensures { result ≡ Call.codes_ok state.now reading.now last.now }
{
    state_codes_ok(state) & (reading_codes_ok(reading) & last_codes_ok(last))
}

// The sizes, as far as the slices can be read.
#[tactic(auto, unfolding(crate::specs::Call::sizes_fit, crate::specs::Readings::decode_reading, crate::specs::Chain::decode_state))]
fn sizes_fit(state: &[u8], reading: &[u8]) -> bool
    ensures { result ≡ Call.sizes_fit state.now reading.now }
{
    if reading.len() == READING_LENGTH {
        let shingle_size = size_at(reading, SHINGLE_SIZE_AT);
        let base = size_at(reading, READING_BASE_AT);
        if state.len() == STATE_LENGTH {
            return descriptor::range_ok(shingle_size, base, size_at(state, BASE_DIMENSION_AT));
        }
        return descriptor::sizes_ok(shingle_size, base);
    }
    if state.len() == STATE_LENGTH {
        return descriptor::sizes_ok(1, size_at(state, BASE_DIMENSION_AT));
    }
    true
}

// What a call reads of all three: 2 for a code or a yes/no byte in a slice that can be read; where a slice has another length, 2 for such a size, then 3. `out` is
// whether the one that the call writes has its length. Where all have theirs, the call behind tests the sizes.
#[tactic(auto, unfolding(crate::specs::Call::read_call, crate::specs::Call::slices_ok))]
pub fn read_call(state: &[u8], reading: &[u8], last: &[u8], out: bool) -> Result<CallRead, Refusal>
    ensures { result ≡ Call.read_call state.now reading.now last.now out }
{
    if codes_ok(state, reading, last) {
        if (state.len() == STATE_LENGTH)
            & ((reading.len() == READING_LENGTH) & ((last.len() == LAST_LENGTH) & out))
        {
            return Ok(CallRead {
                standing: standing_of(state),
                reading: reading_of(reading),
                last: last_of(last),
            });
        }
        return Err(Refusal::of_misfit(sizes_fit(state, reading)));
    }
    Err(Refusal::Range)
}

// A verdict by its parts; kind and mode are numbers, as C reads them.
#[tactic(auto, using(crate::proofs::Pasting::verdict_pasted), unfolding(crate::specs::Numbers::written_of))]
pub fn write_verdict(
    out: &mut [u8],
    kind: u8,
    mode: u8,
    threshold: f32,
    grade: f32,
    relative_index: i32,
)
    ensures { out.new ≡ Numbers.written_of verdict_length out.old (Readings.verdict_bytes kind mode threshold grade relative_index) }
{
    if out.len() == VERDICT_LENGTH {
        out[KIND_AT] = kind;
        out[MODE_AT] = mode;
        put_f32(out, THRESHOLD_AT, threshold);
        put_f32(out, THRESHOLD_AT + 4, grade);
        put_i32(out, RELATIVE_INDEX_AT, relative_index);
    }
}
