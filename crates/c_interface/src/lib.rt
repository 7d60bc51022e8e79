// The library's functions for a host that calls over C: numbers, and byte slices (a pointer, then a length). A state is its bytes, as the crate layout has them.
// A call that can refuse answers document 01's number, 0 where it is done; a refused one has written nothing.
#![tactic(auto)]

ghost use Rattle.std.specs.Prelude.{◌≡◌, eqb, length, pos};
ghost use Rattle.std.specs.Float.{binary32, binary64};
ghost use Rattle.std.specs.Float.Ieee.{of_bits, to_bits, of_int};
ghost use Rattle.ieee.specs.Round as Round;
ghost use Rattle.util.specs.Util as Util;
ghost use Rattle.types.specs.Codes.{method_of};
ghost use Rattle.deviation.specs.Statistics as Statistics;
ghost use Rattle.basicthresholder.specs.Grades as Grades;
ghost use Rattle.basicthresholder.specs.Updates as Updates;
ghost use Rattle.layout.specs.Places.{deviation_length, thresholder_length};
ghost use Rattle.layout.specs.Numbers.{f32_bytes, flag_bytes};
ghost use Rattle.layout.specs.States.{encode_deviation, encode_thresholder, encode_graded, read_deviation, read_thresholder};
ghost use Rattle.layout.specs.Left.{left, put_into};
ghost use Rattle.c_interface.specs.Calls.{deviation_made, deviation_stored, deviation_changed, deviation_done, deviation_read, measured_over, thresholder_made, thresholder_stored, thresholder_changed, thresholder_done, thresholder_read, graded_by};

use basicthresholder::{BasicThresholder, Graded};
use deviation::Deviation;
use types::{TransformMethod, Updated};

// Document 01's refusals of a yes/no byte or a code, and of a length: numbers, as C is told them.
const RANGE: u8 = 2;

const LENGTH: u8 = 3;

pub fn krcf_sqrt(x: f64) -> f64
    ensures { result ≡ Round.sqrt x }
{
    ieee::sqrt(x)
}

pub fn krcf_floor(x: f32) -> f32
    ensures { result ≡ Round.floor x }
{
    ieee::floor(x)
}

pub fn krcf_narrow(x: f64) -> f32
    ensures { result ≡ Round.narrow x }
{
    ieee::narrow(x)
}

pub fn krcf_widen(x: f32) -> f64
    ensures { result ≡ x }
{
    ieee::widen(x)
}

pub fn krcf_f32_from_bits(n: u32) -> f32
    ensures { result ≡ of_bits binary32 n }
{
    ieee::f32_from_bits(n)
}

pub fn krcf_f64_from_bits(n: u64) -> f64
    ensures { result ≡ of_bits binary64 n }
{
    ieee::f64_from_bits(n)
}

pub fn krcf_f32_to_bits(x: f32) -> u32
    ensures { result ≡ to_bits binary32 x }
{
    ieee::f32_to_bits(x)
}

pub fn krcf_f64_to_bits(x: f64) -> u64
    ensures { result ≡ to_bits binary64 x }
{
    ieee::f64_to_bits(x)
}

pub fn krcf_i32_to_f32(n: i32) -> f32
    ensures { result ≡ of_int binary32 n }
{
    ieee::i32_to_f32(n)
}

pub fn krcf_i32_to_f64(n: i32) -> f64
    ensures { result ≡ of_int binary64 n }
{
    ieee::i32_to_f64(n)
}

pub fn krcf_u32_to_f32(n: u32) -> f32
    ensures { result ≡ of_int binary32 (pos n) }
{
    ieee::u32_to_f32(n)
}

pub fn krcf_usize_to_f64(n: usize) -> f64
    ensures { result ≡ of_int binary64 (pos n) }
{
    ieee::usize_to_f64(n)
}

pub fn krcf_maxf32(a: f32, b: f32) -> f32
    ensures { result ≡ Util.maxf32 a b }
{
    util::maxf32(a, b)
}

pub fn krcf_minf32(a: f32, b: f32) -> f32
    ensures { result ≡ Util.minf32 a b }
{
    util::minf32(a, b)
}

pub fn krcf_absf32(a: f32) -> f32
    ensures { result ≡ Util.absf32 a }
{
    util::absf32(a)
}

// Each `put_` writes a slice of its length, or refuses it by 3.
fn put_f32(out: &mut [u8], x: f32) -> u8
    ensures { left result out.new ≡ put_into 4 out.old (f32_bytes x) }
{
    if out.len() == 4 {
        layout::write_f32(out, x);
        return 0;
    }
    LENGTH
}

fn put_flag(out: &mut [u8], b: bool) -> u8
    ensures { left result out.new ≡ put_into 1 out.old (flag_bytes b) }
{
    if out.len() == 1 {
        layout::write_flag(out, b);
        return 0;
    }
    LENGTH
}

// A yes and the number; or a no, and what stands behind it is left alone.
fn write_measured(out: &mut [u8], m: Option<f64>)
    requires { length out.old ≡ 9 }
    ensures { out.new ≡ measured_over m out.old }
{
    match m {
        None => {
            out[0] = 0;
        }
        Some(x) => {
            layout::write_f64(&mut out[1..9], x);
            out[0] = 1;
        }
    }
}

fn put_measured(out: &mut [u8], m: Option<f64>) -> u8
    ensures { left result out.new ≡ put_into 9 out.old (measured_over m out.old) }
{
    if out.len() == 9 {
        write_measured(out, m);
        return 0;
    }
    LENGTH
}

fn put_graded(out: &mut [u8], g: Graded) -> u8
    ensures { left result out.new ≡ put_into 8 out.old (encode_graded g) }
{
    if out.len() == 8 {
        layout::write_graded(out, g);
        return 0;
    }
    LENGTH
}

fn put_deviation(out: &mut [u8], d: Deviation) -> u8
    ensures { left result out.new ≡ put_into deviation_length out.old (encode_deviation d) }
{
    if out.len() == layout::DEVIATION_LENGTH {
        layout::write_deviation(out, d);
        return 0;
    }
    LENGTH
}

fn put_thresholder(out: &mut [u8], s: BasicThresholder) -> u8
    ensures { left result out.new ≡ put_into thresholder_length out.old (encode_thresholder s) }
{
    if out.len() == layout::THRESHOLDER_LENGTH {
        layout::write_thresholder(out, s);
        return 0;
    }
    LENGTH
}

// Writes what a change of a slice's state handed back, unless the change is refused.
fn store_deviation(state: &mut [u8], u: Updated<Deviation>) -> u8
    ensures { left result state.new ≡ deviation_stored u state.old }
{
    let answer = u.answer;
    let after = u.state;
    match answer {
        Ok(()) => put_deviation(state, after),
        Err(why) => why.number(),
    }
}

fn store_thresholder(state: &mut [u8], u: Updated<BasicThresholder>) -> u8
    ensures { left result state.new ≡ thresholder_stored u state.old }
{
    let answer = u.answer;
    let after = u.state;
    match answer {
        Ok(()) => put_thresholder(state, after),
        Err(why) => why.number(),
    }
}

pub fn krcf_deviation_new(discount: f64, out: &mut [u8]) -> u8
    ensures { left result out.new ≡ deviation_made (Statistics.new discount) out.old }
{
    match Deviation::new(discount) {
        Ok(d) => put_deviation(out, d),
        Err(why) => why.number(),
    }
}

pub fn krcf_deviation_update(state: &mut [u8], score: f64) -> u8
    ensures { left result state.new ≡ deviation_changed (λ d. Statistics.update d score) (read_deviation state.old) state.old }
{
    match layout::read_deviation(state) {
        Ok(d) => store_deviation(state, d.update(score)),
        Err(why) => why.number(),
    }
}

pub fn krcf_deviation_reset(state: &mut [u8]) -> u8
    ensures { left result state.new ≡ deviation_changed (λ d. deviation_done (Statistics.reset d)) (read_deviation state.old) state.old }
{
    match layout::read_deviation(state) {
        Ok(d) => store_deviation(
            state,
            Updated {
                answer: Ok(()),
                state: d.reset(),
            },
        ),
        Err(why) => why.number(),
    }
}

pub fn krcf_deviation_mean(state: &[u8], out: &mut [u8]) -> u8
    ensures { left result out.new ≡ deviation_read (λ d. measured_over (Statistics.measured_mean d) out.old) 9 (read_deviation state.now) out.old }
{
    match layout::read_deviation(state) {
        Ok(d) => put_measured(out, d.mean()),
        Err(why) => why.number(),
    }
}

pub fn krcf_deviation_deviation(state: &[u8], out: &mut [u8]) -> u8
    ensures { left result out.new ≡ deviation_read (λ d. measured_over (Statistics.measured_deviation d) out.old) 9 (read_deviation state.now) out.old }
{
    match layout::read_deviation(state) {
        Ok(d) => put_measured(out, d.deviation()),
        Err(why) => why.number(),
    }
}

pub fn krcf_deviation_is_empty(state: &[u8], out: &mut [u8]) -> u8
    ensures { left result out.new ≡ deviation_read (λ d. flag_bytes (Statistics.is_empty d)) 1 (read_deviation state.now) out.old }
{
    match layout::read_deviation(state) {
        Ok(d) => put_flag(out, d.is_empty()),
        Err(why) => why.number(),
    }
}

pub fn krcf_thresholder_new(discount: f64, adjust: u8, out: &mut [u8]) -> u8
    ensures { left result out.new ≡ thresholder_made (Updates.new_adjustible discount (eqb adjust 1)) adjust out.old }
{
    match BasicThresholder::new_adjustible(discount, adjust == 1) {
        Ok(s) => {
            if adjust <= 1 {
                return put_thresholder(out, s);
            }
            RANGE
        }
        Err(why) => why.number(),
    }
}

pub fn krcf_thresholder_is_deviation_ready(state: &[u8], out: &mut [u8]) -> u8
    ensures { left result out.new ≡ thresholder_read (λ s. flag_bytes (Grades.is_deviation_ready s)) 1 (read_thresholder state.now) out.old }
{
    match layout::read_thresholder(state) {
        Ok(s) => put_flag(out, s.is_deviation_ready()),
        Err(why) => why.number(),
    }
}

pub fn krcf_threshold(state: &[u8], out: &mut [u8]) -> u8
    ensures { left result out.new ≡ thresholder_read (λ s. f32_bytes (Grades.threshold s)) 4 (read_thresholder state.now) out.old }
{
    match layout::read_thresholder(state) {
        Ok(s) => put_f32(out, s.threshold()),
        Err(why) => why.number(),
    }
}

pub fn krcf_primary_grade(state: &[u8], score: f32, out: &mut [u8]) -> u8
    ensures { left result out.new ≡ thresholder_read (λ s. f32_bytes (Grades.primary_grade s score)) 4 (read_thresholder state.now) out.old }
{
    match layout::read_thresholder(state) {
        Ok(s) => put_f32(out, s.primary_grade(score)),
        Err(why) => why.number(),
    }
}

pub fn krcf_primary_threshold_and_grade(state: &[u8], score: f32, out: &mut [u8]) -> u8
    ensures { left result out.new ≡ thresholder_read (λ s. encode_graded (Grades.primary_threshold_and_grade s score)) 8 (read_thresholder state.now) out.old }
{
    match layout::read_thresholder(state) {
        Ok(s) => put_graded(out, s.primary_threshold_and_grade(score)),
        Err(why) => why.number(),
    }
}

pub fn krcf_threshold_and_grade(
    state: &[u8],
    score: f32,
    method: u8,
    shingle_size: usize,
    out: &mut [u8],
) -> u8
    ensures { left result out.new ≡ graded_by (λ s m. Grades.threshold_and_grade s score m shingle_size) (method_of method) (read_thresholder state.now) out.old }
{
    match TransformMethod::try_from(method) {
        Ok(m) => match layout::read_thresholder(state) {
            Ok(s) => put_graded(out, s.threshold_and_grade(score, m, shingle_size)),
            Err(why) => why.number(),
        },
        Err(why) => why.number(),
    }
}

pub fn krcf_threshold_and_grade_with_factor(
    state: &[u8],
    score: f32,
    factor: f32,
    method: u8,
    shingle_size: usize,
    out: &mut [u8],
) -> u8
    ensures { left result out.new ≡ graded_by (λ s m. Grades.threshold_and_grade_with_factor s score factor m shingle_size) (method_of method) (read_thresholder state.now) out.old }
{
    match TransformMethod::try_from(method) {
        Ok(m) => match layout::read_thresholder(state) {
            Ok(s) => put_graded(
                out,
                s.threshold_and_grade_with_factor(score, factor, m, shingle_size),
            ),
            Err(why) => why.number(),
        },
        Err(why) => why.number(),
    }
}

pub fn krcf_update_threshold(state: &mut [u8], score: f32) -> u8
    ensures { left result state.new ≡ thresholder_changed (λ s. Updates.update_threshold s score) (read_thresholder state.old) state.old }
{
    match layout::read_thresholder(state) {
        Ok(s) => store_thresholder(state, s.update_threshold(score)),
        Err(why) => why.number(),
    }
}

pub fn krcf_update_primary(state: &mut [u8], score: f64) -> u8
    ensures { left result state.new ≡ thresholder_changed (λ s. Updates.update_primary s score) (read_thresholder state.old) state.old }
{
    match layout::read_thresholder(state) {
        Ok(s) => store_thresholder(state, s.update_primary(score)),
        Err(why) => why.number(),
    }
}

pub fn krcf_update_both(state: &mut [u8], primary: f32, secondary: f32) -> u8
    ensures { left result state.new ≡ thresholder_changed (λ s. Updates.update_both s primary secondary) (read_thresholder state.old) state.old }
{
    match layout::read_thresholder(state) {
        Ok(s) => store_thresholder(state, s.update_both(primary, secondary)),
        Err(why) => why.number(),
    }
}

pub fn krcf_update(state: &mut [u8], primary: f32, secondary: f32, last_score: f32) -> u8
    ensures { left result state.new ≡ thresholder_changed (λ s. Updates.update s primary secondary last_score) (read_thresholder state.old) state.old }
{
    match layout::read_thresholder(state) {
        Ok(s) => store_thresholder(state, s.update(primary, secondary, last_score)),
        Err(why) => why.number(),
    }
}

pub fn krcf_set_score_differencing(state: &mut [u8], horizon: f32) -> u8
    ensures { left result state.new ≡ thresholder_changed (λ s. Updates.set_score_differencing s horizon) (read_thresholder state.old) state.old }
{
    match layout::read_thresholder(state) {
        Ok(s) => store_thresholder(state, s.set_score_differencing(horizon)),
        Err(why) => why.number(),
    }
}

// A change that is never refused.
fn done(s: BasicThresholder) -> Updated<BasicThresholder>
    ensures { result ≡ thresholder_done s }
{
    Updated {
        answer: Ok(()),
        state: s,
    }
}

pub fn krcf_set_z_factor(state: &mut [u8], factor: f32) -> u8
    ensures { left result state.new ≡ thresholder_changed (λ s. thresholder_done (Updates.with_z_factor s factor)) (read_thresholder state.old) state.old }
{
    match layout::read_thresholder(state) {
        Ok(s) => store_thresholder(state, done(s.set_z_factor(factor))),
        Err(why) => why.number(),
    }
}

pub fn krcf_set_lower_threshold(state: &mut [u8], lower: f32) -> u8
    ensures { left result state.new ≡ thresholder_changed (λ s. thresholder_done (Updates.with_lower_threshold s lower)) (read_thresholder state.old) state.old }
{
    match layout::read_thresholder(state) {
        Ok(s) => store_thresholder(state, done(s.set_lower_threshold(lower))),
        Err(why) => why.number(),
    }
}

pub fn krcf_set_absolute_threshold(state: &mut [u8], value: f32) -> u8
    ensures { left result state.new ≡ thresholder_changed (λ s. thresholder_done (Updates.with_absolute_threshold s value)) (read_thresholder state.old) state.old }
{
    match layout::read_thresholder(state) {
        Ok(s) => store_thresholder(state, done(s.set_absolute_threshold(value))),
        Err(why) => why.number(),
    }
}

pub fn krcf_set_initial_threshold(state: &mut [u8], initial: f32) -> u8
    ensures { left result state.new ≡ thresholder_changed (λ s. thresholder_done (Updates.with_initial_threshold s initial)) (read_thresholder state.old) state.old }
{
    match layout::read_thresholder(state) {
        Ok(s) => store_thresholder(state, done(s.set_initial_threshold(initial))),
        Err(why) => why.number(),
    }
}
