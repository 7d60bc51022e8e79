// The C functions of the crate c_interface, exported: each calls the library's function of its name and keeps its contract. The kit takes a crate as a library or as a static library, so C needs both.
#![tactic(auto)]

ghost use Rattle.std.specs.Prelude.{◌≡◌, eqb, length, pos};
ghost use Rattle.std.specs.Float.{binary32, binary64};
ghost use Rattle.std.specs.Float.Ieee.{of_bits, to_bits, of_int};
ghost use Rattle.ieee.specs.Round as Round;
ghost use Rattle.util.specs.Util as Util;
ghost use Rattle.types.specs.Codes.{method_of};
ghost use Rattle.deviation.specs.Statistics as Statistics;
ghost use Rattle.basicthresholder.specs.Grades as Grades;
ghost use Rattle.basicthresholder.specs.Updates as Updates;
ghost use Rattle.layout.specs.Places.{deviation_length, thresholder_length};
ghost use Rattle.layout.specs.Numbers.{f32_bytes, flag_bytes};
ghost use Rattle.layout.specs.States.{encode_deviation, encode_thresholder, encode_graded, read_deviation, read_thresholder};
ghost use Rattle.layout.specs.Left.{left, put_into};
ghost use Rattle.c_interface.specs.Calls.{deviation_made, deviation_stored, deviation_changed, deviation_done, deviation_read, measured_over, thresholder_made, thresholder_stored, thresholder_changed, thresholder_done, thresholder_read, graded_by};

#[unsafe(no_mangle)]
pub extern "C" fn krcf_sqrt(x: f64) -> f64
    ensures { result ≡ Round.sqrt x }
{
    c_interface::krcf_sqrt(x)
}

#[unsafe(no_mangle)]
pub extern "C" fn krcf_floor(x: f32) -> f32
    ensures { result ≡ Round.floor x }
{
    c_interface::krcf_floor(x)
}

#[unsafe(no_mangle)]
pub extern "C" fn krcf_narrow(x: f64) -> f32
    ensures { result ≡ Round.narrow x }
{
    c_interface::krcf_narrow(x)
}

#[unsafe(no_mangle)]
pub extern "C" fn krcf_widen(x: f32) -> f64
    ensures { result ≡ x }
{
    c_interface::krcf_widen(x)
}

#[unsafe(no_mangle)]
pub extern "C" fn krcf_f32_from_bits(n: u32) -> f32
    ensures { result ≡ of_bits binary32 n }
{
    c_interface::krcf_f32_from_bits(n)
}

#[unsafe(no_mangle)]
pub extern "C" fn krcf_f64_from_bits(n: u64) -> f64
    ensures { result ≡ of_bits binary64 n }
{
    c_interface::krcf_f64_from_bits(n)
}

#[unsafe(no_mangle)]
pub extern "C" fn krcf_f32_to_bits(x: f32) -> u32
    ensures { result ≡ to_bits binary32 x }
{
    c_interface::krcf_f32_to_bits(x)
}

#[unsafe(no_mangle)]
pub extern "C" fn krcf_f64_to_bits(x: f64) -> u64
    ensures { result ≡ to_bits binary64 x }
{
    c_interface::krcf_f64_to_bits(x)
}

#[unsafe(no_mangle)]
pub extern "C" fn krcf_i32_to_f32(n: i32) -> f32
    ensures { result ≡ of_int binary32 n }
{
    c_interface::krcf_i32_to_f32(n)
}

#[unsafe(no_mangle)]
pub extern "C" fn krcf_i32_to_f64(n: i32) -> f64
    ensures { result ≡ of_int binary64 n }
{
    c_interface::krcf_i32_to_f64(n)
}

#[unsafe(no_mangle)]
pub extern "C" fn krcf_u32_to_f32(n: u32) -> f32
    ensures { result ≡ of_int binary32 (pos n) }
{
    c_interface::krcf_u32_to_f32(n)
}

#[unsafe(no_mangle)]
pub extern "C" fn krcf_usize_to_f64(n: usize) -> f64
    ensures { result ≡ of_int binary64 (pos n) }
{
    c_interface::krcf_usize_to_f64(n)
}

#[unsafe(no_mangle)]
pub extern "C" fn krcf_maxf32(a: f32, b: f32) -> f32
    ensures { result ≡ Util.maxf32 a b }
{
    c_interface::krcf_maxf32(a, b)
}

#[unsafe(no_mangle)]
pub extern "C" fn krcf_minf32(a: f32, b: f32) -> f32
    ensures { result ≡ Util.minf32 a b }
{
    c_interface::krcf_minf32(a, b)
}

#[unsafe(no_mangle)]
pub extern "C" fn krcf_absf32(a: f32) -> f32
    ensures { result ≡ Util.absf32 a }
{
    c_interface::krcf_absf32(a)
}

#[unsafe(no_mangle)]
pub extern "C" fn krcf_deviation_new(discount: f64, out: &mut [u8]) -> u8
    ensures { left result out.new ≡ deviation_made (Statistics.new discount) out.old }
{
    c_interface::krcf_deviation_new(discount, out)
}

#[unsafe(no_mangle)]
pub extern "C" fn krcf_deviation_update(state: &mut [u8], score: f64) -> u8
    ensures { left result state.new ≡ deviation_changed (λ d. Statistics.update d score) (read_deviation state.old) state.old }
{
    c_interface::krcf_deviation_update(state, score)
}

#[unsafe(no_mangle)]
pub extern "C" fn krcf_deviation_reset(state: &mut [u8]) -> u8
    ensures { left result state.new ≡ deviation_changed (λ d. deviation_done (Statistics.reset d)) (read_deviation state.old) state.old }
{
    c_interface::krcf_deviation_reset(state)
}

#[unsafe(no_mangle)]
pub extern "C" fn krcf_deviation_mean(state: &[u8], out: &mut [u8]) -> u8
    ensures { left result out.new ≡ deviation_read (λ d. measured_over (Statistics.measured_mean d) out.old) 9 (read_deviation state.now) out.old }
{
    c_interface::krcf_deviation_mean(state, out)
}

#[unsafe(no_mangle)]
pub extern "C" fn krcf_deviation_deviation(state: &[u8], out: &mut [u8]) -> u8
    ensures { left result out.new ≡ deviation_read (λ d. measured_over (Statistics.measured_deviation d) out.old) 9 (read_deviation state.now) out.old }
{
    c_interface::krcf_deviation_deviation(state, out)
}

#[unsafe(no_mangle)]
pub extern "C" fn krcf_deviation_is_empty(state: &[u8], out: &mut [u8]) -> u8
    ensures { left result out.new ≡ deviation_read (λ d. flag_bytes (Statistics.is_empty d)) 1 (read_deviation state.now) out.old }
{
    c_interface::krcf_deviation_is_empty(state, out)
}

#[unsafe(no_mangle)]
pub extern "C" fn krcf_thresholder_new(discount: f64, adjust: u8, out: &mut [u8]) -> u8
    ensures { left result out.new ≡ thresholder_made (Updates.new_adjustible discount (eqb adjust 1)) adjust out.old }
{
    c_interface::krcf_thresholder_new(discount, adjust, out)
}

#[unsafe(no_mangle)]
pub extern "C" fn krcf_thresholder_is_deviation_ready(state: &[u8], out: &mut [u8]) -> u8
    ensures { left result out.new ≡ thresholder_read (λ s. flag_bytes (Grades.is_deviation_ready s)) 1 (read_thresholder state.now) out.old }
{
    c_interface::krcf_thresholder_is_deviation_ready(state, out)
}

#[unsafe(no_mangle)]
pub extern "C" fn krcf_threshold(state: &[u8], out: &mut [u8]) -> u8
    ensures { left result out.new ≡ thresholder_read (λ s. f32_bytes (Grades.threshold s)) 4 (read_thresholder state.now) out.old }
{
    c_interface::krcf_threshold(state, out)
}

#[unsafe(no_mangle)]
pub extern "C" fn krcf_primary_grade(state: &[u8], score: f32, out: &mut [u8]) -> u8
    ensures { left result out.new ≡ thresholder_read (λ s. f32_bytes (Grades.primary_grade s score)) 4 (read_thresholder state.now) out.old }
{
    c_interface::krcf_primary_grade(state, score, out)
}

#[unsafe(no_mangle)]
pub extern "C" fn krcf_primary_threshold_and_grade(state: &[u8], score: f32, out: &mut [u8]) -> u8
    ensures { left result out.new ≡ thresholder_read (λ s. encode_graded (Grades.primary_threshold_and_grade s score)) 8 (read_thresholder state.now) out.old }
{
    c_interface::krcf_primary_threshold_and_grade(state, score, out)
}

#[unsafe(no_mangle)]
pub extern "C" fn krcf_threshold_and_grade(
    state: &[u8],
    score: f32,
    method: u8,
    shingle_size: usize,
    out: &mut [u8],
) -> u8
    ensures { left result out.new ≡ graded_by (λ s m. Grades.threshold_and_grade s score m shingle_size) (method_of method) (read_thresholder state.now) out.old }
{
    c_interface::krcf_threshold_and_grade(state, score, method, shingle_size, out)
}

#[unsafe(no_mangle)]
pub extern "C" fn krcf_threshold_and_grade_with_factor(
    state: &[u8],
    score: f32,
    factor: f32,
    method: u8,
    shingle_size: usize,
    out: &mut [u8],
) -> u8
    ensures { left result out.new ≡ graded_by (λ s m. Grades.threshold_and_grade_with_factor s score factor m shingle_size) (method_of method) (read_thresholder state.now) out.old }
{
    c_interface::krcf_threshold_and_grade_with_factor(
        state,
        score,
        factor,
        method,
        shingle_size,
        out,
    )
}

#[unsafe(no_mangle)]
pub extern "C" fn krcf_update_threshold(state: &mut [u8], score: f32) -> u8
    ensures { left result state.new ≡ thresholder_changed (λ s. Updates.update_threshold s score) (read_thresholder state.old) state.old }
{
    c_interface::krcf_update_threshold(state, score)
}

#[unsafe(no_mangle)]
pub extern "C" fn krcf_update_primary(state: &mut [u8], score: f64) -> u8
    ensures { left result state.new ≡ thresholder_changed (λ s. Updates.update_primary s score) (read_thresholder state.old) state.old }
{
    c_interface::krcf_update_primary(state, score)
}

#[unsafe(no_mangle)]
pub extern "C" fn krcf_update_both(state: &mut [u8], primary: f32, secondary: f32) -> u8
    ensures { left result state.new ≡ thresholder_changed (λ s. Updates.update_both s primary secondary) (read_thresholder state.old) state.old }
{
    c_interface::krcf_update_both(state, primary, secondary)
}

#[unsafe(no_mangle)]
pub extern "C" fn krcf_update(state: &mut [u8], primary: f32, secondary: f32, last_score: f32) -> u8
    ensures { left result state.new ≡ thresholder_changed (λ s. Updates.update s primary secondary last_score) (read_thresholder state.old) state.old }
{
    c_interface::krcf_update(state, primary, secondary, last_score)
}

#[unsafe(no_mangle)]
pub extern "C" fn krcf_set_score_differencing(state: &mut [u8], horizon: f32) -> u8
    ensures { left result state.new ≡ thresholder_changed (λ s. Updates.set_score_differencing s horizon) (read_thresholder state.old) state.old }
{
    c_interface::krcf_set_score_differencing(state, horizon)
}

#[unsafe(no_mangle)]
pub extern "C" fn krcf_set_z_factor(state: &mut [u8], factor: f32) -> u8
    ensures { left result state.new ≡ thresholder_changed (λ s. thresholder_done (Updates.with_z_factor s factor)) (read_thresholder state.old) state.old }
{
    c_interface::krcf_set_z_factor(state, factor)
}

#[unsafe(no_mangle)]
pub extern "C" fn krcf_set_lower_threshold(state: &mut [u8], lower: f32) -> u8
    ensures { left result state.new ≡ thresholder_changed (λ s. thresholder_done (Updates.with_lower_threshold s lower)) (read_thresholder state.old) state.old }
{
    c_interface::krcf_set_lower_threshold(state, lower)
}

#[unsafe(no_mangle)]
pub extern "C" fn krcf_set_absolute_threshold(state: &mut [u8], value: f32) -> u8
    ensures { left result state.new ≡ thresholder_changed (λ s. thresholder_done (Updates.with_absolute_threshold s value)) (read_thresholder state.old) state.old }
{
    c_interface::krcf_set_absolute_threshold(state, value)
}

#[unsafe(no_mangle)]
pub extern "C" fn krcf_set_initial_threshold(state: &mut [u8], initial: f32) -> u8
    ensures { left result state.new ≡ thresholder_changed (λ s. thresholder_done (Updates.with_initial_threshold s initial)) (read_thresholder state.old) state.old }
{
    c_interface::krcf_set_initial_threshold(state, initial)
}
