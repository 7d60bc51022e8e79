// The C functions of the crate c_calls, exported: each calls the library's function of its name and keeps its contract. The kit takes a crate as a library or as a static library, so C needs both.
#![tactic(auto)]

ghost use Rattle.std.specs.Prelude.{◌≡◌, ◌∷◌, length};
ghost use Rattle.layout.specs.Left.{left};
ghost use Rattle.layout.specs.Numbers.{flag_byte};
ghost use Rattle.c_calls.specs.Forest as Forest;
ghost use Rattle.c_calls.specs.Buffers as Buffers;
ghost use Rattle.c_calls.specs.Buffers.{filled};

// What a judgment asks the forest for past its opening grade, in five numbers: the gap since the last anomaly, or the start; then 1 for yes and 0 for no: the corrected
// point's score, the neighbours, the expected point's attribution; and whether the corrector is to take the values for differences.
#[unsafe(no_mangle)]
pub extern "C" fn krcf_asked_of_forest(
    state: &[u8],
    reading: &[u8],
    last: &[u8],
    out: &mut [usize],
) -> u8
    ensures { left result out.new ≡ Forest.asked_of_forest state.now reading.now last.now out.old }
{
    c_calls::krcf_asked_of_forest(state, reading, last, out)
}

// What a host asks the forest's conditional field for, in eight numbers: the block that stands out, where its row starts, how many indices there are (none where the
// field is not asked), and five places for them, 0 behind the last.
#[unsafe(no_mangle)]
pub extern "C" fn krcf_likely_missing_indices(
    shingle_size: usize,
    base_dimension: usize,
    gap: usize,
    high: &[f64],
    low: &[f64],
    out: &mut [usize],
) -> u8
    ensures { left result out.new
        ≡ Buffers.likely_missing_indices shingle_size base_dimension gap high.now low.now out.old }
{
    c_calls::krcf_likely_missing_indices(shingle_size, base_dimension, gap, high, low, out)
}

// The point with the conditional median at the coordinates of the row from `position` on that contribute most.
#[unsafe(no_mangle)]
pub extern "C" fn krcf_expected_point(
    shingle_size: usize,
    base_dimension: usize,
    position: usize,
    point: &[f32],
    high: &[f64],
    low: &[f64],
    median: &[f32],
    out: &mut [f32],
) -> u8
    ensures { filled result out.new
        ≡ Buffers.expected_point shingle_size base_dimension position point.now high.now low.now
        median.now out.old }
{
    c_calls::krcf_expected_point(
        shingle_size,
        base_dimension,
        position,
        point,
        high,
        low,
        median,
        out,
    )
}

// The point with the last anomaly's effect taken out. Behind a no the last points are not looked at.
#[unsafe(no_mangle)]
pub extern "C" fn krcf_apply_basic_corrector(
    point: &[f32],
    gap: usize,
    shingle_size: usize,
    base_dimension: usize,
    has_anomaly: u8,
    last_expected: &[f32],
    last_anomalous: &[f32],
    relative_index: i32,
    use_difference: u8,
    time_augmented: u8,
    out: &mut [f32],
) -> u8
    ensures { filled result out.new
        ≡ Buffers.apply_basic_corrector point.now gap shingle_size base_dimension has_anomaly last_expected.now
        last_anomalous.now relative_index use_difference time_augmented out.old }
{
    c_calls::krcf_apply_basic_corrector(
        point,
        gap,
        shingle_size,
        base_dimension,
        has_anomaly,
        last_expected,
        last_anomalous,
        relative_index,
        use_difference,
        time_augmented,
        out,
    )
}

// Within a run with auto adjust, counts the oldest row of the point.
#[unsafe(no_mangle)]
pub extern "C" fn krcf_update_auto_adjust(
    state: &mut [u8],
    shingle_size: usize,
    point: &[f32],
) -> u8
    ensures { left result state.new ≡ Buffers.update_auto_adjust state.old shingle_size point.now }
{
    c_calls::krcf_update_auto_adjust(state, shingle_size, point)
}
