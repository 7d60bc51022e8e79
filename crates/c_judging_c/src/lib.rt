// The C functions of the crate c_judging, exported: each calls the library's function of its name and keeps its contract. The kit takes a crate as a library or as a static library, so C needs both.
#![tactic(auto)]

ghost use Rattle.std.specs.Prelude.{◌≡◌, ◌-◌, length};
ghost use Rattle.descriptor.specs.Lent.{lent};
ghost use Rattle.c_judging.specs.Judging as Judging;

// Judges a reading and changes the state: `judge` decides, and its verdict is put into the bytes.
#[unsafe(no_mangle)]
pub extern "C" fn krcf_detect_and_modify(
    state: &mut [u8],
    reading: &[u8],
    last: &[u8],
    point: &[f32],
    scale: &[f32],
    shift: &[f32],
    difference_deviations: &[f32],
    last_expected: &[f32],
    last_anomalous: &[f32],
    high: &[f64],
    low: &[f64],
    median: &[f32],
    ideal_high: &[f64],
    ideal_low: &[f64],
    neighbours: &[f32],
    expected: &mut [f32],
    out_high: &mut [f64],
    out_low: &mut [f64],
    verdict: &mut [u8],
) -> u8
    ensures { Judging.Answered state.old reading.now last.now (lent point.now scale.now
        shift.now difference_deviations.now last_expected.now last_anomalous.now
        high.now low.now median.now ideal_high.now ideal_low.now
        neighbours.now) result expected.old out_high.old out_low.old verdict.old
        state.new expected.new out_high.new out_low.new verdict.new }
{
    c_judging::krcf_detect_and_modify(
        state,
        reading,
        last,
        point,
        scale,
        shift,
        difference_deviations,
        last_expected,
        last_anomalous,
        high,
        low,
        median,
        ideal_high,
        ideal_low,
        neighbours,
        expected,
        out_high,
        out_low,
        verdict,
    )
}

// Where the newest row of a point starts, 8 bytes.
#[unsafe(no_mangle)]
pub extern "C" fn krcf_newest_row(
    point: &[f32],
    shingle_size: usize,
    base_dimension: usize,
    out: &mut [u8],
) -> u8
    ensures { (result ≡ Judging.newest_answer shingle_size base_dimension (length point.now)
        (length out.old)) × (out.new ≡ Judging.newest_bytes shingle_size base_dimension (length point.now)
        out.old) }
{
    c_judging::krcf_newest_row(point, shingle_size, base_dimension, out)
}
