// The C functions of the crate pool_judging, exported: each calls the library's function of its name and keeps its contract. The kit takes a crate as a library or as a static library, so C needs both.
#![tactic(auto)]

ghost use Rattle.descriptor.specs.Lent.{lent};
ghost use Rattle.pool_judging.specs.Judging as Judging;

// The drawer's record is found, and its state's bytes are lent to `krcf_detect_and_modify`.
#[unsafe(no_mangle)]
pub extern "C" fn krcf_pool_detect_and_modify(
    pool: &mut [u8],
    drawer: u32,
    reading: &[u8],
    last: &[u8],
    point: &[f32],
    scale: &[f32],
    shift: &[f32],
    difference_deviations: &[f32],
    last_expected: &[f32],
    last_anomalous: &[f32],
    high: &[f64],
    low: &[f64],
    median: &[f32],
    ideal_high: &[f64],
    ideal_low: &[f64],
    neighbours: &[f32],
    expected: &mut [f32],
    out_high: &mut [f64],
    out_low: &mut [f64],
    verdict: &mut [u8],
) -> u8
    ensures { Judging.Judged pool.old reading.now last.now (lent point.now scale.now
        shift.now difference_deviations.now last_expected.now last_anomalous.now
        high.now low.now median.now ideal_high.now ideal_low.now
        neighbours.now) result expected.old out_high.old out_low.old verdict.old
        pool.new expected.new out_high.new out_low.new verdict.new drawer }
{
    pool_judging::krcf_pool_detect_and_modify(
        pool,
        drawer,
        reading,
        last,
        point,
        scale,
        shift,
        difference_deviations,
        last_expected,
        last_anomalous,
        high,
        low,
        median,
        ideal_high,
        ideal_low,
        neighbours,
        expected,
        out_high,
        out_low,
        verdict,
    )
}
