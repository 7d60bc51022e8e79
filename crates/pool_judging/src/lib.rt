// Judging a drawer in a pool, for a host that calls over C: the documents' number, 0 for an accepted reading; a refused call has written nothing.
#![tactic(auto)]

ghost use Rattle.descriptor.specs.Lent.{lent};
ghost use Rattle.pool_judging.specs.Judging as Judging;

// The drawer's record is found, and its state's bytes are lent to `krcf_detect_and_modify`.
pub fn krcf_pool_detect_and_modify(
    pool: &mut [u8],
    drawer: u32,
    reading: &[u8],
    last: &[u8],
    point: &[f32],
    scale: &[f32],
    shift: &[f32],
    difference_deviations: &[f32],
    last_expected: &[f32],
    last_anomalous: &[f32],
    high: &[f64],
    low: &[f64],
    median: &[f32],
    ideal_high: &[f64],
    ideal_low: &[f64],
    neighbours: &[f32],
    expected: &mut [f32],
    out_high: &mut [f64],
    out_low: &mut [f64],
    verdict: &mut [u8],
) -> u8
    ensures { Judging.Judged pool.old reading.now last.now (lent point.now scale.now
        shift.now difference_deviations.now last_expected.now last_anomalous.now
        high.now low.now median.now ideal_high.now ideal_low.now
        neighbours.now) result expected.old out_high.old out_low.old verdict.old
        pool.new expected.new out_high.new out_low.new verdict.new drawer }
{
    match record_pool::locate(pool, drawer) {
        Ok(slot) => {
            let from = slot.state;
            let upto = from + layout::STATE_LENGTH;
            c_judging::krcf_detect_and_modify(
                &mut pool[from..upto],
                reading,
                last,
                point,
                scale,
                shift,
                difference_deviations,
                last_expected,
                last_anomalous,
                high,
                low,
                median,
                ideal_high,
                ideal_low,
                neighbours,
                expected,
                out_high,
                out_low,
                verdict,
            )
        }
        Err(why) => why.number(),
    }
}
