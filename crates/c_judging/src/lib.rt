// Judging for a host that calls over C. Numbers, and slices of bytes or floats (a pointer, then a length): the state, a reading, the last descriptor and a
// verdict in their bytes, as the crate layout has them. The answer is document 01's number, 0 for an accepted reading; a refused call
// has written nothing.
#![tactic(auto)]

ghost use Rattle.std.specs.Prelude.{◌≡◌, ◌-◌, length};
ghost use Rattle.descriptor.specs.Lent.{lent};
ghost use Rattle.c_judging.specs.Judging as Judging;

use descriptor::Lent;

// Document 01's refusal of a length: a number, as C is told it.
const LENGTH: u8 = 3;

// Judges a reading and changes the state: `judge` decides, and its verdict is put into the bytes.
pub fn krcf_detect_and_modify(
    state: &mut [u8],
    reading: &[u8],
    last: &[u8],
    point: &[f32],
    scale: &[f32],
    shift: &[f32],
    difference_deviations: &[f32],
    last_expected: &[f32],
    last_anomalous: &[f32],
    high: &[f64],
    low: &[f64],
    median: &[f32],
    ideal_high: &[f64],
    ideal_low: &[f64],
    neighbours: &[f32],
    expected: &mut [f32],
    out_high: &mut [f64],
    out_low: &mut [f64],
    verdict: &mut [u8],
) -> u8
    ensures { Judging.Answered state.old reading.now last.now (lent point.now scale.now
        shift.now difference_deviations.now last_expected.now last_anomalous.now
        high.now low.now median.now ideal_high.now ideal_low.now
        neighbours.now) result expected.old out_high.old out_low.old verdict.old
        state.new expected.new out_high.new out_low.new verdict.new }
{
    match layout::read_call(
        state,
        reading,
        last,
        verdict.len() == layout::VERDICT_LENGTH,
    ) {
        Ok(call) => {
            let r = call.reading;
            let l = call.last;
            let b = Lent {
                point,
                scale,
                shift,
                difference_deviations,
                last_expected,
                last_anomalous,
                high,
                low,
                median,
                ideal_high,
                ideal_low,
                neighbours,
            };
            let decision = detection::judge(call.standing, r, l, b, expected, out_high, out_low);
            let outcome = decision.outcome;
            let newest_expected = decision.newest_expected;
            match outcome {
                Ok(said) => verdict_bytes::put_verdict(
                    state,
                    verdict,
                    r,
                    l,
                    said,
                    decision.relative_index,
                    point,
                    newest_expected,
                ),
                Err(why) => why.number(),
            }
        }
        Err(why) => why.number(),
    }
}

// Where the newest row of a point starts, 8 bytes.
pub fn krcf_newest_row(
    point: &[f32],
    shingle_size: usize,
    base_dimension: usize,
    out: &mut [u8],
) -> u8
    ensures { (result ≡ Judging.newest_answer shingle_size base_dimension (length point.now)
        (length out.old)) × (out.new ≡ Judging.newest_bytes shingle_size base_dimension (length point.now)
        out.old) }
{
    let number = types::answered(corrector::newest_row_answer(
        shingle_size,
        base_dimension,
        point.len(),
    ));
    if number == 0 {
        if out.len() == 8 {
            let row = corrector::newest_row(point, shingle_size, base_dimension);
            layout::write_u64(out, (point.len() - row.len()) as u64);
            return 0;
        }
        return LENGTH;
    }
    number
}
