// The calls on a reading's buffers for a host that calls over C: what the forest is asked for, the missing indices, the expected point, the corrector, auto adjust.
// Numbers, and slices of bytes, sizes or floats (a pointer, then a length); a state, a reading and the last descriptor are their bytes, as the crate layout has them.
// A call answers document 01's number, 0 where it is done; a refused one has written nothing.
#![tactic(auto)]

ghost use Rattle.std.specs.Prelude.{◌≡◌, ◌∷◌, length};
ghost use Rattle.layout.specs.Left.{left};
ghost use Rattle.c_calls.specs.Forest as Forest;
ghost use Rattle.c_calls.specs.Buffers as Buffers;
ghost use Rattle.c_calls.specs.Buffers.{filled};

use calls::Asked;
use types::Refusal;

// Document 01's refusals of a yes/no byte or a size, and of a length: numbers, as C is told them.
const RANGE: u8 = 2;

const LENGTH: u8 = 3;

// What is asked for; `out` is the length of the slice that takes the numbers.
fn asked_over(state: &[u8], reading: &[u8], last: &[u8], out: usize) -> Result<Asked, Refusal>
    ensures { result ≡ Forest.asked_over state.now reading.now last.now out }
{
    let call = layout::read_call(state, reading, last, out == 5)?;
    let k = call.standing;
    calls::asked_of_forest(k.auto_adjust, k.base_dimension, call.reading, call.last)
}

// The five numbers, in a slice of five.
fn put_asked(out: &mut [usize], asked: Asked)
    requires { length out.old ≡ 5 }
    ensures { out.new ≡ Forest.numbered asked }
{
    out[0] = asked.gap;
    out[1] = usize::from(asked.corrected_score);
    out[2] = usize::from(asked.near_neighbor_list);
    out[3] = usize::from(asked.new_attribution);
    out[4] = usize::from(asked.use_difference);
}

// What a judgment asks the forest for past its opening grade, in five numbers: the gap since the last anomaly, or the start; then 1 for yes and 0 for no: the corrected
// point's score, the neighbours, the expected point's attribution; and whether the corrector is to take the values for differences.
pub fn krcf_asked_of_forest(state: &[u8], reading: &[u8], last: &[u8], out: &mut [usize]) -> u8
    ensures { left result out.new ≡ Forest.asked_of_forest state.now reading.now last.now out.old }
{
    match asked_over(state, reading, last, out.len()) {
        Ok(asked) => {
            put_asked(out, asked);
            0
        }
        Err(why) => why.number(),
    }
}

// Block, start, count and indices, in a slice of eight.
fn put_missing(out: &mut [usize], block: usize, start: usize, count: usize, indices: [usize; 5])
    requires { length out.old ≡ 8 }
    ensures { out.new ≡ block ∷ start ∷ count ∷ indices }
{
    out[0] = block;
    out[1] = start;
    out[2] = count;
    out[3] = indices[0];
    out[4] = indices[1];
    out[5] = indices[2];
    out[6] = indices[3];
    out[7] = indices[4];
}

// What a host asks the forest's conditional field for, in eight numbers: the block that stands out, where its row starts, how many indices there are (none where the
// field is not asked), and five places for them, 0 behind the last.
pub fn krcf_likely_missing_indices(
    shingle_size: usize,
    base_dimension: usize,
    gap: usize,
    high: &[f64],
    low: &[f64],
    out: &mut [usize],
) -> u8
    ensures { left result out.new
        ≡ Buffers.likely_missing_indices shingle_size base_dimension gap high.now low.now out.old }
{
    if descriptor::sizes_ok(shingle_size, base_dimension) {
        if out.len() == 8 {
            return match calls::likely_missing_indices(
                shingle_size,
                base_dimension,
                gap,
                high,
                low,
            ) {
                Ok(found) => {
                    put_missing(out, found.block, found.start, found.count, found.indices);
                    0
                }
                Err(why) => why.number(),
            };
        }
        return LENGTH;
    }
    RANGE
}

// The point with the conditional median at the coordinates of the row from `position` on that contribute most.
pub fn krcf_expected_point(
    shingle_size: usize,
    base_dimension: usize,
    position: usize,
    point: &[f32],
    high: &[f64],
    low: &[f64],
    median: &[f32],
    out: &mut [f32],
) -> u8
    ensures { filled result out.new
        ≡ Buffers.expected_point shingle_size base_dimension position point.now high.now low.now
        median.now out.old }
{
    types::answered(calls::expected_point(
        shingle_size,
        base_dimension,
        position,
        point,
        high,
        low,
        median,
        out,
    ))
}

// The point with the last anomaly's effect taken out. Behind a no the last points are not looked at.
pub fn krcf_apply_basic_corrector(
    point: &[f32],
    gap: usize,
    shingle_size: usize,
    base_dimension: usize,
    has_anomaly: u8,
    last_expected: &[f32],
    last_anomalous: &[f32],
    relative_index: i32,
    use_difference: u8,
    time_augmented: u8,
    out: &mut [f32],
) -> u8
    ensures { filled result out.new
        ≡ Buffers.apply_basic_corrector point.now gap shingle_size base_dimension has_anomaly last_expected.now
        last_anomalous.now relative_index use_difference time_augmented out.old }
{
    if (has_anomaly <= 1) & ((use_difference <= 1) & (time_augmented <= 1)) {
        let answer = calls::apply_basic_corrector(
            point,
            gap,
            shingle_size,
            base_dimension,
            has_anomaly == 1,
            last_expected,
            last_anomalous,
            relative_index,
            use_difference == 1,
            time_augmented == 1,
            out,
        );
        return types::answered(answer);
    }
    RANGE
}

// Within a run with auto adjust, counts the oldest row of the point.
pub fn krcf_update_auto_adjust(state: &mut [u8], shingle_size: usize, point: &[f32]) -> u8
    ensures { left result state.new ≡ Buffers.update_auto_adjust state.old shingle_size point.now }
{
    if layout::state_codes_ok(state) {
        return match layout::read_state(state) {
            Ok(stored) => {
                let changed = calls::update_auto_adjust(stored, shingle_size, point);
                match changed.answer {
                    Ok(()) => {
                        layout::write_state(state, changed.state);
                        0
                    }
                    Err(why) => why.number(),
                }
            }
            Err(_) => {
                if descriptor::sizes_ok(shingle_size, 1) {
                    return LENGTH;
                }
                RANGE
            }
        };
    }
    RANGE
}
