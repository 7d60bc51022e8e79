// The calls on a reading's buffers that predictorcorrector.rs has public, and what its detect_and_modify asks the forest for, with document 01's refusals.
#![tactic(auto)]

ghost use Rattle.std.specs.Prelude.{◌≡◌, [], length};
ghost use Rattle.descriptor.specs.Checks as Checks;
ghost use Rattle.calls.specs.Calls as Calls;

use descriptor::{LastDescriptor, Reading};
use predictorcorrector::PredictorCorrector;
use types::{Refusal, Updated};

#[tactic(auto, unfolding(crate::specs::Calls::first_refusal))]
fn first_refusal(
    sizes: bool,
    lengths: bool,
    finite: bool,
    last: Result<(), Refusal>,
) -> Result<(), Refusal>
    ensures { result ≡ Calls.first_refusal sizes lengths finite last }
{
    if sizes {
        if lengths {
            if finite {
                return last;
            }
            return Err(Refusal::NotFinite);
        }
        return Err(Refusal::Length);
    }
    Err(Refusal::Range)
}

fn at_most(position: usize, d: usize, base: usize) -> bool
    ensures { result ≡ Calls.start_ok position d base }
{
    if base <= d {
        return position <= d - base;
    }
    position == 0
}

#[tactic(auto, unfolding(crate::specs::Calls::expected_answer, crate::specs::Calls::expected_lengths, crate::specs::Calls::expected_finite))]
fn expected_answer(
    shingle_size: usize,
    base: usize,
    position: usize,
    point: &[f32],
    high: &[f64],
    low: &[f64],
    median: &[f32],
    out: usize,
) -> Result<(), Refusal>
    ensures { result ≡ Calls.expected_answer
        shingle_size base position point.now high.now low.now median.now out }
{
    let d = descriptor::dimension(shingle_size, base);
    first_refusal(
        descriptor::sizes_ok(shingle_size, base),
        (point.len() == d)
            & ((high.len() == d)
                & ((low.len() == d)
                    & ((median.len() == d) & ((out == d) & at_most(position, d, base))))),
        descriptor::all_finite(point)
            & (descriptor::all_finite(high)
                & (descriptor::all_finite(low) & descriptor::all_finite(median))),
        Ok(()),
    )
}

// The expected point: the point with the conditional median at the coordinates of the row from `position` on that contribute most.
pub fn expected_point(
    shingle_size: usize,
    base: usize,
    position: usize,
    point: &[f32],
    high: &[f64],
    low: &[f64],
    median: &[f32],
    out: &mut [f32],
) -> Result<(), Refusal>
    ensures answer { result ≡ Calls.expected_answer
        shingle_size base position point.now high.now low.now median.now
        (length out.old) }
    ensures buffer { out.new ≡ Calls.expected_left
        shingle_size base position point.now high.now low.now median.now
        out.old }
{
    let answer = expected_answer(
        shingle_size,
        base,
        position,
        point,
        high,
        low,
        median,
        out.len(),
    );
    match answer {
        Ok(()) => {
            corrector::write_expected_point(high, low, position, base, point, median, out);
            answer
        }
        Err(_) => answer,
    }
}

#[tactic(auto, unfolding(crate::specs::Calls::gap_answer))]
fn gap_answer(gap: usize) -> Result<(), Refusal>
    ensures { result ≡ Calls.gap_answer gap }
{
    if gap == 0 {
        return Err(Refusal::ValuesSeen);
    }
    Ok(())
}

#[tactic(auto, unfolding(crate::specs::Calls::corrector_finite))]
fn corrector_finite(point: &[f32], has_anomaly: bool, expected: &[f32], anomalous: &[f32]) -> bool
    ensures { result ≡ Calls.corrector_finite point.now has_anomaly expected.now anomalous.now }
{
    descriptor::all_finite(point) & both_finite(has_anomaly, expected, anomalous)
}

#[tactic(auto, unfolding(crate::specs::Calls::last_finite))]
fn both_finite(has_anomaly: bool, expected: &[f32], anomalous: &[f32]) -> bool
    ensures { result ≡ Calls.last_finite has_anomaly expected.now anomalous.now }
{
    if has_anomaly {
        return descriptor::all_finite(expected) & descriptor::all_finite(anomalous);
    }
    true
}

#[tactic(auto, unfolding(crate::specs::Calls::corrector_answer, crate::specs::Calls::corrector_lengths))]
fn corrector_answer(
    shingle_size: usize,
    base: usize,
    gap: usize,
    point: &[f32],
    has_anomaly: bool,
    expected: &[f32],
    anomalous: &[f32],
    out: usize,
) -> Result<(), Refusal>
    ensures { result ≡ Calls.corrector_answer
        shingle_size base gap point.now has_anomaly expected.now anomalous.now out }
{
    let d = descriptor::dimension(shingle_size, base);
    first_refusal(
        descriptor::sizes_ok(shingle_size, base),
        (point.len() == d)
            & ((out == d)
                & descriptor::last_points_ok(has_anomaly, d, expected.len(), anomalous.len())),
        corrector_finite(point, has_anomaly, expected, anomalous),
        gap_answer(gap),
    )
}

// The point with the last anomaly's effect taken out.
pub fn apply_basic_corrector(
    point: &[f32],
    gap: usize,
    shingle_size: usize,
    base: usize,
    has_anomaly: bool,
    last_expected: &[f32],
    last_anomalous: &[f32],
    relative_index: i32,
    use_difference: bool,
    time_augmented: bool,
    out: &mut [f32],
) -> Result<(), Refusal>
    ensures answer { result ≡ Calls.corrector_answer
        shingle_size base gap point.now has_anomaly last_expected.now
        last_anomalous.now (length out.old) }
    ensures buffer { out.new ≡ Calls.corrector_left
        shingle_size base gap point.now has_anomaly last_expected.now
        last_anomalous.now relative_index use_difference time_augmented out.old }
{
    let answer = corrector_answer(
        shingle_size,
        base,
        gap,
        point,
        has_anomaly,
        last_expected,
        last_anomalous,
        out.len(),
    );
    match answer {
        Ok(()) => {
            corrector::write_corrected_point(
                point,
                gap,
                shingle_size,
                base,
                has_anomaly,
                last_expected,
                last_anomalous,
                relative_index,
                use_difference,
                time_augmented,
                out,
            );
            answer
        }
        Err(_) => answer,
    }
}

// What the forest's conditional field is asked for behind an attribution: the block that contributes most, where its row starts, and the likely missing indices of
// the row. The places from `count` on hold 0, as C is handed them.
#[derive(Clone, Copy)]
pub struct Missing {
    pub block: usize,
    pub start: usize,
    pub count: usize,
    pub indices: [usize; 5],
}

#[tactic(auto, unfolding(crate::specs::Calls::missing_answer))]
fn missing_answer(
    shingle_size: usize,
    base: usize,
    gap: usize,
    high: &[f64],
    low: &[f64],
) -> Result<(), Refusal>
    ensures { result ≡ Calls.missing_answer shingle_size base gap high.now low.now }
{
    let d = descriptor::dimension(shingle_size, base);
    first_refusal(
        descriptor::sizes_ok(shingle_size, base),
        (high.len() == d) & (low.len() == d),
        descriptor::all_finite(high) & descriptor::all_finite(low),
        gap_answer(gap),
    )
}

// What is asked for behind a block that starts at `start`.
#[tactic(auto, unfolding(crate::specs::Calls::missing_at))]
fn missing_at(high: &[f64], low: &[f64], base: usize, block: usize, start: usize) -> Missing
    ensures { result ≡ Calls.missing_at high.now low.now base block start }
{
    let asked = attributors::asked_indices(high, low, start, base);
    let indices = asked.indices;
    Missing {
        block,
        start,
        count: asked.count,
        indices,
    }
}

fn missing_within(high: &[f64], low: &[f64], base: usize, gap: usize) -> Missing
    ensures { result ≡ Calls.missing_within high.now low.now base gap }
{
    let found = divector::max_gap_contribution(high, low, base, gap);
    match found {
        Ok(block) => missing_at(high, low, base, block, block * base),
        Err(_) => missing_at(high, low, base, 0, 0),
    }
}

// The block that contributes most since the last anomaly, `gap` readings ago, its row's start, and the indices of the row for which the expected point asks the
// forest.
pub fn likely_missing_indices(
    shingle_size: usize,
    base: usize,
    gap: usize,
    high: &[f64],
    low: &[f64],
) -> Result<Missing, Refusal>
    ensures { result ≡ Calls.likely_missing_indices shingle_size base gap high.now low.now }
{
    missing_answer(shingle_size, base, gap, high, low)?;
    Ok(missing_within(high, low, base, gap))
}

// Holds the law to its statement.
fn asked_indices_are_expected()
    ensures { Calls.AskedIndicesAreExpected }
{}

// What detect_and_modify asks its forest for past an opening grade above 0, beside the corrected point's attribution and the conditional field: the corrected point's
// score, the neighbours, the expected point's attribution (the Rust's `new_attribution`); and the gap and `use_difference` that it hands to its corrector.
#[derive(Clone, Copy)]
pub struct Asked {
    pub gap: usize,
    pub corrected_score: bool,
    pub near_neighbor_list: bool,
    pub new_attribution: bool,
    pub use_difference: bool,
}

// The last anomaly's score, behind its yes/no. Its points are not lent.
fn anomaly_finite(l: LastDescriptor) -> bool
    ensures { result ≡ Checks.last_finite l [] [] }
{
    let anomaly = l.anomaly;
    if l.has_anomaly {
        return ieee::is_finite(anomaly.score);
    }
    true
}

#[tactic(auto, unfolding(crate::specs::Calls::seen_answer))]
fn seen_answer(ok: bool) -> Result<(), Refusal>
    ensures { result ≡ Calls.seen_answer ok }
{
    if ok {
        return Ok(());
    }
    Err(Refusal::ValuesSeen)
}

#[tactic(auto, unfolding(crate::specs::Calls::asked_answer))]
fn asked_answer(state_base: usize, r: Reading, l: LastDescriptor) -> Result<(), Refusal>
    ensures { result ≡ Calls.asked_answer state_base r l }
{
    let anomaly = l.anomaly;
    first_refusal(
        descriptor::range_ok(r.shingle_size, r.base_dimension, state_base),
        true,
        descriptor::numbers_finite(r, l) & anomaly_finite(l),
        seen_answer(descriptor::seen_ok(r.values_seen, l.has_anomaly, anomaly.values_seen)),
    )
}

// What is asked for so long after the last anomaly, or the start.
#[tactic(auto, unfolding(crate::specs::Calls::asked_after))]
fn asked_after(gap: usize, auto_adjust: bool, r: Reading, l: LastDescriptor) -> Asked
    ensures { result ≡ Calls.asked_after gap auto_adjust r l }
{
    let method = r.transform_method;
    Asked {
        gap,
        corrected_score: scoring::is_recent(l.has_anomaly, gap, r.shingle_size),
        near_neighbor_list: auto_adjust,
        new_attribution: gap < r.shingle_size,
        use_difference: method.is_differenced(),
    }
}

// The forest's part in a reading past its opening grade; auto adjust and base are the state's.
pub fn asked_of_forest(
    auto_adjust: bool,
    state_base: usize,
    r: Reading,
    l: LastDescriptor,
) -> Result<Asked, Refusal>
    ensures { result ≡ Calls.asked_of_forest auto_adjust state_base r l }
{
    asked_answer(state_base, r, l)?;
    Ok(asked_after(scoring::gap(r, l), auto_adjust, r, l))
}

#[tactic(auto, unfolding(crate::specs::Calls::counts_answer))]
fn counts_answer(ok: bool) -> Result<(), Refusal>
    ensures { result ≡ Calls.counts_answer ok }
{
    if ok {
        return Ok(());
    }
    Err(Refusal::Count)
}

#[tactic(auto, unfolding(crate::specs::Calls::adjust_answer))]
fn adjust_answer(s: PredictorCorrector, shingle_size: usize, point: &[f32]) -> Result<(), Refusal>
    ensures { result ≡ Calls.adjust_answer s shingle_size point.now }
{
    let base = s.base_dimension as usize;
    first_refusal(
        descriptor::sizes_ok(shingle_size, base),
        point.len() == descriptor::dimension(shingle_size, base),
        descriptor::all_finite(point),
        counts_answer(s.counts_ok()),
    )
}

// Within a run with auto adjust, counts the oldest row of the point.
pub fn update_auto_adjust(
    s: PredictorCorrector,
    shingle_size: usize,
    point: &[f32],
) -> Updated<PredictorCorrector>
    ensures { result ≡ Calls.update_auto_adjust s shingle_size point.now }
{
    let answer = adjust_answer(s, shingle_size, point);
    match answer {
        Ok(()) => Updated {
            answer,
            state: s.auto_adjusted(point),
        },
        Err(_) => Updated { answer, state: s },
    }
}
