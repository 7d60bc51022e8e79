// What a verdict leaves in the bytes of the stored state and of the verdict, as the crate layout has them.
#![tactic(auto)]

ghost use Rattle.std.specs.Prelude.{◌≡◌, true, length};
ghost use Rattle.detection.specs.Steps.{Counting};
ghost use Rattle.detection.specs.Decided.{after_rows};
ghost use Rattle.layout.specs.Places.{verdict_length};
ghost use Rattle.layout.specs.Numbers.{written_of};
ghost use Rattle.layout.specs.Chain.{decode_state};
ghost use Rattle.layout.specs.InPlace.{reading_answer, stored_by};
ghost use Rattle.verdict_bytes.specs.Bytes as Bytes;
ghost use Rattle.verdict_bytes.specs.Put as Put;
ghost use Rattle.verdict_bytes.specs.Steps as Steps;

use descriptor::{LastDescriptor, Reading};
use detection::Verdict;
use types::Refusal;

// What a verdict does to the run and the lists: the run ends; it is adjusted; the newest rows are counted, by the threshold, and the run may grow; nothing.
#[derive(Drop)]
enum Change {
    Ends,
    Adjusts,
    Counts(f32, bool),
    Stays,
}

#[tactic(auto, unfolding(crate::specs::Steps::change_of))]
fn change_of(verdict: Verdict) -> Change
    ensures { result ≡ Steps.change_of verdict }
{
    match verdict {
        Verdict::Quiet(_) => Change::Ends,
        Verdict::Corrected(threshold, mode) => {
            if detection::is_drift_mode(mode) {
                return Change::Counts(threshold, false);
            }
            Change::Adjusts
        }
        Verdict::Raised(threshold, _) => Change::Counts(threshold, true),
        Verdict::Skipped => Change::Stays,
    }
}

fn put_told(out: &mut [u8], verdict: Verdict, relative_index: i32)
    ensures { out.new ≡ written_of verdict_length out.old (Bytes.told verdict relative_index) }
{
    match verdict {
        Verdict::Quiet(threshold) => {
            layout::write_verdict(out, 0, 0, threshold, 0.0, relative_index)
        }
        Verdict::Corrected(threshold, mode) => {
            layout::write_verdict(out, 1, u8::from(mode), threshold, 0.0, relative_index)
        }
        Verdict::Raised(threshold, grade) => {
            layout::write_verdict(out, 2, 0, threshold, grade, relative_index)
        }
        Verdict::Skipped => layout::write_verdict(out, 3, 0, 0.0, 0.0, relative_index),
    }
}

// The candidate branch: where the reading is a candidate by the run before it, the newest rows are counted.
fn put_rows(
    state: &mut [u8],
    grows: bool,
    r: Reading,
    l: LastDescriptor,
    threshold: f32,
    point: &[f32],
    newest_expected: [f32; 16],
) -> Result<(), Refusal>
    requires { Counting r (length point.now) }
    ensures answer { result ≡ reading_answer state.old r true }
    ensures stored { state.new ≡ stored_by (reading_answer state.old r true)
        state.old (Steps.rows_after (decode_state state.old) r l threshold point.now newest_expected grows) }
{
    let corrected = scoring::corrected_score(r, l);
    let run = layout::run_length(state);
    if candidate::is_candidate(r, l, run, r.shingle_size as u32, threshold) {
        let base = r.base_dimension;
        let at = point.len() - base;
        return layout::write_counted(
            state,
            r,
            l,
            corrected,
            grows,
            &point[at..],
            &newest_expected[..base],
        );
    }
    layout::write_entered(state, r, l, corrected, grows)
}

// What a verdict does to the stored state.
fn put_state(
    state: &mut [u8],
    r: Reading,
    l: LastDescriptor,
    verdict: Verdict,
    point: &[f32],
    newest_expected: [f32; 16],
) -> Result<(), Refusal>
    requires { Counting r (length point.now) }
    ensures answer { result ≡ reading_answer state.old r true }
    ensures stored { state.new ≡ Steps.put_over (reading_answer state.old r true) verdict
        state.old (after_rows (decode_state state.old) r l point.now newest_expected verdict) }
{
    match change_of(verdict) {
        Change::Ends => layout::write_ended(state, r, l, r.score),
        Change::Adjusts => {
            layout::write_adjusted(state, r, l, scoring::corrected_score(r, l), point)
        }
        Change::Counts(threshold, grows) => {
            put_rows(state, grows, r, l, threshold, point, newest_expected)
        }
        Change::Stays => layout::reading_answer(state, r, true),
    }
}

// The verdict on a reading, put into the stored state and into the verdict's bytes. The answer is document 01's number of a reading that the state or the slices
// do not fit: 2, 3 or 6; then nothing is written.
pub fn put_verdict(
    state: &mut [u8],
    out: &mut [u8],
    r: Reading,
    l: LastDescriptor,
    verdict: Verdict,
    relative_index: i32,
    point: &[f32],
    newest_expected: [f32; 16],
) -> u8
    ensures { Put.Put r l verdict relative_index point.now newest_expected result state.old out.old state.new out.new }
{
    if (r.shingle_size <= 64)
        & ((r.base_dimension <= newest_expected.len())
            & ((out.len() == layout::VERDICT_LENGTH) & (r.base_dimension <= point.len())))
    {
        let answer = put_state(state, r, l, verdict, point, newest_expected);
        return match answer {
            Ok(()) => {
                put_told(out, verdict, relative_index);
                0
            }
            Err(why) => why.number(),
        };
    }
    types::answered(layout::reading_answer(state, r, false))
}
