// Document 01's drill sheet, every row worked by the library; floats are printed as their bits. What it is to print is what `oracle/run SOURCES drill` printed
// from the Rust.
#![tactic(auto)]

use basicthresholder::BasicThresholder;
use deviation::Deviation;
use std::io;
use types::TransformMethod;

fn wide(rt: &impl Print, x: f64) -> io::Result<()> {
    print!(rt; " {:016x}", ieee::f64_to_bits(x))
}

fn single(rt: &impl Print, x: f32) -> io::Result<()> {
    print!(rt; " {:08x}", ieee::f32_to_bits(x))
}

fn whole(rt: &impl Print, n: u64) -> io::Result<()> {
    print!(rt; " {n}")
}

fn end(rt: &impl Print) -> io::Result<()> {
    rt.print("\n")
}

fn measured(rt: &impl Print, m: Option<f64>) -> io::Result<()> {
    match m {
        None => rt.print(" empty"),
        Some(x) => wide(rt, x),
    }
}

fn sums(rt: &impl Print, d: Deviation) -> io::Result<()> {
    wide(rt, d.sum())?;
    wide(rt, d.sum_squared())?;
    wide(rt, d.weight())
}

// The scores 1 and 2 counted.
fn scored(discount: f64) -> Deviation {
    let d = Deviation::create(discount, 0.0, 0.0, 0.0, 0);
    let one = d.counted(1.0);
    one.counted(2.0)
}

fn statistics(rt: &impl Print) -> io::Result<()> {
    rt.print("discount 0, scores 1, 2:")?;
    let d = scored(0.0);
    sums(rt, d)?;
    measured(rt, d.mean())?;
    measured(rt, d.deviation())?;
    end(rt)?;
    rt.print("discount 0.5, scores 1, 2:")?;
    sums(rt, scored(0.5))?;
    end(rt)?;
    // A score of 0 counted over a sum of 1 leaves the factor.
    rt.print("discount 0.25, count 0, factor:")?;
    let one = Deviation::create(0.25, 1.0, 1.0, 1.0, 0);
    let after = one.counted(0.0);
    wide(rt, after.sum())?;
    end(rt)
}

fn fresh() -> BasicThresholder {
    BasicThresholder::default()
}

// Absolute and initial threshold both 1.
fn at_one() -> BasicThresholder {
    let s = fresh();
    let t = s.set_absolute_threshold(1.0);
    t.set_initial_threshold(1.0)
}

fn graded(rt: &impl Print, s: BasicThresholder, score: f32) -> io::Result<()> {
    let g = s.threshold_and_grade(score, TransformMethod::NONE, 1);
    single(rt, g.threshold)?;
    single(rt, g.grade)?;
    end(rt)
}

fn thresholds(rt: &impl Print) -> io::Result<()> {
    rt.print("fresh, NONE, score NaN:")?;
    graded(rt, fresh(), ieee::f32_from_bits(0x7fc0_0000))?;
    rt.print("both at 1, score 1:")?;
    graded(rt, at_one(), 1.0)?;
    rt.print("both at 1, score 1.0625:")?;
    graded(rt, at_one(), 1.0625)?;
    rt.print("both at 1, score 1.25:")?;
    graded(rt, at_one(), 1.25)?;
    rt.print("both at 1, score 1.8125:")?;
    graded(rt, at_one(), 1.8125)?;
    rt.print("fresh, score 1.4:")?;
    graded(rt, fresh(), 1.4)?;
    rt.print("fresh, score 1.5:")?;
    graded(rt, fresh(), 1.5)
}

fn block(rt: &impl Print, high: [f64; 4], low: [f64; 4], gap: usize) -> io::Result<()> {
    match divector::max_gap_contribution(&high, &low, 2, gap) {
        Ok(k) => whole(rt, k as u64),
        Err(_) => rt.print(" refused"),
    }
}

fn attributions(rt: &impl Print) -> io::Result<()> {
    rt.print("high 1, 2, 3, 4, gaps 1, 2, 3:")?;
    block(rt, [1.0, 2.0, 3.0, 4.0], [0.0; 4], 1)?;
    block(rt, [1.0, 2.0, 3.0, 4.0], [0.0; 4], 2)?;
    block(rt, [1.0, 2.0, 3.0, 4.0], [0.0; 4], 3)?;
    end(rt)?;
    rt.print("all ones, gap 2:")?;
    block(rt, [1.0; 4], [1.0; 4], 2)?;
    end(rt)?;
    rt.print("zeros of length 2 to 4:")?;
    let mut high = [0.0f64; 2];
    let mut low = [0.0f64; 2];
    let _ = divector::normalize(&mut high, &mut low, 4.0);
    wide(rt, high[0])?;
    wide(rt, high[1])?;
    wide(rt, low[0])?;
    wide(rt, low[1])?;
    end(rt)
}

fn corrected(rt: &impl Print, gap: usize) -> io::Result<()> {
    let point = [1.0f32, 2.0, 3.0, 4.0];
    let expected = [5.0f32, 6.0, 7.0, 8.0];
    let anomalous = [5.0f32, 6.0, 7.0, 18.0];
    let mut out = [0.0f32; 4];
    corrector::write_corrected_point(
        &point, gap, 4, 1, true, &expected, &anomalous, 0, true, false, &mut out,
    );
    single(rt, out[0])?;
    single(rt, out[1])?;
    single(rt, out[2])?;
    single(rt, out[3])?;
    end(rt)
}

fn steps(rt: &impl Print) -> io::Result<()> {
    rt.print("corrector, gap 1:")?;
    corrected(rt, 1)?;
    rt.print("corrector, gap 4:")?;
    corrected(rt, 4)?;
    rt.print("corrector, gap 5:")?;
    corrected(rt, 5)?;
    let path = [1.0f32, 3.0, 6.0];
    rt.print("path deviation:")?;
    single(
        rt,
        uncertainty_box::calculate_path_deviation(&path, 0, 0, 1, false),
    )?;
    end(rt)?;
    rt.print("path deviation, differenced:")?;
    single(
        rt,
        uncertainty_box::calculate_path_deviation(&path, 0, 0, 1, true),
    )?;
    end(rt)
}

// The number that the newest row of a point so long gets.
fn sized(rt: &impl Print, shingle_size: usize, base: usize, len: usize) -> io::Result<()> {
    let answer = corrector::newest_row_answer(shingle_size, base, len);
    whole(rt, types::answered(answer) as u64)?;
    end(rt)
}

fn sizes(rt: &impl Print) -> io::Result<()> {
    rt.print("shingle 64, base 16:")?;
    sized(rt, 64, 16, 1024)?;
    rt.print("shingle 65, base 16:")?;
    sized(rt, 65, 16, 1040)?;
    rt.print("shingle 64, base 17:")?;
    sized(rt, 64, 17, 1088)?;
    rt.print("horizon 1:")?;
    let set = fresh().set_score_differencing(1.0);
    let answer = set.answer;
    whole(rt, types::answered(answer) as u64)?;
    end(rt)
}

fn main(rt: HostRuntime) -> io::Result<()> {
    statistics(&rt)?;
    thresholds(&rt)?;
    attributions(&rt)?;
    steps(&rt)?;
    sizes(&rt)
}
