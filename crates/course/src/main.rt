// The course's drawers (docs/COURSE.md) that the score watch cannot show: a discount, a drawer's mean and deviation, sums that were cleared without their count,
// a first score under either strategy. Floats are printed as their bits.
#![tactic(auto)]

use basicthresholder::{BasicThresholder, Graded};
use deviation::Deviation;
use std::io;
use types::TransformMethod;

fn say(rt: &impl Print, text: &str) -> io::Result<()> {
    rt.print(text)
}

fn say_number(rt: &impl Print, name: &str, x: f32) -> io::Result<()> {
    print!(rt; "{name}{:08x}", ieee::f32_to_bits(x))
}

fn say_measured(rt: &impl Print, name: &str, m: Option<f64>) -> io::Result<()> {
    match m {
        None => print!(rt; "{name}empty"),
        Some(x) => say_number(rt, name, ieee::narrow(x)),
    }
}

fn say_graded(rt: &impl Print, graded: Graded) -> io::Result<()> {
    say_number(rt, " threshold ", graded.threshold)?;
    say_number(rt, " grade ", graded.grade)?;
    say(rt, "\n")
}

// The scores 1 and 2.
fn discounted(rt: &impl Print, discount: f64) -> io::Result<()> {
    let fresh = Deviation::create(discount, 0.0, 0.0, 0.0, 0);
    let one = fresh.update(1.0).state;
    let two = one.update(2.0).state;
    say_number(rt, "discount ", ieee::narrow(discount))?;
    say_number(rt, ": sum ", ieee::narrow(two.sum()))?;
    say_number(rt, " squares ", ieee::narrow(two.sum_squared()))?;
    say_number(rt, " weight ", ieee::narrow(two.weight()))?;
    say_measured(rt, " mean ", two.mean())?;
    say(rt, "\n")
}

// What a dashboard shows of a drawer.
fn say_dashboard(rt: &impl Print, drawer: BasicThresholder) -> io::Result<()> {
    say_measured(rt, " mean ", drawer.primary_mean())?;
    say_measured(rt, " deviation ", drawer.primary_deviation())?;
    say(rt, "\n")
}

// A new drawer as the score watch has it.
fn fresh() -> BasicThresholder {
    let run = score_lines::begin();
    run.thresholder
}

fn counted(drawer: BasicThresholder, score: f64, times: u64) -> BasicThresholder {
    let mut out = drawer;
    for _ in 0..times {
        out = out.update_primary(score).state;
    }
    out
}

// The error: the sums are cleared, and the counts stay.
fn sums_cleared(drawer: BasicThresholder) -> BasicThresholder {
    let primary = drawer.primary_deviation;
    let mut out = drawer;
    out.primary_deviation = Deviation::create(primary.discount, 0.0, 0.0, 0.0, primary.count);
    out
}

// One score of 2, and then what a 9 is held to.
fn two_then_nine(rt: &impl Print, drawer: BasicThresholder) -> io::Result<()> {
    let after = counted(drawer, 2.0, 1);
    if after.is_deviation_ready() {
        say(rt, " ten scores believed,")?;
    } else {
        say(rt, " fewer than ten scores,")?;
    }
    say_graded(rt, after.primary_threshold_and_grade(9.0))
}

fn main(rt: HostRuntime) -> io::Result<()> {
    say(&rt, "scores 1 and 2\n")?;
    discounted(&rt, 0.0)?;
    discounted(&rt, 0.5)?;
    say(&rt, "on the dashboard\nno scores yet:")?;
    say_dashboard(&rt, fresh())?;
    say(&rt, "a score of 2:")?;
    say_dashboard(&rt, counted(fresh(), 2.0, 1))?;
    say(&rt, "a score of 2, then 9\nnew drawer:")?;
    two_then_nine(&rt, fresh())?;
    say(&rt, "sums cleared after ten scores of 2, count not:")?;
    two_then_nine(&rt, sums_cleared(counted(fresh(), 2.0, 10)))?;
    say(&rt, "a new drawer's first score, 1.75\nDISTANCE:")?;
    say_graded(&rt, fresh().primary_threshold_and_grade(1.75))?;
    say(&rt, "height:")?;
    say_graded(
        &rt,
        fresh().threshold_and_grade(1.75, TransformMethod::NONE, 1),
    )
}
