// The training load: a seed and a count on standard input, scores on standard output, a line each, as the score watch reads them. What is printed is the library's; here it
// is read and written. It is read a byte at a time, so that what stands behind the second line is left to whoever reads next.
#![tactic(auto)]

ghost use Rattle.std.specs.Prelude.{◌≡◌, true};
ghost use Rattle.training_lines.specs.Feeding.{is_over};

use std::io::Read;
use training_lines::{MOST_BYTES, ROOM, Run};

// None at the end of the input.
fn read_byte(rt: &impl Input) -> Result<Option<u8>, &'static str> {
    let mut input = [0u8; 1];
    let n = rt.reader().read(&mut input).map_err(|_| "a read failed")?;
    Ok((n == 1).then_some(input[0]))
}

// A run that needs no more.
fn settled(run: Run) -> Run
    requires { is_over run ≡ true }
    ensures { result ≡ run }
{
    run
}

// The bytes up to the one with which the run is over, or the end of the input. With `MOST_BYTES` of them it is over: `settled` asks for that.
fn read_lines(rt: &impl Input) -> Result<Run, &'static str> {
    let mut run = training_lines::begin();
    for taken in 0..MOST_BYTES {
        if training_lines::is_over(run) {
            return Ok(settled(run));
        }
        let Some(b) = read_byte(rt)? else {
            return Ok(run);
        };
        run = training_lines::push(run, b);
    }
    Ok(settled(run))
}

fn load(rt: &(impl Input + Print)) -> Result<(), &'static str> {
    let run = read_lines(rt)?;
    let mut out = [0u8; ROOM];
    let written = training_lines::finish(run, &mut out);
    rt.write_all(&out[..written]).map_err(|_| "a write failed")
}

// A failed read or write is told, and the status is 0 either way.
fn main(rt: HostRuntime) {
    if let Err(why) = load(&rt) {
        let _ = eprintln!(rt; "training_load: {why}");
    }
}
