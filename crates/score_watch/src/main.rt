// The score watch: scores as lines of eight hexadecimal digits on standard input, thresholds and opening grades on standard output. What is printed is
// the library's; here it is read and written.
#![tactic(auto)]

use score_lines::Run;
use score_rows::{PART, ROOM};
use std::io::Read;

fn print(rt: &impl Print, text: &[u8]) -> Result<(), &'static str> {
    rt.write_all(text).map_err(|_| "a write failed")
}

// The end of the input, or of what the run needs of it. `out` is room for what that prints.
fn finish(rt: &impl Print, run: Run, out: &mut [u8; ROOM]) -> Result<(), &'static str> {
    let written = score_lines::finish(run, out).written;
    print(rt, &out[..written])
}

// A failed read or write ends the run without counts, and the error says which it was. A proved loop has to end, and nothing says that the input does:
// so it counts its turns, up to a number that no run reaches. `export_watch` has this loop too: a trait for both runs would be longer than it.
fn watch(rt: &(impl Input + Print)) -> Result<(), &'static str> {
    print(rt, &score_rows::header())?;
    let mut input = [0u8; PART];
    let mut out = [0u8; ROOM];
    let mut run = score_lines::begin();
    for _ in 0..u64::MAX {
        let n = rt.reader().read(&mut input).map_err(|_| "a read failed")?;
        if n == 0 {
            return finish(rt, run, &mut out);
        }
        let fed = score_lines::feed(run, &input, n, &mut out);
        print(rt, &out[..fed.written])?;
        run = fed.run;
        if run.over {
            return finish(rt, run, &mut out);
        }
    }
    Ok(())
}

// The status is 0 either way.
fn main(rt: HostRuntime) {
    if let Err(why) = watch(&rt) {
        let _ = eprintln!(rt; "score_watch: {why}");
    }
}
