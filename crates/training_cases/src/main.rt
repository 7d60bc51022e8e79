// Runs the training load's library on stored cases. Standard input has them one after the other, each up to a `%`. Of each it prints how many of its bytes were taken and how
// many were printed, and then these, or of a long load the last line.
#![tactic(auto)]

ghost use Rattle.std.specs.Io.{ReadsAtMost};

use std::io;
use std::io::Read;
use training_lines::{ROOM, Run};

// As many bytes as are looked at. They are read into an array, so that nothing here can run out of memory.
const CASES: usize = 65536;

// A run that was fed, and how many bytes it took.
#[derive(Drop)]
struct Taken {
    run: Run,
    bytes: usize,
}

fn take(case: &[u8]) -> Taken {
    let mut run = training_lines::begin();
    for (i, b) in case.iter().enumerate() {
        if training_lines::is_over(run) {
            return Taken { run, bytes: i };
        }
        run = training_lines::push(run, *b);
    }
    Taken {
        run,
        bytes: case.len(),
    }
}

// What was printed, or the last line of more than twenty.
fn show_printed(rt: &impl Print, run: Run) -> io::Result<()> {
    let mut out = [0u8; ROOM];
    let written = training_lines::finish(run, &mut out);
    println!(rt; "{written} printed")?;
    let text: &[u8] = &out[..written];
    if 180 < text.len() {
        return rt.write_all(&text[text.len() - 9..]);
    }
    rt.write_all(text)
}

fn show(rt: &impl Print, case: &[u8]) -> io::Result<()> {
    let end = take(case);
    let run = end.run;
    print!(rt; "{} of {} taken, ", end.bytes, case.len())?;
    show_printed(rt, run)
}

// Reads until `out` is full or the input ends, and tells how many bytes there were. No `for`: it counts by what a read gave, and `read_to_end` needs a `Vec`.
fn read_full(input: &mut impl Read, out: &mut [u8]) -> io::Result<usize>
    ensures { ReadsAtMost result out.new }
{
    let mut done = 0usize;
    while done < out.len() {
        let n = input.read(&mut out[done..])?;
        if n == 0 {
            break;
        }
        done += n;
    }
    Ok(done)
}

fn main(rt: HostRuntime) -> io::Result<()> {
    let mut cases = [0u8; CASES];
    let n = read_full(&mut rt.reader(), &mut cases)?;
    for ended in cases[..n].split_inclusive(|b| *b == b'%') {
        show(&rt, ended.strip_suffix(b"%").unwrap_or(ended))?;
    }
    Ok(())
}
