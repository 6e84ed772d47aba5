// Runs the calls of each file that an argument names on an empty grid of its own, and prints a line with the file's
// name and then the answers. What they must print was not made by this program.
// A call is a line of a script, answered as the script program answers it, or `looked`, answered by how many entries
// the step of a sweep looked at that read a slot last, or by `none` if it looked nothing up.
#![tactic(auto)]

ghost use Rattle.std.specs.Prelude.{◌≤◌, length};

mod looking;
mod run;

use run::run_calls;
use std::io;
use std::io::Read;
use test_show::files::{each_named, print_name};

// Reads until the buffer is full, the input ends or a read fails, and tells how many bytes were read. How far a read came
// is known only after it, so there is no range to go over.
fn read_full<R: Read>(input: &mut R, text: &mut [u8]) -> usize
    ensures { result ≤ length text.new }
{
    let mut done = 0;
    while done < text.len() {
        match input.read(&mut text[done..]) {
            Ok(0) | Err(_) => break,
            Ok(n) => done += n,
        }
    }
    done
}

// Runs the calls of the file with this name, which has at most 4,096 bytes. It is read before its name is printed.
fn run_file(rt: &impl Print, name: &str, calls: &mut impl Read) -> io::Result<()> {
    let mut text = [0u8; 4096];
    let bytes = read_full(calls, &mut text);
    print_name(rt, name)?;
    run_calls(rt, &text[..bytes])
}

fn main(rt: HostRuntime) -> io::Result<()> {
    each_named(&rt, |name, mut calls| run_file(&rt, name, &mut calls))
}
