// The script program (document 01): reads calls from standard input, a line for each, and prints a line for each
// answer.
#![tactic(auto)]

use console::run::{Reads, run_script};

// A failure is told on standard error; the exit status is 0 all the same.
fn main(rt: HostRuntime) {
    let run = run_script(&mut rt.stdin(), &mut rt.stdout());
    if let Reads::Failed(_) = run.reads {
        let _ = rt.eprintln("grid_script: reading failed");
    }
    if run.writes.is_err() {
        let _ = rt.eprintln("grid_script: writing failed");
    }
}
