// Runs each script that an argument names on an empty grid of its own, and prints a line with its name and then its
// output. What they must print was not made by this program.
#![tactic(auto)]

use console::run::{Reads, run_script};
use std::io;
use std::io::Read;
use test_show::files::each_file;

// Runs a script.
fn run(rt: &(impl Print + Eprint), script: &mut impl Read) -> io::Result<()> {
    let run = run_script(script, &mut io::writer(rt));
    if let Reads::Failed(_) = run.reads {
        rt.eprintln("test_vectors: reading failed")?;
    }
    if run.writes.is_err() {
        rt.eprintln("test_vectors: writing failed")?;
    }
    Ok(())
}

fn main(rt: HostRuntime) -> io::Result<()> {
    each_file(&rt, |mut script| run(&rt, &mut script))
}
