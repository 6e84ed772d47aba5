// A whole run: a line in, its answer out, until the input ends.
ghost use Rattle.console.specs.Run.{Answered, Ran};

use crate::turn::answer_line;
use answers::page::Page;
use grid::reset::empty_grid;
use script::split::LineBytes;
use std::io;
use std::io::{Read, Write};
use streams::input::{Fetched, Input};
use streams::output::hand_over;
use streams::progress::{Failed, Progress, next_line};
use words::{TIMES, WORDS};

// How a run's reads ended.
#[derive(Clone, Copy, Debug)]
pub enum Reads {
    // The input was read to its end.
    Whole,
    // A failed write ended the run before that, or more lines than a u64 counts.
    Stopped,
    // A read failed.
    Failed(io::Error),
}

// How a run ended: its reads, and its writes.
#[derive(Clone, Copy, Debug)]
pub struct Ended {
    pub reads: Reads,
    pub writes: io::Result<()>,
}

// Answers the lines of a script on an empty grid of its own, until the input ends or a read or a write fails. What is
// not written yet stands on the page. The line numbers bound the loop.
fn answer_lines<R: Read, W: Write>(
    input: &mut R,
    output: &mut W,
    out: &mut Page,
) -> Result<(), Failed>
    ensures { Answered out.old.items out.new.items result }
{
    let mut words = [0u32; WORDS];
    let mut times = [0i32; TIMES];
    let mut list = [0u32; 1024];
    let mut block = [0u8; 4096];
    let mut line = LineBytes::new();
    let mut lanes = empty_grid(&mut words, &mut times);
    let mut p = Progress::Open(Input::default());
    for number in 0..u64::MAX {
        // What stands on the page after the last line is the caller's to write: a failure there is none of the reads.
        if let Progress::Ended = p {
            return Ok(());
        }
        match next_line(input, output, &mut block, &mut line, out, &mut p)? {
            Fetched::Line => {}
            Fetched::End => return Ok(()),
        }
        answer_line(
            line.as_slice(),
            number + 1,
            out,
            &mut list,
            &mut lanes,
            &mut words,
            &mut times,
        );
    }
    Err(Failed::TooLong)
}

// Runs the script that the input has. A read or a write that fails ends the run.
pub fn run_script<R: Read, W: Write>(input: &mut R, output: &mut W) -> Ended
    ensures { Ran result }
{
    let mut out = Page::new();
    let lines = answer_lines(input, output, &mut out);
    let writes = hand_over(output, &mut out).writes;
    let (reads, writes) = match lines {
        Ok(()) => (Reads::Whole, writes),
        Err(Failed::Reading(e)) => (Reads::Failed(e), writes),
        Err(Failed::Writing(e)) => (Reads::Stopped, Err(e)),
        Err(Failed::TooLong) => (Reads::Stopped, writes),
    };
    Ended { reads, writes }
}
