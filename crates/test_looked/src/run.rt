// The calls of one file.
use crate::looking::line_looked;
use answers::page::Page;
use console::turn::answer_line;
use grid::reset::empty_grid;
use rest::Lanes;
use script::split::{LineBytes, take_line};
use std::io;
use words::{TIMES, WORDS};

// The lanes, and how many entries were looked at last.
#[derive(Clone, Copy)]
struct Done {
    lanes: Lanes,
    looked: Option<usize>,
}

// Whether a line is `looked`: no line of a script begins with a small letter.
fn asks_looked(line: &[u8]) -> bool {
    matches!(line, [b'l', ..])
}

// The answer to `looked`.
fn say_looked(rt: &impl Print, number: u64, looked: Option<usize>) -> io::Result<()> {
    match looked {
        None => println!(rt; "{number},none"),
        Some(n) => println!(rt; "{number},{n}"),
    }
}

// Answers a call.
fn answer_call(
    rt: &impl Print,
    line: &[u8],
    number: u64,
    out: &mut Page,
    list: &mut [u32; 1024],
    d: &mut Done,
    words: &mut [u32; WORDS],
    times: &mut [i32; TIMES],
) -> io::Result<()> {
    if asks_looked(line) {
        return say_looked(rt, number, d.looked);
    }
    d.looked = line_looked(line, d.lanes.queries, words, times, d.looked);
    out.clear();
    answer_line(line, number, out, list, &mut d.lanes, words, times);
    rt.write_all(out.as_slice())
}

// Answers calls, a line each, on an empty grid. The line numbers bound the loop.
// The place in the text goes from turn to turn: how far a line came is known only after it, so there is no range of it.
pub fn run_calls(rt: &impl Print, text: &[u8]) -> io::Result<()> {
    let mut words = [0u32; WORDS];
    let mut times = [0i32; TIMES];
    let mut list = [0u32; 1024];
    let mut line = LineBytes::new();
    let mut out = Page::new();
    let lanes = empty_grid(&mut words, &mut times);
    let mut d = Done {
        lanes,
        looked: None,
    };
    let mut next: usize = 0;
    for number in 1..=4096 {
        if next >= text.len() {
            break;
        }
        line.clear();
        next = take_line(text, next, &mut line).unwrap_or(text.len());
        answer_call(
            rt,
            line.as_slice(),
            number,
            &mut out,
            &mut list,
            &mut d,
            &mut words,
            &mut times,
        )?;
    }
    Ok(())
}
