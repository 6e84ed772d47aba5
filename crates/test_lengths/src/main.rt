// Lends the calls a word too few, then a stamp too few, then the right lengths, and prints their numbers (document 01)
// and whether the words are as they were before all four.
// Each call would be accepted: with the right lengths it is.
// Everything else at its bounds and on damaged tables is run through the library in C, where no length can be wrong
// (tests/calls).
#![tactic(auto)]

use calls::pace::end_number;
use calls::refusal::call_number;
use layout::question::Question as Rectangle;
use query::{Query, Scan};
use regions::region::{Kind, Region};
use stage::{Stage, Updater};
use std::io;
use test_show::{say, say_number};
use words::{INDEX, TIMES, WORDS};

// In the words: the entry of object 1 in the object index. All else is 0.
const OWN: usize = INDEX + 316;

fn updater_at(stage: Stage) -> Updater {
    Updater {
        oid: 1,
        x: 100,
        y: 100,
        tag: 0,
        stage,
    }
}

fn start_update(words: &mut [u32], times: &[i32]) -> u32 {
    let u = updater_at(Stage::Idle);
    call_number(&updates::start::start_one(u, 0, 1, 100, 100, 0, words, times))
}

fn step_update(words: &mut [u32], times: &mut [i32]) -> u32 {
    let u = updater_at(Stage::TakeObject);
    end_number(updates::step::step_one(u, 0, words, times).map(|s| s.pace))
}

// What is asked: the point (0, 0), in cell 0.
fn question() -> Region {
    Region {
        kind: Kind::Centre,
        area: Rectangle {
            x0: 0,
            y0: 0,
            x1: 0,
            y1: 0,
        },
        radius: 0,
    }
}

fn query_at(stage: Scan) -> Query {
    Query {
        question: question(),
        stamp: 1,
        hits: 0,
        steps: 0,
        stage,
    }
}

fn start_query(words: &mut [u32], times: &[i32]) -> u32 {
    let q = query_at(Scan::Idle);
    call_number(&queries::start::start_one(q, 0, question(), words, times))
}

fn step_query(words: &mut [u32], times: &[i32]) -> u32 {
    let q = query_at(Scan::Enter(0));
    end_number(queries::step::step_one(q, 0, words, times).map(|s| s.pace))
}

// Runs the four calls over so many words and stamps.
fn run(
    rt: &impl Print,
    name: &str,
    number: u32,
    words: &mut [u32],
    times: &mut [i32],
) -> io::Result<()> {
    words.fill(0);
    times.fill(0);
    if let Some(own) = words.get_mut(OWN) {
        *own = 1;
    }
    say(rt, "start of an update: ", start_update(words, times))?;
    say(rt, "step of an update: ", step_update(words, times))?;
    say(rt, "start of a query: ", start_query(words, times))?;
    say(rt, "step of a query: ", step_query(words, times))?;
    let same = words
        .iter()
        .enumerate()
        .all(|(i, w)| *w == u32::from(i == OWN));
    say_number(rt, name, number, same)
}

fn main(rt: HostRuntime) -> io::Result<()> {
    let mut words = [0u32; WORDS];
    let mut times = [0i32; TIMES];
    let mut short_words = [0u32; WORDS - 1];
    let mut short_times = [0i32; TIMES - 1];
    run(&rt, "words: ", 16897, &mut short_words, &mut times)?;
    run(&rt, "stamps: ", 2047, &mut words, &mut short_times)?;
    run(&rt, "both right, words: ", 16898, &mut words, &mut times)
}
