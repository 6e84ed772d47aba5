// Runs readings, clearings and collections at their bounds, and prints what they answer.
// A line has a name that begins with the call, and the number of document 01.
// Of a reading, 'same' says that the lent list is afterwards as it was before, and the steps follow.
// Of the other two it says that the lane is, and what its query does next follows.
#![tactic(auto)]

use calls::refusal::call_number;
use collect::clear::clear;
use collect::read::{read, read_into};
use collect::whole::collect;
use layout::question::Question as Rectangle;
use query::{Query, Scan};
use regions::region::{Kind, Region};
use std::io;
use test_show::compared;
use words::{CLOCK, HIT_XS, HITS, TIMES, WORDS};

// What is lent for reading: the words and the stamps.
#[derive(Clone, Copy)]
struct Deck<'a> {
    words: &'a [u32],
    times: &'a [i32],
}

// A query with so many hits, after 31 steps, at this stage.
fn query_of(hits: u32, stage: Scan) -> Query {
    Query {
        question: Region {
            kind: Kind::Centre,
            area: Rectangle {
                x0: 0,
                y0: 0,
                x1: 1023,
                y1: 1023,
            },
            radius: 0,
        },
        stamp: 7,
        hits,
        steps: 31,
        stage,
    }
}

// What a reading gave, and whether the list is what it should be.
fn say_reading(rt: &impl Print, name: &str, number: u32, steps: u32, same: bool) -> io::Result<()> {
    println!(rt; "{name}{number}, {}, steps {steps}", compared(same))
}

// What a clearing or a collection gave, and whether the query in lane 0 is idle then.
fn say_lane(rt: &impl Print, name: &str, number: u32, lanes: [Query; 4]) -> io::Result<()> {
    let state = if lanes[0].stage == Scan::Idle {
        "idle"
    } else {
        "not idle"
    };
    println!(rt; "{name}{number}, lane 0 {state}")
}

// A reading into a list that should be so afterwards. Each lane has the query.
fn read_list(
    rt: &impl Print,
    name: &str,
    deck: Deck<'_>,
    lane: u32,
    q: Query,
    out: &mut [u32],
    after: &[u32],
) -> io::Result<()> {
    let reading = read_into([q; 4], lane, out, deck.words, deck.times);
    let number = call_number(&reading);
    let steps = reading.unwrap_or_default().steps;
    say_reading(rt, name, number, steps, *out == *after)
}

// A reading into a list of seven numbers, which should stay as it is.
fn read_seven(
    rt: &impl Print,
    name: &str,
    deck: Deck<'_>,
    lane: u32,
    hits: u32,
    stage: Scan,
) -> io::Result<()> {
    let q = query_of(hits, stage);
    read_list(rt, name, deck, lane, q, &mut [9; 7], &[9; 7])
}

// A reading of a finished query with two hits, in the form that hands back the filled part.
fn read_part(rt: &impl Print, name: &str, deck: Deck<'_>) -> io::Result<()> {
    let q = query_of(2, Scan::Finished);
    let mut out = [9; 10];
    let mut number = 99;
    let mut steps = 99;
    let part = read(
        [q; 4],
        0,
        &mut out,
        &mut number,
        &mut steps,
        deck.words,
        deck.times,
    );
    let same = &*part == [7, 100, 200, 4, 7, 100, 200, 4].as_slice();
    say_reading(rt, name, number, steps, same)
}

// A clearing. Each lane has such a query.
fn clear_lane(
    rt: &impl Print,
    name: &str,
    deck: Deck<'_>,
    lane: u32,
    hits: u32,
    stage: Scan,
) -> io::Result<()> {
    let lanes = [query_of(hits, stage); 4];
    let cleared = clear(lanes, lane, deck.words, deck.times);
    let number = call_number(&cleared);
    say_lane(rt, name, number, cleared.unwrap_or(lanes))
}

// A collection of a finished query from lane 0.
fn collect_list(
    rt: &impl Print,
    name: &str,
    deck: Deck<'_>,
    hits: u32,
    out: &mut [u32],
) -> io::Result<()> {
    let lanes = [query_of(hits, Scan::Finished); 4];
    let collected = collect(lanes, 0, out, deck.words, deck.times);
    let number = call_number(&collected);
    say_lane(rt, name, number, collected.map_or(lanes, |c| c.queries))
}

// A word is missing, or a stamp.
fn run_broken(rt: &impl Print, deck: Deck<'_>) -> io::Result<()> {
    let less = Deck {
        words: &[0; WORDS - 1],
        ..deck
    };
    let short = Deck {
        times: &[5; TIMES - 1],
        ..deck
    };
    let done = Scan::Finished;
    read_seven(rt, "read, 16897 words, lane 4: ", less, 4, 2, done)?;
    read_seven(rt, "read, 2047 stamps: ", short, 0, 2, done)?;
    clear_lane(rt, "clear, 16897 words, lane 4: ", less, 4, 2, done)?;
    clear_lane(rt, "clear, 2047 stamps: ", short, 0, 2, done)
}

fn run_readings(rt: &impl Print, deck: Deck<'_>) -> io::Result<()> {
    let done = Scan::Finished;
    read_seven(rt, "read, lane 4: ", deck, 4, 2, done)?;
    read_seven(rt, "read, lane idle: ", deck, 0, 2, Scan::Idle)?;
    read_seven(rt, "read, lane unfinished: ", deck, 0, 2, Scan::Enter(0))?;
    read_seven(rt, "read, 2 hits, 7 numbers: ", deck, 0, 2, done)?;
    read_seven(rt, "read, 257 hits, 7 numbers: ", deck, 0, 257, done)?;
    let q = query_of(257, done);
    let name = "read, 257 hits, 1028 numbers: ";
    read_list(rt, name, deck, 0, q, &mut [9; 1028], &[9; 1028])
}

// 'same' says here that the list, or the part, is what it should be: of the list of ten numbers the last two stay.
fn run_accepted(rt: &impl Print, deck: Deck<'_>) -> io::Result<()> {
    let done = Scan::Finished;
    read_seven(rt, "read, no hit, 7 numbers: ", deck, 0, 0, done)?;
    let q = query_of(2, done);
    let name = "read, 2 hits, 10 numbers, the list: ";
    let after = [7, 100, 200, 4, 7, 100, 200, 4, 9, 9];
    read_list(rt, name, deck, 0, q, &mut [9; 10], &after)?;
    read_part(rt, "read, 2 hits, 10 numbers, the part: ", deck)?;
    read_part(rt, "read again, the part: ", deck)
}

fn run_clearings(rt: &impl Print, deck: Deck<'_>) -> io::Result<()> {
    let done = Scan::Finished;
    clear_lane(rt, "clear, lane 4: ", deck, 4, 2, done)?;
    clear_lane(rt, "clear, lane idle: ", deck, 0, 2, Scan::Idle)?;
    clear_lane(rt, "clear, lane unfinished: ", deck, 0, 2, Scan::Enter(0))?;
    clear_lane(rt, "clear, 2 hits: ", deck, 0, 2, done)?;
    clear_lane(rt, "clear, 257 hits: ", deck, 0, 257, done)?;
    clear_lane(rt, "clear, lane 3: ", deck, 3, 2, done)
}

fn run_collections(rt: &impl Print, deck: Deck<'_>) -> io::Result<()> {
    collect_list(rt, "collect, 2 hits, 7 numbers: ", deck, 2, &mut [9; 7])?;
    collect_list(rt, "collect, 1 hit, 7 numbers: ", deck, 1, &mut [9; 7])?;
    collect_list(
        rt,
        "collect, 257 hits, 1028 numbers: ",
        deck,
        257,
        &mut [9; 1028],
    )
}

// Makes every entry of every list object 7 at (100, 200) with mark 4.
fn fill_lists(words: &mut [u32; WORDS]) {
    let columns = words[HITS..CLOCK].chunks_exact_mut(HIT_XS);
    for (column, value) in columns.zip([7, 100, 200, 4]) {
        column.fill(value);
    }
}

fn main(rt: HostRuntime) -> io::Result<()> {
    let mut words = [0u32; WORDS];
    fill_lists(&mut words);
    let deck = Deck {
        words: &words,
        times: &[5; TIMES],
    };
    run_broken(&rt, deck)?;
    run_readings(&rt, deck)?;
    run_accepted(&rt, deck)?;
    run_clearings(&rt, deck)?;
    run_collections(&rt, deck)
}
