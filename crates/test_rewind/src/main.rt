// Winds the clock back at the bounds of the operation: a spent clock, stamps at the ends of their range, lanes in motion, a
// number too few. A line has a name and the number of documents 01 and 02; 'same' says that the tables are as they were.
#![tactic(auto)]

use calls::refusal::call_number;
use layout::question::Question as Rectangle;
use queries::lanes::idle_queries;
use query::{Query, Scan};
use regions::region::{Kind, Region};
use rest::Lanes;
use rewind::whole::rewind;
use stage::{Stage, Updater};
use std::io;
use test_show::{say, say_number};
use updates::lanes::idle_updaters;
use updates::start::update_start;
use words::{CLOCK, TIMES, WORDS};

fn idle_lanes() -> Lanes {
    Lanes {
        updaters: idle_updaters(),
        queries: idle_queries(),
    }
}

// Starts an update of object 7 in lane 0 of lanes that are idle, and says its number.
fn say_start(rt: &impl Print, name: &str, words: &mut [u32], times: &[i32]) -> io::Result<()> {
    let started = update_start(idle_updaters(), 0, 7, 100, 100, 0, words, times);
    say(rt, name, call_number(&started))
}

// A clock with no start left is wound back, and the next start is accepted.
fn run_spent(rt: &impl Print) -> io::Result<()> {
    let mut words = [0u32; WORDS];
    let mut times = [0i32; TIMES];
    words[CLOCK] = 2147483600;
    say_start(rt, "start, clock 2147483600: ", &mut words, &times)?;
    let wound = rewind(idle_lanes(), &mut words, &mut times);
    say(rt, "rewind: ", call_number(&wound))?;
    say(rt, "clock: ", words[CLOCK])?;
    say_start(rt, "start: ", &mut words, &times)
}

// The last slot's stamp and the clock, wound back.
fn wind_one(rt: &impl Print, stamp: i32, clock: u32) -> io::Result<()> {
    let mut words = [0u32; WORDS];
    let mut times = [0i32; TIMES];
    words[CLOCK] = clock;
    times[2047] = stamp;
    let wound = rewind(idle_lanes(), &mut words, &mut times);
    let number = call_number(&wound);
    println!(rt;
        "stamp {stamp}, clock {clock}: {}, clock {}, number {number}",
        times[2047], words[CLOCK]
    )
}

fn run_stamps(rt: &impl Print) -> io::Result<()> {
    wind_one(rt, -2147483648, 0)?;
    wind_one(rt, -2, 1)?;
    wind_one(rt, -1, 2)?;
    wind_one(rt, 0, 4294967295)?;
    wind_one(rt, 1, 2147483647)?;
    wind_one(rt, 2147483647, 3)
}

// Lanes that are idle but for the last updater.
fn updating(stage: Stage) -> Lanes {
    let mut updaters = idle_updaters();
    updaters[7] = Updater {
        oid: 7,
        x: 100,
        y: 100,
        tag: 0,
        stage,
    };
    Lanes {
        updaters,
        queries: idle_queries(),
    }
}

// Lanes that are idle but for the last query.
fn querying(stage: Scan) -> Lanes {
    let question = Region {
        kind: Kind::Centre,
        ..Region::default()
    };
    let mut queries = idle_queries();
    queries[3] = Query {
        question,
        stamp: 1,
        stage,
        ..Query::default()
    };
    Lanes {
        updaters: idle_updaters(),
        queries,
    }
}

// Winds back with these lanes, where every word and every stamp is 9.
fn wind(
    rt: &impl Print,
    name: &str,
    lanes: Lanes,
    words: &mut [u32],
    times: &mut [i32],
) -> io::Result<()> {
    words.fill(9);
    times.fill(9);
    let number = call_number(&rewind(lanes, words, times));
    let same = words.iter().all(|n| *n == 9) && times.iter().all(|t| *t == 9);
    say_number(rt, name, number, same)
}

fn main(rt: HostRuntime) -> io::Result<()> {
    run_spent(&rt)?;
    run_stamps(&rt)?;
    let moving = updating(Stage::TakeObject);
    let begun = querying(Scan::Enter(0));
    let over = querying(Scan::Finished);
    let mut words = [9; WORDS];
    let mut times = [9; TIMES];
    wind(&rt, "an update under way: ", moving, &mut words, &mut times)?;
    wind(&rt, "a query under way: ", begun, &mut words, &mut times)?;
    wind(&rt, "a query finished: ", over, &mut words, &mut times)?;
    wind(&rt, "at rest: ", idle_lanes(), &mut words, &mut times)?;
    let mut less = [0u32; WORDS - 1];
    wind(
        &rt,
        "in motion, a word too few: ",
        moving,
        &mut less,
        &mut times,
    )?;
    let mut few = [0i32; TIMES - 1];
    wind(
        &rt,
        "in motion, a stamp too few: ",
        moving,
        &mut words,
        &mut few,
    )
}
