// The calls of range queries (document 01: sweep start, sweep steps in a row; document 02, request b: reading the list,
// clearing the lane).
ghost use Rattle.tables.specs.Promise.{OnGrid};
ghost use Rattle.base.specs.Lent.{seen, lent};
ghost use Rattle.calls.specs.Refusals.{call_number, end_number};
ghost use Rattle.codes.specs.Queries.{rectangle_of};
ghost use Rattle.gurtheddu.specs.Promise.{StartsSweep, RunsSweep, ReadsLane, ReadsFrom, ClearsLane};

use crate::lane::{find_lane, store_lane};
use calls::pace::{Pace, end_number};
use calls::refusal::{Refusal, call_number};
use codes::query_lane::{
    LAST_KIND, SCAN_AT, code_query, decode_query, kind_of, names_query, seen_query,
};
use collect::clear::clear_one;
use collect::read::{Reading, read_one};
use layout::question::Question as Rectangle;
use queries::start::start_one;
use query_run::run_query;
use regions::region::Region;

// Starts a query of the question of that kind about a rectangle, with that radius.
fn start_lane(
    queries: &mut [u32; 52],
    lane: u32,
    kind: u32,
    area: Rectangle,
    radius: u32,
    words: &mut [u32; 16898],
    times: &[i32; 2048],
) -> Result<(), Refusal>
    ensures { OnGrid (lent words) (seen times) (StartsSweep (lent queries) lane kind area radius (call_number result)) }
{
    let numbers = find_lane(queries.as_chunks().0, lane, names_query)?;
    if kind > LAST_KIND {
        return Err(Refusal::Corrupt);
    }
    let question = Region {
        kind: kind_of(kind),
        area,
        radius,
    };
    let q = seen_query(numbers[SCAN_AT]);
    let started = start_one(q, lane, question, words, times)?;
    store_lane(queries, lane, code_query(started));
    Ok(())
}

// So many steps of a query, ended by the first that does not move on; and how many steps were carried out.
// There is one for each kind of lane: they are lent the stamps to write and to read, as the runs that they call.
fn run_lane(
    queries: &mut [u32; 52],
    lane: u32,
    budget: u32,
    made: &mut u32,
    words: &mut [u32; 16898],
    times: &[i32; 2048],
) -> Result<Pace, Refusal>
    ensures { OnGrid (lent words) (seen times) (RunsSweep (lent queries) lane budget (lent made) (end_number result)) }
{
    *made = 0;
    if budget == 0 {
        return Ok(Pace::Moved);
    }
    let numbers = find_lane(queries.as_chunks().0, lane, names_query)?;
    let ran = run_query(decode_query(numbers), lane, words, times, budget);
    *made = ran.made;
    if ran.made > 0 {
        store_lane(queries, lane, code_query(ran.lanes));
    }
    ran.end
}

// Hands back the list of a finished query: four numbers for each entry over the front of the caller's list.
fn read_lane(
    queries: &[u32; 52],
    lane: u32,
    out: &mut [u32],
    words: &[u32; 16898],
    times: &[i32; 2048],
) -> Result<Reading, Refusal>
    ensures { OnGrid (seen words) (seen times) (ReadsLane (seen queries) lane (lent out) result) }
{
    let numbers = find_lane(queries.as_chunks().0, lane, names_query)?;
    read_one(decode_query(numbers), lane, out, words, times)
}

// Idles the lane of a finished query.
fn clear_lane(
    queries: &mut [u32; 52],
    lane: u32,
    words: &[u32; 16898],
    times: &[i32; 2048],
) -> Result<(), Refusal>
    ensures { OnGrid (seen words) (seen times) (ClearsLane (lent queries) lane (call_number result)) }
{
    let numbers = find_lane(queries.as_chunks().0, lane, names_query)?;
    let cleared = clear_one(decode_query(numbers), lane, words, times)?;
    store_lane(queries, lane, code_query(cleared));
    Ok(())
}

// Starts a query: its kind of question (0 touching, 1 within, 2 centre), the lower and the upper corner of its
// rectangle, and its radius, which centre does not look at. Gives 0, or is refused with 1, 12 (the lane's numbers, or
// the kind, name nothing), 2, 5, 6, 32 or 8.
pub fn gurtheddu_query_start(
    queries: &mut [u32; 52],
    lane: u32,
    kind: u32,
    x0: u32,
    y0: u32,
    x1: u32,
    y1: u32,
    radius: u32,
    words: &mut [u32; 16898],
    times: &[i32; 2048],
) -> u32
    ensures { OnGrid (lent words) (seen times) (StartsSweep (lent queries) lane kind (rectangle_of x0 y0 x1 y1) radius result) }
{
    let area = Rectangle { x0, y0, x1, y1 };
    call_number(&start_lane(queries, lane, kind, area, radius, words, times))
}

// So many steps of a query, ended by the first number that is not 0. Gives 0 if all of them did, else the first other
// number: 20 or 22, or is refused with 1, 12 (the lane's numbers name nothing), 3, 9 or 12 (a stored number); and how
// many steps were carried out.
pub fn gurtheddu_query_run(
    queries: &mut [u32; 52],
    lane: u32,
    budget: u32,
    made: &mut u32,
    words: &mut [u32; 16898],
    times: &[i32; 2048],
) -> u32
    ensures { OnGrid (lent words) (seen times) (RunsSweep (lent queries) lane budget (lent made) result) }
{
    end_number(run_lane(queries, lane, budget, made, words, times))
}

// Hands back the list of a finished query: four numbers for each entry over the front of the caller's list, how many
// numbers these are, and the steps of the query. Nothing else changes. Gives 0, or is refused with 1, 12 (the lane's
// numbers name nothing), 3, 10, 11 or 12 (the number of hits).
pub fn gurtheddu_read(
    queries: &[u32; 52],
    lane: u32,
    out: &mut [u32],
    steps: &mut u32,
    filled: &mut u32,
    words: &[u32; 16898],
    times: &[i32; 2048],
) -> u32
    ensures { OnGrid (seen words) (seen times) (ReadsFrom (seen queries) lane (lent out) (lent steps) (lent filled) result) }
{
    let answer = read_lane(queries, lane, out, words, times);
    let reading = answer.unwrap_or_default();
    *steps = reading.steps;
    *filled = reading.filled as u32;
    call_number(&answer)
}

// Idles the lane of a finished query. Gives 0, or is refused with 1, 12 (the lane's numbers name nothing), 3 or 10.
pub fn gurtheddu_clear(
    queries: &mut [u32; 52],
    lane: u32,
    words: &[u32; 16898],
    times: &[i32; 2048],
) -> u32
    ensures { OnGrid (seen words) (seen times) (ClearsLane (lent queries) lane result) }
{
    call_number(&clear_lane(queries, lane, words, times))
}
