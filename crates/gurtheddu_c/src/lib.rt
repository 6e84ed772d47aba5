// The exports for programs in C: each is the function of the crate gurtheddu of the same name, with the same promise.
// The header is include/gurtheddu.h.
// Object, place and tag are four parameters, as document 01 and its script have them.
#![tactic(auto)]

ghost use Rattle.base.specs.Lent.{seen, lent};
ghost use Rattle.tables.specs.Promise.{OnGrid};
ghost use Rattle.codes.specs.Queries.{rectangle_of};
ghost use Rattle.gurtheddu.specs.Promise.{ClearsLane, ReadsFrom, ResetsDeck, RewindsDeck, RunsSweep, RunsUpdate, StartsSweep, StartsUpdate};

use gurtheddu::{of_queries, of_updates, whole_deck};

// Makes the tables an empty grid and every lane idle. Gives 0.
#[unsafe(no_mangle)]
pub extern "C" fn gurtheddu_reset(
    updaters: &mut [u32; 80],
    queries: &mut [u32; 52],
    words: &mut [u32; 16898],
    times: &mut [i32; 2048],
) -> u32
    ensures { OnGrid (lent words) (lent times) (ResetsDeck (lent updaters) (lent queries) result) }
{
    whole_deck::gurtheddu_reset(updaters, queries, words, times)
}

// Winds every stamp and the clock back. Gives 0, or is refused with 12 (a lane's number is none) or 30 (not at rest).
// The lanes stay as they are.
#[unsafe(no_mangle)]
pub extern "C" fn gurtheddu_rewind(
    updaters: &[u32; 80],
    queries: &[u32; 52],
    words: &mut [u32; 16898],
    times: &mut [i32; 2048],
) -> u32
    ensures { OnGrid (lent words) (lent times) (RewindsDeck (seen updaters) (seen queries) result) }
{
    whole_deck::gurtheddu_rewind(updaters, queries, words, times)
}

// Starts an update of an object's place and tag. Gives 0, or is refused with 1, 12 (no stage has the lane's number), 2,
// 4, 5, 31, 7 or 8.
#[unsafe(no_mangle)]
pub extern "C" fn gurtheddu_update_start(
    updaters: &mut [u32; 80],
    lane: u32,
    oid: u32,
    x: u32,
    y: u32,
    tag: u32,
    words: &mut [u32; 16898],
    times: &[i32; 2048],
) -> u32
    ensures { OnGrid (lent words) (seen times) (StartsUpdate (lent updaters) lane oid x y tag result) }
{
    of_updates::gurtheddu_update_start(updaters, lane, oid, x, y, tag, words, times)
}

// So many steps of an update, ended by the first number that is not 0. Gives 0 if all of them did, else the first other
// number: 20, 21 or 22, or is refused with 1, 12 (no stage has the lane's number), 3 or 12 (a stored number); and how
// many steps were carried out.
#[unsafe(no_mangle)]
pub extern "C" fn gurtheddu_update_run(
    updaters: &mut [u32; 80],
    lane: u32,
    budget: u32,
    made: &mut u32,
    words: &mut [u32; 16898],
    times: &mut [i32; 2048],
) -> u32
    ensures { OnGrid (lent words) (lent times) (RunsUpdate (lent updaters) lane budget (lent made) result) }
{
    of_updates::gurtheddu_update_run(updaters, lane, budget, made, words, times)
}

// Starts a query: its kind of question (0 touching, 1 within, 2 centre), the lower and the upper corner of its
// rectangle, and its radius, which centre does not look at. Gives 0, or is refused with 1, 12 (the lane's numbers, or
// the kind, name nothing), 2, 5, 6, 32 or 8.
#[unsafe(no_mangle)]
pub extern "C" fn gurtheddu_query_start(
    queries: &mut [u32; 52],
    lane: u32,
    kind: u32,
    x0: u32,
    y0: u32,
    x1: u32,
    y1: u32,
    radius: u32,
    words: &mut [u32; 16898],
    times: &[i32; 2048],
) -> u32
    ensures { OnGrid (lent words) (seen times) (StartsSweep (lent queries) lane kind (rectangle_of x0 y0 x1 y1) radius result) }
{
    of_queries::gurtheddu_query_start(queries, lane, kind, x0, y0, x1, y1, radius, words, times)
}

// So many steps of a query, ended by the first number that is not 0. Gives 0 if all of them did, else the first other
// number: 20 or 22, or is refused with 1, 12 (the lane's numbers name nothing), 3, 9 or 12 (a stored number); and how
// many steps were carried out.
#[unsafe(no_mangle)]
pub extern "C" fn gurtheddu_query_run(
    queries: &mut [u32; 52],
    lane: u32,
    budget: u32,
    made: &mut u32,
    words: &mut [u32; 16898],
    times: &[i32; 2048],
) -> u32
    ensures { OnGrid (lent words) (seen times) (RunsSweep (lent queries) lane budget (lent made) result) }
{
    of_queries::gurtheddu_query_run(queries, lane, budget, made, words, times)
}

// Hands back the list of a finished query: four numbers for each entry over the front of the caller's list, how many
// numbers these are, and the steps of the query. Nothing else changes. Gives 0, or is refused with 1, 12 (the lane's
// numbers name nothing), 3, 10, 11 or 12 (the number of hits).
#[unsafe(no_mangle)]
pub extern "C" fn gurtheddu_read(
    queries: &[u32; 52],
    lane: u32,
    out: &mut [u32],
    steps: &mut u32,
    filled: &mut u32,
    words: &[u32; 16898],
    times: &[i32; 2048],
) -> u32
    ensures { OnGrid (seen words) (seen times) (ReadsFrom (seen queries) lane (lent out) (lent steps) (lent filled) result) }
{
    of_queries::gurtheddu_read(queries, lane, out, steps, filled, words, times)
}

// Idles the lane of a finished query. Gives 0, or is refused with 1, 12 (the lane's numbers name nothing), 3 or 10.
#[unsafe(no_mangle)]
pub extern "C" fn gurtheddu_clear(
    queries: &mut [u32; 52],
    lane: u32,
    words: &[u32; 16898],
    times: &[i32; 2048],
) -> u32
    ensures { OnGrid (seen words) (seen times) (ClearsLane (lent queries) lane result) }
{
    of_queries::gurtheddu_clear(queries, lane, words, times)
}
