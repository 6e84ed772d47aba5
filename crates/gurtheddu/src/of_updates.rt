// The calls of updates (document 01: report start, and report steps in a row).
// Object, place and tag are four parameters, as document 01 and its script have them.
ghost use Rattle.tables.specs.Promise.{OnGrid};
ghost use Rattle.base.specs.Lent.{seen, lent};
ghost use Rattle.calls.specs.Refusals.{call_number, end_number};
ghost use Rattle.gurtheddu.specs.Promise.{StartsUpdate, RunsUpdate};

use crate::lane::{find_lane, store_lane};
use calls::pace::{Pace, end_number};
use calls::refusal::{Refusal, call_number};
use codes::update_lane::{STAGE_AT, code_updater, decode_updater, names_stage, seen_updater};
use update_run::run_update;
use updates::start::start_one;

// Starts an update of an object's place and tag.
fn start_lane(
    updaters: &mut [u32; 80],
    lane: u32,
    oid: u32,
    x: u32,
    y: u32,
    tag: u32,
    words: &mut [u32; 16898],
    times: &[i32; 2048],
) -> Result<(), Refusal>
    ensures { OnGrid (lent words) (seen times) (StartsUpdate (lent updaters) lane oid x y tag (call_number result)) }
{
    let numbers = find_lane(updaters.as_chunks().0, lane, names_stage)?;
    let u = seen_updater(numbers[STAGE_AT]);
    let started = start_one(u, lane, oid, x, y, tag, words, times)?;
    store_lane(updaters, lane, code_updater(started));
    Ok(())
}

// So many steps of an update, ended by the first that does not move on; and how many steps were carried out.
// There is one for each kind of lane: they are lent the stamps to write and to read, as the runs that they call.
fn run_lane(
    updaters: &mut [u32; 80],
    lane: u32,
    budget: u32,
    made: &mut u32,
    words: &mut [u32; 16898],
    times: &mut [i32; 2048],
) -> Result<Pace, Refusal>
    ensures { OnGrid (lent words) (lent times) (RunsUpdate (lent updaters) lane budget (lent made) (end_number result)) }
{
    *made = 0;
    if budget == 0 {
        return Ok(Pace::Moved);
    }
    let numbers = find_lane(updaters.as_chunks().0, lane, names_stage)?;
    let ran = run_update(decode_updater(numbers), lane, words, times, budget);
    *made = ran.made;
    if ran.made > 0 {
        store_lane(updaters, lane, code_updater(ran.lanes));
    }
    ran.end
}

// Starts an update of an object's place and tag. Gives 0, or is refused with 1, 12 (no stage has the lane's number), 2,
// 4, 5, 31, 7 or 8.
pub fn gurtheddu_update_start(
    updaters: &mut [u32; 80],
    lane: u32,
    oid: u32,
    x: u32,
    y: u32,
    tag: u32,
    words: &mut [u32; 16898],
    times: &[i32; 2048],
) -> u32
    ensures { OnGrid (lent words) (seen times) (StartsUpdate (lent updaters) lane oid x y tag result) }
{
    call_number(&start_lane(updaters, lane, oid, x, y, tag, words, times))
}

// So many steps of an update, ended by the first number that is not 0. Gives 0 if all of them did, else the first other
// number: 20, 21 or 22, or is refused with 1, 12 (no stage has the lane's number), 3 or 12 (a stored number); and how
// many steps were carried out.
pub fn gurtheddu_update_run(
    updaters: &mut [u32; 80],
    lane: u32,
    budget: u32,
    made: &mut u32,
    words: &mut [u32; 16898],
    times: &mut [i32; 2048],
) -> u32
    ensures { OnGrid (lent words) (lent times) (RunsUpdate (lent updaters) lane budget (lent made) result) }
{
    end_number(run_lane(updaters, lane, budget, made, words, times))
}
