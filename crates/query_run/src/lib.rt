// A run of a query: so many steps of one lane under one check, ended by the first that does not move on. The lane is in locals.
#![tactic(auto)]

ghost use Rattle.std.specs.Prelude.{◌≡◌, false};
ghost use Rattle.base.specs.Lent.{seen, lent};
ghost use Rattle.queries.specs.Query.{is_idle, is_finished};
ghost use Rattle.tables.specs.Promise.{OnGrid};
ghost use Rattle.query_run.specs.Promise.{Runs};

use calls::pace::{Pace, carried_out};
use calls::refusal::Refusal;
use calls::run::Ran;
use hits::lane::QueryLane;
use queries::scanning::scan_step;
use queries::step::end_step;
use query::{Query, Scan};
use words::{TIMES, WORDS};

// Steps a query that is neither idle nor finished, up to the first step that does not move on.
// That of crate update_run is lent the stamps to write, this one to read: one function over a type of stamps and a step as a
// closure needs a definition of a chain of calls, and is no plainer. So it is with run_query and run_update.
fn run_on(
    q: Query,
    lane: QueryLane,
    words: &mut [u32; WORDS],
    times: &[i32; TIMES],
    budget: u32,
) -> Ran<Query>
    requires { (is_idle q.stage ≡ false) × (is_finished q.stage ≡ false) }
    ensures { OnGrid (lent words) (seen times) (Runs q lane.number budget result) }
{
    let mut lanes = q;
    for made in 0..budget {
        let progress = scan_step(words, times, lane, lanes);
        match end_step(lanes, progress) {
            Ok(step) => {
                lanes = step.lanes;
                let Pace::Moved = step.pace else {
                    return Ran {
                        end: Ok(step.pace),
                        made: made + carried_out(step.pace),
                        lanes,
                    };
                };
            }
            Err(r) => {
                return Ran {
                    end: Err(r),
                    made,
                    lanes,
                };
            }
        }
    }
    Ran {
        end: Ok(Pace::Moved),
        made: budget,
        lanes,
    }
}

// So many steps of a query in a lane, given by value: Moved if all of them moved on, else how the first other one went, or
// why it was refused: with 12 (lengths), 1, 3, 9, or 12 (a stored number); and how many of them were carried out.
pub fn run_query(q: Query, lane: u32, words: &mut [u32], times: &[i32], budget: u32) -> Ran<Query>
    ensures { OnGrid (lent words) (seen times) (Runs q lane budget result) }
{
    if budget == 0 {
        return Ran::unmade(Ok(Pace::Moved), q);
    }
    let Some(words) = words.as_mut_array::<WORDS>() else {
        return Ran::unmade(Err(Refusal::Corrupt), q);
    };
    let Some(times) = times.as_array::<TIMES>() else {
        return Ran::unmade(Err(Refusal::Corrupt), q);
    };
    let Some(at) = QueryLane::new(lane) else {
        return Ran::unmade(Err(Refusal::NoSuchLane), q);
    };
    match q.stage {
        Scan::Idle => Ran::unmade(Err(Refusal::LaneIdle), q),
        Scan::Finished => Ran::unmade(Err(Refusal::QueryFinished), q),
        _ => run_on(q, at, words, times, budget),
    }
}
