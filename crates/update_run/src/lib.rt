// A run of an update: so many steps of one lane under one check, ended by the first that does not move on. The lane is
// in locals.
#![tactic(auto)]

ghost use Rattle.std.specs.Prelude.{◌≡◌, false, ◌<◌};
ghost use Rattle.base.specs.Lent.{lent};
ghost use Rattle.stage.specs.Turn.{is_idle};
ghost use Rattle.tables.specs.Promise.{OnGrid};
ghost use Rattle.update_run.specs.Promise.{Runs};

use base::UPDATER_COUNT;
use calls::pace::{Pace, carried_out};
use calls::refusal::Refusal;
use calls::run::Ran;
use stage::{Stage, Updater};
use turns::step_stage;
use updates::step::end_step;
use words::{TIMES, WORDS};

// Steps an update that is not idle, up to the first step that does not move on.
// That of crate query_run is lent the stamps to read, this one to write: one function over a type of stamps and a step as a
// closure needs a definition of a chain of calls, and is no plainer. So it is with run_query and run_update.
fn run_on(
    u: Updater,
    lane: u32,
    words: &mut [u32; WORDS],
    times: &mut [i32; TIMES],
    budget: u32,
) -> Ran<Updater>
    requires { (lane < 8) × (is_idle u.stage ≡ false) }
    ensures { OnGrid (lent words) (lent times) (Runs u lane budget result) }
{
    let mut lanes = u;
    for made in 0..budget {
        let turn = step_stage(words, times, lane + 1, lanes);
        match end_step(lanes, turn) {
            Ok(step) => {
                lanes = step.lanes;
                let Pace::Moved = step.pace else {
                    return Ran {
                        end: Ok(step.pace),
                        made: made + carried_out(step.pace),
                        lanes,
                    };
                };
            }
            Err(r) => {
                return Ran {
                    end: Err(r),
                    made,
                    lanes,
                };
            }
        }
    }
    Ran {
        end: Ok(Pace::Moved),
        made: budget,
        lanes,
    }
}

// So many steps of an update in a lane, given by value: Moved if all of them moved on, else how the first other one
// went, or why it was refused: with 12 (lengths), 1, 3, or 12 (a stored number); and how many were carried out.
pub fn run_update(
    u: Updater,
    lane: u32,
    words: &mut [u32],
    times: &mut [i32],
    budget: u32,
) -> Ran<Updater>
    ensures { OnGrid (lent words) (lent times) (Runs u lane budget result) }
{
    if budget == 0 {
        return Ran::unmade(Ok(Pace::Moved), u);
    }
    let Some(words) = words.as_mut_array::<WORDS>() else {
        return Ran::unmade(Err(Refusal::Corrupt), u);
    };
    let Some(times) = times.as_mut_array::<TIMES>() else {
        return Ran::unmade(Err(Refusal::Corrupt), u);
    };
    if lane >= UPDATER_COUNT {
        return Ran::unmade(Err(Refusal::NoSuchLane), u);
    }
    if let Stage::Idle = u.stage {
        return Ran::unmade(Err(Refusal::LaneIdle), u);
    }
    run_on(u, lane, words, times, budget)
}
