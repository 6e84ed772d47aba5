// A step of an update (document 01: report step).
ghost use Rattle.base.specs.Lent.{lent};
ghost use Rattle.updates.specs.Promise.{EndsTurn, Steps, StepsOne};
ghost use Rattle.tables.specs.Promise.{OnGrid};

use base::{Stop, UPDATER_COUNT};
use calls::pace::{Pace, Stepped};
use calls::refusal::{Refusal, no_lane};
use stage::{Stage, Turn, Updater};
use turns::step_stage;
use words::{TIMES, WORDS};

// What a step gives, from how its stage ended.
pub fn end_step(u: Updater, turn: Result<Turn, Stop>) -> Result<Stepped<Updater>, Refusal>
    ensures { EndsTurn u turn result }
{
    let (pace, stage) = match turn {
        Err(Stop::Corrupt) => return Err(Refusal::Corrupt),
        Err(Stop::Blocked) => (Pace::Blocked, u.stage),
        Ok(Turn::Advanced(s)) => (Pace::Moved, s),
        Ok(Turn::Restarted) => (Pace::Restarted, Stage::TakeObject),
        Ok(Turn::Finished) => (Pace::Finished, Stage::Idle),
    };
    Ok(Stepped {
        pace,
        lanes: Updater { stage, ..u },
    })
}

// One stage of the update in a lane, given by value. Refused with 12 (lengths), 1, 3, or 12 (a stored number), which
// leaves the lane as it is.
pub fn step_one(
    u: Updater,
    lane: u32,
    words: &mut [u32],
    times: &mut [i32],
) -> Result<Stepped<Updater>, Refusal>
    ensures { OnGrid (lent words) (lent times) (StepsOne u lane result) }
{
    let Some(words) = words.as_mut_array::<WORDS>() else {
        return Err(Refusal::Corrupt);
    };
    let Some(times) = times.as_mut_array::<TIMES>() else {
        return Err(Refusal::Corrupt);
    };
    if lane >= UPDATER_COUNT {
        return Err(Refusal::NoSuchLane);
    }
    if let Stage::Idle = u.stage {
        return Err(Refusal::LaneIdle);
    }
    end_step(u, step_stage(words, times, lane + 1, u))
}

// One stage of the update in one of the lanes: what `step_one` does there.
// Written out for each call: the five are lent words and stamps in three ways (to read, one to write, both to write), so
// that no one type of closure fits them, and a closure with its contract is longer than these lines.
pub fn update_step(
    updaters: [Updater; 8],
    lane: u32,
    words: &mut [u32],
    times: &mut [i32],
) -> Result<Stepped<[Updater; 8]>, Refusal>
    ensures { OnGrid (lent words) (lent times) (Steps updaters lane result) }
{
    if lane >= UPDATER_COUNT {
        return Err(no_lane(words.len(), times.len()));
    }
    let at = lane as usize;
    let Stepped { pace, lanes: u } = step_one(updaters[at], lane, words, times)?;
    let mut lanes = updaters;
    lanes[at] = u;
    Ok(Stepped { pace, lanes })
}
