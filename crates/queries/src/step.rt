// A step of a query (document 01: sweep step).
ghost use Rattle.queries.specs.Promise.{EndsStep, Steps, StepsOne};
ghost use Rattle.base.specs.Lent.{seen, lent};
ghost use Rattle.tables.specs.Promise.{OnGrid};

use crate::scanning::scan_step;
use base::{QUERY_COUNT, Stop};
use calls::pace::{Pace, Stepped};
use calls::refusal::{Refusal, no_lane};
use hits::lane::QueryLane;
use query::{Query, Scan};
use words::{TIMES, WORDS};

// What a step gives, from how it ended: finished where nothing comes next.
pub fn end_step(q: Query, progress: Result<Query, Stop>) -> Result<Stepped<Query>, Refusal>
    ensures { EndsStep q progress result }
{
    let (pace, lanes) = match progress {
        Err(Stop::Corrupt) => return Err(Refusal::Corrupt),
        Err(Stop::Blocked) => (Pace::Blocked, q),
        Ok(next) => match next.stage {
            Scan::Finished => (Pace::Finished, next),
            _ => (Pace::Moved, next),
        },
    };
    Ok(Stepped { pace, lanes })
}

// One step of the query in a lane, given by value. Refused with 12 (lengths), 1, 3, 9, or 12 (a stored number), which
// leaves the lane as it is.
pub fn step_one(
    q: Query,
    lane: u32,
    words: &mut [u32],
    times: &[i32],
) -> Result<Stepped<Query>, Refusal>
    ensures { OnGrid (lent words) (seen times) (StepsOne q lane result) }
{
    let Some(words) = words.as_mut_array::<WORDS>() else {
        return Err(Refusal::Corrupt);
    };
    let Some(times) = times.as_array::<TIMES>() else {
        return Err(Refusal::Corrupt);
    };
    let Some(at) = QueryLane::new(lane) else {
        return Err(Refusal::NoSuchLane);
    };
    match q.stage {
        Scan::Idle => Err(Refusal::LaneIdle),
        Scan::Finished => Err(Refusal::QueryFinished),
        _ => end_step(q, scan_step(words, times, at, q)),
    }
}

// One step of the query in one of the lanes: what `step_one` does there.
// Written out for each call: the five are lent words and stamps in three ways (to read, one to write, both to write), so
// that no one type of closure fits them, and a closure with its contract is longer than these lines.
pub fn query_step(
    queries: [Query; 4],
    lane: u32,
    words: &mut [u32],
    times: &[i32],
) -> Result<Stepped<[Query; 4]>, Refusal>
    ensures { OnGrid (lent words) (seen times) (Steps queries lane result) }
{
    if lane >= QUERY_COUNT {
        return Err(no_lane(words.len(), times.len()));
    }
    let at = lane as usize;
    let Stepped { pace, lanes: q } = step_one(queries[at], lane, words, times)?;
    let mut lanes = queries;
    lanes[at] = q;
    Ok(Stepped { pace, lanes })
}
