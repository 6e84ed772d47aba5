// The start of a query (document 01: sweep start).
ghost use Rattle.tables.specs.Promise.{OnGrid};
ghost use Rattle.base.specs.Lent.{seen, lent};
ghost use Rattle.queries.specs.Promise.{Starts, StartsOne};

use base::{CLOCK_SPENT, QUERY_COUNT};
use calls::refusal::{Refusal, no_lane};
use query::{Query, Scan};
use regions::region::{Region, check_region};
use regions::scan::first_cell;
use tables::lengths::right_words;
use words::CLOCK;

// Starts a query of a question in a lane, given by value. Refused with 12 (lengths), 1, 2, 5, 6, 32 or 8, which leaves
// the lane as it is.
pub fn start_one(
    q: Query,
    lane: u32,
    question: Region,
    words: &mut [u32],
    times: &[i32],
) -> Result<Query, Refusal>
    ensures { OnGrid (lent words) (seen times) (StartsOne q lane question result) }
{
    if !right_words(words.len(), times.len()) {
        return Err(Refusal::Corrupt);
    }
    if lane >= QUERY_COUNT {
        return Err(Refusal::NoSuchLane);
    }
    let Scan::Idle = q.stage else {
        return Err(Refusal::LaneTaken);
    };
    check_region(question)?;
    let clock = words[CLOCK];
    if clock >= CLOCK_SPENT {
        return Err(Refusal::ClockExhausted);
    }
    let stamp = clock + 1;
    words[CLOCK] = stamp;
    Ok(Query {
        question,
        stamp,
        hits: 0,
        steps: 0,
        stage: Scan::Enter(first_cell(question).cell),
    })
}

// Starts a query of a question in one of the lanes: what `start_one` does there.
// Written out for each call: the five are lent words and stamps in three ways (to read, one to write, both to write), so
// that no one type of closure fits them, and a closure with its contract is longer than these lines.
pub fn query_start(
    queries: [Query; 4],
    lane: u32,
    question: Region,
    words: &mut [u32],
    times: &[i32],
) -> Result<[Query; 4], Refusal>
    ensures { OnGrid (lent words) (seen times) (Starts queries lane question result) }
{
    if lane >= QUERY_COUNT {
        return Err(no_lane(words.len(), times.len()));
    }
    let at = lane as usize;
    let mut next = queries;
    next[at] = start_one(queries[at], lane, question, words, times)?;
    Ok(next)
}
