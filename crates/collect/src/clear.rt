// CLEARING, the public operation, in one lane and among all lanes.
ghost use Rattle.std.specs.Prelude.{◌≡◌};
ghost use Rattle.base.specs.Lent.{seen};
ghost use Rattle.collect.specs.Collect.{idled};
ghost use Rattle.collect.specs.Promise.{Clears, ClearsOne};
ghost use Rattle.tables.specs.Promise.{OnGrid};

use base::QUERY_COUNT;
use calls::refusal::{Refusal, no_lane};
use query::{Query, Scan};
use tables::lengths::right_words;

// A query that is over. Question, stamp, hits and steps stay as they are.
fn idle(q: Query) -> Query
    ensures { result ≡ idled q }
{
    Query {
        stage: Scan::Idle,
        ..q
    }
}

// Idles the finished query of a lane, given by value. Refused with 12 (lengths), 1, 3 or 10, which leaves the query as it
// is.
#[tactic(auto, using(calls::proofs::Sized::sized, crate::proofs::Stages::stage_tests), unfolding(crate::specs::One::clear_one, calls::specs::Call::unless, calls::specs::Call::after))]
pub fn clear_one(q: Query, lane: u32, words: &[u32], times: &[i32]) -> Result<Query, Refusal>
    ensures { OnGrid (seen words) (seen times) (ClearsOne q lane result) }
{
    if !right_words(words.len(), times.len()) {
        return Err(Refusal::Corrupt);
    }
    if lane >= QUERY_COUNT {
        return Err(Refusal::NoSuchLane);
    }
    match q.stage {
        Scan::Idle => Err(Refusal::LaneIdle),
        Scan::Finished => Ok(idle(q)),
        _ => Err(Refusal::QueryUnfinished),
    }
}

// Idles one of the lanes: what `clear_one` does there.
// Written out for each call: the five are lent words and stamps in three ways (to read, one to write, both to write), so
// that no one type of closure fits them, and a closure with its contract is longer than these lines.
#[tactic(auto, using(crate::proofs::Lane::clear_in, crate::proofs::Lane::clear_none, tables::proofs::Grid::grid_lengths))]
pub fn clear(
    queries: [Query; 4],
    lane: u32,
    words: &[u32],
    times: &[i32],
) -> Result<[Query; 4], Refusal>
    ensures { OnGrid (seen words) (seen times) (Clears queries lane result) }
{
    if lane >= QUERY_COUNT {
        return Err(no_lane(words.len(), times.len()));
    }
    let at = lane as usize;
    let mut next = queries;
    next[at] = clear_one(queries[at], lane, words, times)?;
    Ok(next)
}
