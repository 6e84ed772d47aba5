// COLLECTION, the public operation: a reading and then the clearing.
ghost use Rattle.collect.specs.Promise.{Collects};
ghost use Rattle.base.specs.Lent.{seen, lent};
ghost use Rattle.tables.specs.Promise.{OnGrid};

use crate::clear::clear;
use crate::read::{Reading, read_into};
use calls::refusal::Refusal;
use query::Query;

// What an accepted collection gives: what the reading gave, and the queries afterwards.
#[derive(Clone, Copy, Debug, PartialEq, Eq)]
pub struct Collected {
    pub reading: Reading,
    pub queries: [Query; 4],
}

// Reads the list of the finished query in a lane, as `read_into` does, and, if that is accepted, clears the lane. A
// refused reading is all that is done.
pub fn collect(
    queries: [Query; 4],
    lane: u32,
    out: &mut [u32],
    words: &[u32],
    times: &[i32],
) -> Result<Collected, Refusal>
    ensures { OnGrid (seen words) (seen times) (Collects queries lane (lent out) result) }
{
    let reading = read_into(queries, lane, out, words, times)?;
    // The query is finished, so the clearing is not refused.
    let queries = clear(queries, lane, words, times).unwrap();
    Ok(Collected { reading, queries })
}
