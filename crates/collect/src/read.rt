// READING, the public operation, in one lane, among all lanes, and in the form that document 01 names.
ghost use Rattle.std.specs.Prelude.{◌≡◌};
ghost use Rattle.base.specs.Lent.{seen, lent};
ghost use Rattle.tables.specs.Grid.{grid};
ghost use Rattle.tables.specs.Promise.{OnGrid};
ghost use Rattle.collect.specs.Filling.{parted_of, read_part};
ghost use Rattle.collect.specs.Promise.{Reads, ReadsOne};

use crate::admission::admit;
use crate::entries::write_entries;
use base::{LIST_SIZE, QUERY_COUNT};
use calls::refusal::{Refusal, call_number, no_lane};
use query::Query;
use tables::lengths::right_words;
use words::{CLOCK, HITS};

// What an accepted reading gives: the steps of the query, and how many numbers of the lent list are filled.
// The list is the caller's own, as document 01 asks, so how much of it is filled is a number beside it.
#[derive(Clone, Copy, Debug, Default, PartialEq, Eq)]
pub struct Reading {
    pub steps: u32,
    pub filled: usize,
}

// Hands back the list of the finished query in a lane, given by value: four numbers for each entry, over the front of
// the caller's list. No table changes, and the query stays as it is. Refused with 12 (lengths), 1, 3, 10, 11 or 12 (the
// number of hits), which leaves the list as it is. The filled part is `out[..filled]`.
#[tactic(auto, using(calls::proofs::Sized::as_long), unfolding(crate::specs::Admission::admitted_one, crate::specs::Admission::ask))]
pub fn read_one(
    q: Query,
    lane: u32,
    out: &mut [u32],
    words: &[u32],
    times: &[i32],
) -> Result<Reading, Refusal>
    ensures { OnGrid (seen words) (seen times) (ReadsOne q lane (lent out) result) }
{
    let right = right_words(words.len(), times.len());
    let found = admit(right, q, lane, out.len())?;
    let size = found.hits as usize;
    write_entries(&words[HITS..CLOCK], LIST_SIZE * lane as usize, size, out);
    Ok(Reading {
        steps: found.steps,
        filled: 4 * size,
    })
}

// Hands back the list of the finished query in one of the lanes: what `read_one` does there. No lane changes.
#[tactic(auto, using(crate::proofs::Lane::read_in, crate::proofs::Lane::read_none, tables::proofs::Grid::grid_lengths))]
pub fn read_into(
    queries: [Query; 4],
    lane: u32,
    out: &mut [u32],
    words: &[u32],
    times: &[i32],
) -> Result<Reading, Refusal>
    ensures { OnGrid (seen words) (seen times) (Reads queries lane (lent out) result) }
{
    if lane >= QUERY_COUNT {
        return Err(no_lane(words.len(), times.len()));
    }
    read_one(queries[lane as usize], lane, out, words, times)
}

// The same in the form that document 01 names: the filled part of the caller's own list is handed back, the number and
// the steps go through `&mut`; an empty part and 0 steps where it is refused. A function that returns a part of a lent
// list says nothing of the rest of it: `read_into` does.
#[tactic(auto, using(crate::proofs::Parted::part_handed))]
pub fn read<'a>(
    queries: [Query; 4],
    lane: u32,
    out: &'a mut [u32],
    number: &mut u32,
    steps: &mut u32,
    words: &[u32],
    times: &[i32],
) -> &'a mut [u32]
    ensures { read_part (grid words.now times.now) queries lane out.old ≡ parted_of number.new steps.new result.now }
{
    let answer = read_into(queries, lane, out, words, times);
    *number = call_number(&answer);
    let reading = answer.unwrap_or_default();
    *steps = reading.steps;
    &mut out[..reading.filled]
}
