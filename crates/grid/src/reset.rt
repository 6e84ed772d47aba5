// The empty grid (document 01: a fresh deck), over the words and the stamps.
ghost use Rattle.std.specs.Prelude.{◌≡◌, List, ℤ};
ghost use Rattle.tables.specs.Tables.{with_times, empty_tables};
ghost use Rattle.tables.specs.Grid.{grid};
ghost use Rattle.tables.specs.Promise.{OnGrid};
ghost use Rattle.grid.specs.Promise.{Empties, Resets};
ghost use Rattle.base.specs.Lent.{lent};

use base::NO_BUCKET;
use calls::refusal::Refusal;
use layout::place::NOWHERE;
use pool::refill_pool;
use queries::lanes::idle_queries;
use rest::Lanes;
use tables::fill::fill_table;
use updates::lanes::idle_updaters;
use words::{COUNT, CURRENT, FIRST, HITS, NEXT, POOL, READERS, TIMES, WORDS};

// Fills the words with those of an empty grid.
fn empty_words(words: &mut [u32; WORDS])
    ensures { (ts : List ℤ) → grid words.new ts ≡ with_times empty_tables ts }
{
    fill_table(words, 0);
    fill_table(&mut words[FIRST..COUNT], NO_BUCKET);
    fill_table(&mut words[NEXT..READERS], NO_BUCKET);
    fill_table(&mut words[CURRENT..HITS], NOWHERE);
    // The part is as long as a pool is, so it is not refused.
    refill_pool(&mut words[POOL..WORDS]).unwrap();
}

// Makes the tables an empty grid. Gives the lanes that go with it.
pub fn empty_grid(words: &mut [u32; WORDS], times: &mut [i32; TIMES]) -> Lanes
    ensures { OnGrid (lent words) (lent times) (Empties result) }
{
    empty_words(words);
    fill_table(times, 0);
    Lanes {
        updaters: idle_updaters(),
        queries: idle_queries(),
    }
}

// Makes the tables an empty grid and every lane idle. Refused with 12 where there are too many or too few words or stamps.
pub fn reset(words: &mut [u32], times: &mut [i32]) -> Result<Lanes, Refusal>
    ensures { OnGrid (lent words) (lent times) (Resets result) }
{
    let Some(words) = words.as_mut_array::<WORDS>() else {
        return Err(Refusal::Corrupt);
    };
    let Some(times) = times.as_mut_array::<TIMES>() else {
        return Err(Refusal::Corrupt);
    };
    Ok(empty_grid(words, times))
}
