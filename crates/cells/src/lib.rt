// Cells: the chain of buckets of each cell, and what the stages of an update do to it.
// On the words that hold all tables.
#![tactic(auto, unfolding(crate::specs::Chain::raise, base::specs::Outcome::need, base::specs::Outcome::tells, base::specs::Outcome::leaves))]

ghost use Rattle.std.specs.Prelude.{◌≡◌, ◌<◌, List, ℤ, length};
ghost use Rattle.base.specs.Answer.{outcome_of};
ghost use Rattle.base.specs.Lent.{lent};
ghost use Rattle.base.specs.Promise.{AttemptsIn, Changes, ChangesIn};
ghost use Rattle.cells.specs.Chain.{raise};
ghost use Rattle.cells.specs.On.{first_on, last_on, give_back_on, linked, push_on, make_room_on, with_chains, copy_on, overwrite_on, Lowers, Writes};
ghost use Rattle.tables.specs.Grid.{grid};
ghost use Rattle.tables.specs.Promise.{OnGrid, OnWords};
ghost use Rattle.tables.specs.Tables.{with_pool, with_tuples};

use base::{BUCKET_COUNT, BUCKET_SLOTS, CELL_COUNT, Corrupt, NO_BUCKET, QUERY_COUNT, Stop};
use layout::place::Place;
use slots::tuple::{Report, copy_tuple, overwrite_tuple};
use words::{COUNT, FIRST, INDEX, NEXT, POOL, READERS, TIMES, TUPLES, WORDS};

// The last tuple of a cell's first bucket: where it is, and whose.
#[derive(Clone, Copy, Debug, PartialEq, Eq)]
pub struct Last {
    pub bucket: u32,
    pub slot: u32,
    pub oid: u32,
}

// The first bucket of a cell. Corrupt if the cell is out of range, or has none, or one out of range.
fn first_bucket(words: &[u32; WORDS], cell: u32) -> Result<u32, Corrupt>
    ensures { (ts : List ℤ) → outcome_of result ≡ first_on (grid words.now ts) cell }
{
    if cell >= CELL_COUNT {
        return Err(Corrupt);
    }
    let bucket = words[FIRST + cell as usize];
    if bucket >= BUCKET_COUNT {
        return Err(Corrupt);
    }
    Ok(bucket)
}

// The last tuple of a cell's first bucket. Corrupt if the bucket's count is not from 1 to 4.
pub fn last_tuple(words: &[u32; WORDS], cell: u32) -> Result<Last, Corrupt>
    ensures { (ts : List ℤ) → outcome_of result ≡ last_on (grid words.now ts) cell }
{
    let bucket = first_bucket(words, cell)?;
    let n = words[COUNT + bucket as usize];
    if n == 0 || n > BUCKET_SLOTS {
        return Err(Corrupt);
    }
    let slot = n - 1;
    let oid = words[TUPLES + (BUCKET_SLOTS * bucket + slot) as usize];
    Ok(Last { bucket, slot, oid })
}

// Lowers the count of a cell's first bucket. At zero the bucket is unlinked, and handed back.
pub fn lower_count(words: &mut [u32; WORDS], cell: u32) -> Result<Option<u32>, Corrupt>
    ensures { OnWords (lent words) (Lowers cell result) }
{
    let bucket = first_bucket(words, cell)?;
    let b = bucket as usize;
    let n = words[COUNT + b];
    if n == 0 || n > BUCKET_SLOTS {
        return Err(Corrupt);
    }
    if n != 1 {
        words[COUNT + b] = n - 1;
        return Ok(None);
    }
    let below = words[NEXT + b];
    if below > NO_BUCKET {
        return Err(Corrupt);
    }
    words[FIRST + cell as usize] = below;
    words[COUNT + b] = 0;
    Ok(Some(bucket))
}

// Returns an unlinked bucket to the pool, once it has no readers.
pub fn return_bucket(words: &mut [u32; WORDS], bucket: u32) -> Result<(), Stop>
    ensures { OnWords (lent words) (AttemptsIn with_pool (λ t. give_back_on t bucket) result) }
{
    if bucket >= BUCKET_COUNT {
        return Err(Stop::Corrupt);
    }
    let n = words[READERS + bucket as usize];
    if n > QUERY_COUNT {
        return Err(Stop::Corrupt);
    }
    if n != 0 {
        return Err(Stop::Blocked);
    }
    pool::give_bucket(&mut words[POOL..WORDS], bucket)?;
    Ok(())
}

// Puts an empty bucket first in a cell. That both are in range stays a requires: its one caller has just tested the one
// and taken the other.
fn link_bucket(words: &mut [u32; WORDS], cell: u32, bucket: u32)
    requires { (cell < 256) × (bucket < 512) }
    ensures { OnWords (lent words) (λ t t'. t' ≡ linked t cell bucket) }
{
    let at = FIRST + cell as usize;
    let b = bucket as usize;
    let below = words[at];
    words[COUNT + b] = 0;
    words[NEXT + b] = below;
    words[at] = bucket;
}

// Puts a bucket from the pool first in a cell.
pub fn push_bucket(words: &mut [u32; WORDS], cell: u32) -> Result<(), Corrupt>
    ensures { OnWords (lent words) (ChangesIn with_chains (λ t. push_on t cell) result) }
{
    if cell >= CELL_COUNT {
        return Err(Corrupt);
    }
    let bucket = pool::take_bucket(&mut words[POOL..WORDS])?;
    link_bucket(words, cell, bucket);
    Ok(())
}

// Makes room for a tuple in a cell's first bucket.
pub fn make_room(words: &mut [u32; WORDS], cell: u32) -> Result<(), Corrupt>
    ensures { OnWords (lent words) (ChangesIn with_chains (λ t. make_room_on t cell) result) }
{
    if cell >= CELL_COUNT {
        return Err(Corrupt);
    }
    let bucket = words[FIRST + cell as usize];
    if bucket > NO_BUCKET {
        return Err(Corrupt);
    }
    if bucket == NO_BUCKET {
        return push_bucket(words, cell);
    }
    let n = words[COUNT + bucket as usize];
    if n > BUCKET_SLOTS {
        return Err(Corrupt);
    }
    if n == BUCKET_SLOTS {
        return push_bucket(words, cell);
    }
    Ok(())
}

// Copies a tuple over another.
pub fn copy_slot(
    words: &mut [u32; WORDS],
    times: &mut [i32; TIMES],
    bucket: u32,
    slot: u32,
    bucket2: u32,
    slot2: u32,
) -> Result<(), Corrupt>
    ensures { OnGrid (lent words) (lent times) (ChangesIn with_tuples (λ t. copy_on t bucket slot bucket2 slot2) result) }
{
    copy_tuple(
        &mut words[TUPLES..INDEX],
        times,
        bucket,
        slot,
        bucket2,
        slot2,
    )
}

// Writes a current tuple over the one at a slot.
pub fn overwrite_slot(
    words: &mut [u32; WORDS],
    times: &mut [i32; TIMES],
    bucket: u32,
    slot: u32,
    r: Report,
    time: u32,
) -> Result<(), Corrupt>
    ensures { OnGrid (lent words) (lent times) (ChangesIn with_tuples (λ t. overwrite_on t bucket slot r.oid r.x r.y r.tag time) result) }
{
    overwrite_tuple(&mut words[TUPLES..INDEX], times, bucket, slot, r, time)
}

// Writes a tuple at the slot of a cell's first bucket that is numbered by the count, and tells where.
pub fn write_tuple(
    words: &mut [u32; WORDS],
    times: &mut [i32; TIMES],
    cell: u32,
    r: Report,
    time: u32,
) -> Result<Place, Corrupt>
    ensures { OnGrid (lent words) (lent times) (Writes cell r.oid r.x r.y r.tag time result) }
{
    let bucket = first_bucket(words, cell)?;
    let slot = words[COUNT + bucket as usize];
    if slot >= BUCKET_SLOTS {
        return Err(Corrupt);
    }
    overwrite_slot(words, times, bucket, slot, r, time)?;
    Ok(Place { cell, bucket, slot })
}

// A tuple more in a bucket, on the counts alone.
pub fn raise_count(count: &mut [u32], bucket: u32) -> Result<(), Corrupt>
    requires { length count.old ≡ 512 }
    ensures { Changes count.old (λ l. raise l bucket) result count.new }
{
    if bucket >= BUCKET_COUNT {
        return Err(Corrupt);
    }
    let b = bucket as usize;
    if count[b] >= BUCKET_SLOTS {
        return Err(Corrupt);
    }
    count[b] += 1;
    Ok(())
}
