// Entering the next cell of the scan.
// On the words that hold all tables.
ghost use Rattle.base.specs.Lent.{lent};
ghost use Rattle.query.specs.On.{enter_free_on, enter_on};
ghost use Rattle.tables.specs.Promise.{OnWords};
ghost use Rattle.query.specs.Promise.{Progresses};

use crate::moving::{after_cell, one_more};
use crate::{Query, Scan};
use base::{CELL_COUNT, NO_BUCKET, Stop};
use locks::look_lock;
use readers::add_reader;
use regions::scan::is_visited;
use words::{CELLS, FIRST, WORDS};

// Enters a cell that is not locked: passed at once if it is empty, else with a reader more at its first bucket.
fn enter_free(words: &mut [u32; WORDS], q: Query, cell: u32) -> Result<Query, Stop>
    ensures { OnWords (lent words) (Progresses (λ t. enter_free_on t q cell) result) }
{
    let next = one_more(q)?;
    if cell >= CELL_COUNT {
        return Err(Stop::Corrupt);
    }
    let bucket = words[FIRST + cell as usize];
    if bucket == NO_BUCKET {
        let stage = after_cell(q.question, cell)?;
        return Ok(Query { stage, ..next });
    }
    let standing = add_reader(words, bucket)?;
    Ok(Query {
        stage: Scan::Read(cell, standing),
        ..next
    })
}

// Enters a cell: blocked if it is locked.
pub fn enter_step(words: &mut [u32; WORDS], q: Query, cell: u32) -> Result<Query, Stop>
    ensures { OnWords (lent words) (Progresses (λ t. enter_on t q cell) result) }
{
    if !is_visited(q.question, cell) {
        return Err(Stop::Corrupt);
    }
    look_lock(&words[CELLS..FIRST], cell as usize)?;
    enter_free(words, q, cell)
}
