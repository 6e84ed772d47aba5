// Leaving a bucket whose slots are read.
// On the words that hold all tables.
ghost use Rattle.base.specs.Lent.{lent};
ghost use Rattle.query.specs.On.{leave_on};
ghost use Rattle.tables.specs.Promise.{OnWords};
ghost use Rattle.query.specs.Promise.{Progresses};

use crate::moving::{after_cell, one_more};
use crate::{Query, Scan};
use base::{BUCKET_COUNT, NO_BUCKET, Stop};
use readers::{leave_for, take_reader};
use words::{NEXT, WORDS};

// Leaves a bucket: for the next one of its chain, if there is one, with a reader more there and then one less here.
// After the last bucket the cell is done.
pub fn leave_step(words: &mut [u32; WORDS], q: Query, cell: u32, bucket: u32) -> Result<Query, Stop>
    ensures { OnWords (lent words) (Progresses (λ t. leave_on t q cell bucket) result) }
{
    let next = one_more(q)?;
    if bucket >= BUCKET_COUNT {
        return Err(Stop::Corrupt);
    }
    let below = words[NEXT + bucket as usize];
    if below == NO_BUCKET {
        let stage = after_cell(q.question, cell)?;
        take_reader(words, bucket)?;
        return Ok(Query { stage, ..next });
    }
    let standing = leave_for(words, bucket, below)?;
    Ok(Query {
        stage: Scan::Read(cell, standing),
        ..next
    })
}
