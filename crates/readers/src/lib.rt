// Readers: how a query stands in a bucket of a chain, and goes from one to the next.
// On the words that hold all tables.
#![tactic(auto, unfolding(crate::specs::Reader::add_reader, crate::specs::Reader::take_reader, base::specs::Outcome::need, base::specs::Outcome::outcome_map))]

ghost use Rattle.std.specs.Prelude.{◌≡◌, List, ℕ};
ghost use Rattle.base.specs.Answer.{outcome_of};
ghost use Rattle.base.specs.Lent.{lent};
ghost use Rattle.base.specs.Outcome.{outcome_map};
ghost use Rattle.base.specs.Promise.{ChangesIn};
ghost use Rattle.words.specs.Words.{count_in, readers_in, put_readers};
ghost use Rattle.readers.specs.Reader.{Reading, add_reader, take_reader, leave_for};
ghost use Rattle.readers.specs.Promise.{Stands};

use base::{BUCKET_COUNT, BUCKET_SLOTS, Corrupt, QUERY_COUNT};
use words::{COUNT, READERS, WORDS};

// The bucket in which a query stands, and how many of its slots are left to read.
#[derive(Clone, Copy, Debug, PartialEq, Eq)]
pub struct Standing {
    pub bucket: u32,
    pub left: u32,
}

// Where a query comes to stand in a bucket that takes one more reader.
fn room_at(words: &[u32; WORDS], bucket: u32) -> Result<Standing, Corrupt>
    ensures { outcome_of result ≡ outcome_map (λ (d : Reading). d.standing) (add_reader (count_in words.now) (readers_in words.now) bucket) }
{
    if bucket >= BUCKET_COUNT {
        return Err(Corrupt);
    }
    let left = words[COUNT + bucket as usize];
    if words[READERS + bucket as usize] >= QUERY_COUNT || left > BUCKET_SLOTS {
        return Err(Corrupt);
    }
    Ok(Standing { bucket, left })
}

// Whether a bucket has a reader, and no more than there are queries.
fn has_reader(words: &[u32; WORDS], bucket: u32) -> Result<(), Corrupt>
    ensures { outcome_of result ≡ outcome_map (λ (_ : List ℕ). tt) (take_reader (readers_in words.now) bucket) }
{
    if bucket >= BUCKET_COUNT {
        return Err(Corrupt);
    }
    let readers = words[READERS + bucket as usize];
    if readers == 0 || readers > QUERY_COUNT {
        return Err(Corrupt);
    }
    Ok(())
}

// A reader more at a bucket, and its count noted.
pub fn add_reader(words: &mut [u32; WORDS], bucket: u32) -> Result<Standing, Corrupt>
    ensures { Stands (lent words) (add_reader (count_in words.old) (readers_in words.old) bucket) result }
{
    let standing = room_at(words, bucket)?;
    words[READERS + bucket as usize] += 1;
    Ok(standing)
}

// A reader less.
pub fn take_reader(words: &mut [u32; WORDS], bucket: u32) -> Result<(), Corrupt>
    ensures { ChangesIn put_readers (λ w. take_reader (readers_in w) bucket) result words.old words.new }
{
    has_reader(words, bucket)?;
    words[READERS + bucket as usize] -= 1;
    Ok(())
}

// Leaves a bucket for the next one of the chain. A chain may be damaged, and the next bucket this one itself.
pub fn leave_for(words: &mut [u32; WORDS], bucket: u32, below: u32) -> Result<Standing, Corrupt>
    ensures { Stands (lent words) (leave_for (count_in words.old) (readers_in words.old) bucket below) result }
{
    let standing = room_at(words, below)?;
    if bucket == below {
        return Ok(standing);
    }
    has_reader(words, bucket)?;
    let here = READERS + bucket as usize;
    let there = READERS + below as usize;
    words[there] += 1;
    words[here] -= 1;
    Ok(standing)
}
