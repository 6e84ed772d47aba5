// The bucket pool (document 01: the bucket store): the bucket numbers that stand in no chain.
// The lent table has 513 entries: a stack of bucket numbers, and its height in entry 512.
#![tactic(auto, unfolding(crate::specs::Pool::take_top, crate::specs::Pool::give, crate::specs::Pool::refill, crate::specs::Pool::height, crate::specs::Pool::with_height, base::specs::Outcome::need, base::specs::Outcome::outcome_map, base::specs::Outcome::tells, base::specs::Outcome::leaves))]

ghost use Rattle.std.specs.Prelude.{◌≡◌};
ghost use Rattle.base.specs.Promise.{Changes, Gives};
ghost use Rattle.pool.specs.Pool.{take_top, give, refill, Took};

use base::{BUCKET_COUNT, Corrupt};

// Where the height stands, behind the bucket numbers, and how many numbers the table has.
const HEIGHT: usize = 512;

const ENTRIES: usize = 513;

// Hands out the bucket on top of the stack. Corrupt where the table is damaged or the pool is dry.
pub fn take_bucket(pool: &mut [u32]) -> Result<u32, Corrupt>
    ensures { Gives (λ (t : Took). t.bucket) (λ (t : Took). t.pool) pool.old (take_top pool.old) result pool.new }
{
    if pool.len() != ENTRIES {
        return Err(Corrupt);
    }
    let height = pool[HEIGHT];
    if height == 0 || height > BUCKET_COUNT {
        return Err(Corrupt);
    }
    let bucket = pool[(height - 1) as usize];
    if bucket >= BUCKET_COUNT {
        return Err(Corrupt);
    }
    pool[HEIGHT] = height - 1;
    Ok(bucket)
}

// Puts a bucket back on top.
pub fn give_bucket(pool: &mut [u32], bucket: u32) -> Result<(), Corrupt>
    ensures { Changes pool.old (λ p. give p bucket) result pool.new }
{
    if pool.len() != ENTRIES || bucket >= BUCKET_COUNT {
        return Err(Corrupt);
    }
    let height = pool[HEIGHT];
    if height >= BUCKET_COUNT {
        return Err(Corrupt);
    }
    pool[height as usize] = bucket;
    pool[HEIGHT] = height + 1;
    Ok(())
}

// Makes the pool of all 512 buckets.
pub fn refill_pool(pool: &mut [u32]) -> Result<(), Corrupt>
    ensures { Changes pool.old refill result pool.new }
{
    if pool.len() != ENTRIES {
        return Err(Corrupt);
    }
    for i in 0..513 {
        pool[i as usize] = i;
    }
    Ok(())
}
