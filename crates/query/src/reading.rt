// Reading the next slot of a bucket, downwards.
// On the words and the stamps that hold all tables.
ghost use Rattle.std.specs.Prelude.{◌≡◌, length};
ghost use Rattle.hits.specs.Hits.{hits_at, Notes};
ghost use Rattle.query.specs.Scan.{comparable, consider};
ghost use Rattle.query.specs.On.{read_on};
ghost use Rattle.words.specs.Map.{HITS-SIZE};
ghost use Rattle.tables.specs.Promise.{OnGrid};
ghost use Rattle.query.specs.Promise.{Progresses};
ghost use Rattle.base.specs.Lent.{seen, lent};

use crate::moving::one_more;
use crate::{Query, Scan};
use base::{Corrupt, Stop};
use hits::lane::QueryLane;
use hits::note_tuple;
use readers::Standing;
use regions::inside::is_inside;
use regions::region::check_region;
use slots::stamp::in_range;
use slots::tuple::{Seen, is_seen, read_tuple};
use words::{CLOCK, HITS, INDEX, TIMES, TUPLES, WORDS};

// Whether a tuple's stamp can be compared with the query's: a current one's is not, else the query's must be a stamp.
fn can_compare(t: Seen, stamp: u32) -> bool
    ensures { result ≡ comparable stamp t }
{
    !t.deleted || in_range(stamp)
}

// Notes a tuple if it is inside and the query may see it. Gives the size of the query's list afterwards.
fn consider_tuple(list: &mut [u32], lane: QueryLane, q: Query, t: Seen) -> Result<u32, Corrupt>
    requires { length list.old ≡ HITS-SIZE }
    ensures { Notes (λ h. consider h lane.number q t) result (hits_at list.old) (hits_at list.new) }
{
    if !is_inside(q.question, t.x, t.y) {
        return Ok(q.hits);
    }
    if !can_compare(t, q.stamp) {
        return Err(Corrupt);
    }
    if !is_seen(t, q.stamp) {
        return Ok(q.hits);
    }
    note_tuple(list, lane, q.hits, t)
}

// Reads the slot below the last one read.
pub fn read_step(
    words: &mut [u32; WORDS],
    times: &[i32; TIMES],
    lane: QueryLane,
    q: Query,
    cell: u32,
    s: Standing,
) -> Result<Query, Stop>
    ensures { OnGrid (lent words) (seen times) (Progresses (λ t. read_on t lane.number q cell s) result) }
{
    let next = one_more(q)?;
    check_region(q.question).map_err(|_| Corrupt)?;
    let Some(slot) = s.left.checked_sub(1) else {
        return Err(Stop::Corrupt);
    };
    let t = read_tuple(&words[TUPLES..INDEX], times, s.bucket, slot)?;
    let hits = consider_tuple(&mut words[HITS..CLOCK], lane, q, t)?;
    let below = Standing { left: slot, ..s };
    Ok(Query {
        hits,
        stage: Scan::Read(cell, below),
        ..next
    })
}
