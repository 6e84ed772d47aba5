// The results of range queries (document 01: the lists of the sweeps): object, x, y and tag of each hit, 256 entries for
// each of four queries.
// One list of four columns, objects, x, y and tags, of 1,024 numbers each, those of query l from entry 256 × l on. Its
// length is the caller's to check.
// A slice: as an array, each caller would have to unwrap a part of the words, with a proof of its length.
// Columns of numbers: the memory is lent and fixed, and there is no heap.
#![tactic(auto)]

ghost use Rattle.std.specs.Prelude.{◌≡◌, ◌<◌, ◌≤◌, ◌+◌, length};
ghost use Rattle.hits.specs.Hits.{hits_at, put_hit, look_from, Finds, note, Notes};
ghost use Rattle.words.specs.Map.{HITS-SIZE};

pub mod lane;

use crate::lane::QueryLane;
use base::{Corrupt, LIST_SIZE};
use slots::tuple::Seen;
use words::{HIT_TAGS, HIT_XS, HIT_YS};

// What a look-up hands back: where the object stands in the list, if it does, and how many entries were looked at.
#[derive(Clone, Copy, Debug, PartialEq, Eq)]
pub struct Lookup {
    pub listed: Option<usize>,
    pub looked: usize,
}

// Looks an object up in size entries from one on. It ends at the first that matches.
// Document 01 asks for a loop that yields the entry's index by break. It counts what is left, which
// takes fewer instructions an entry than counting up to a limit; how many entries were looked at is read off that count.
pub fn find_hit(hits: &[u32], from: usize, size: usize, oid: u32) -> Lookup
    requires { (length hits.now ≡ 1024) × (from + size ≤ 1024) }
    ensures { Finds (look_from hits.now oid size from) size from result }
{
    let end = from + size;
    let mut left = size;
    let found = loop {
        if left == 0 {
            return Lookup {
                listed: None,
                looked: size - left,
            };
        }
        if hits[end - left] == oid {
            break end - left;
        }
        left -= 1;
    };
    Lookup {
        listed: Some(found),
        looked: size - left + 1,
    }
}

// Writes a tuple's object, place and tag over an entry.
fn put_hit(list: &mut [u32], at: usize, t: Seen)
    requires { (length list.old ≡ HITS-SIZE) × (at < 1024) }
    ensures { put_hit (hits_at list.old) at t ≡ hits_at list.new }
{
    list[at] = t.oid;
    list[HIT_XS + at] = t.x;
    list[HIT_YS + at] = t.y;
    list[HIT_TAGS + at] = t.tag;
}

// Notes a tuple in a query's list: a current one is added or replaces its object's entry, a deleted one is added if its object is not listed.
// Hands back the size of the list afterwards.
pub fn note_tuple(list: &mut [u32], lane: QueryLane, size: u32, t: Seen) -> Result<u32, Corrupt>
    requires { length list.old ≡ HITS-SIZE }
    ensures { Notes (λ h. note h lane.number size t) result (hits_at list.old) (hits_at list.new) }
{
    let entries = size as usize;
    if entries > LIST_SIZE {
        return Err(Corrupt);
    }
    let from = LIST_SIZE * lane.number as usize;
    let found = find_hit(&list[0..HIT_XS], from, entries, t.oid);
    let Some(i) = found.listed else {
        if entries == LIST_SIZE {
            return Err(Corrupt);
        }
        put_hit(list, from + entries, t);
        return Ok(size + 1);
    };
    if t.deleted {
        return Ok(size);
    }
    put_hit(list, i, t);
    Ok(size)
}
