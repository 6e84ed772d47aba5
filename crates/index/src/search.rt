// Search, entering an object, and counting.
ghost use Rattle.std.specs.Prelude.{◌≡◌, ◌<◌, length};
ghost use Rattle.base.specs.Answer.{outcome_of};
ghost use Rattle.base.specs.Promise.{Changes};
ghost use Rattle.words.specs.Part.{part};
ghost use Rattle.index.specs.Search.{search, found_at, known};
ghost use Rattle.index.specs.Index.{index_at, new_entry, put_entry, enter};
ghost use Rattle.words.specs.Map.{INDEX-SIZE};

use crate::hash::start_of;
use base::{Corrupt, ENTRY_COUNT};
use layout::place::NOWHERE;
use words::{INDEX_CURRENT, INDEX_LOCKS, INDEX_PREVIOUS};

// Where a search ended: at the object's entry, or at an empty one. A search that wrapped ends at its start, whose entry is not empty.
// Document 01 asks for the two answers Found and Empty.
#[derive(Clone, Copy, Debug, PartialEq, Eq)]
pub enum Search {
    Found(usize),
    Empty(usize),
}

impl Search {
    // The entry at which the object was found. An object that is missing is corrupt.
    pub fn found(self) -> Result<usize, Corrupt>
        ensures { outcome_of result ≡ found_at self }
    {
        match self {
            Search::Found(i) => Ok(i),
            Search::Empty(_) => Err(Corrupt),
        }
    }
}

// Goes from entry to entry, from 511 to 0, until the object or an empty one.
// The entry goes from turn to turn: reckoned in each from how many are passed, it takes more instructions.
pub fn find_object(oids: &[u32], oid: u32) -> Search
    requires { length oids.now ≡ 512 }
    ensures { result ≡ search oids.now oid }
{
    let start = start_of(oid) as usize;
    let mut i = start;
    for _ in 0..ENTRY_COUNT {
        let o = oids[i];
        if o == 0 {
            return Search::Empty(i);
        }
        if o == oid {
            return Search::Found(i);
        }
        i = (i + 1) % ENTRY_COUNT;
    }
    Search::Empty(start)
}

// Writes a new entry: the object without places, its lock free.
fn put_new(index: &mut [u32], at: usize, oid: u32)
    requires { (length index.old ≡ INDEX-SIZE) × (at < 512) }
    ensures { put_entry (index_at index.old) at oid new_entry ≡ index_at index.new }
{
    index[at] = oid;
    index[INDEX_LOCKS + at] = 0;
    index[INDEX_CURRENT + at] = NOWHERE;
    index[INDEX_PREVIOUS + at] = NOWHERE;
}

// Enters an object where the search for it ended, without places and with its lock free; leaves a known one as it is.
pub fn enter_at(index: &mut [u32], s: Search, oid: u32) -> Result<(), Corrupt>
    requires { (length index.old ≡ INDEX-SIZE) × (s ≡ search (part 0 512 index.old) oid) }
    ensures { Changes (index_at index.old) (λ d. enter d oid) result (index_at index.new) }
{
    let Search::Empty(i) = s else {
        return Ok(());
    };
    if index[i] != 0 {
        return Err(Corrupt);
    }
    put_new(index, i, oid);
    Ok(())
}

// The same, after a search.
pub fn enter_object(index: &mut [u32], oid: u32) -> Result<(), Corrupt>
    requires { length index.old ≡ INDEX-SIZE }
    ensures { Changes (index_at index.old) (λ d. enter d oid) result (index_at index.new) }
{
    let s = find_object(&index[0..INDEX_LOCKS], oid);
    enter_at(index, s, oid)
}

// How many objects are known. A loop: the iterator's count of those that a test keeps takes twice the time.
pub fn count_known(oids: &[u32]) -> usize
    ensures { result ≡ known oids.now }
{
    let mut n: usize = 0;
    for o in oids {
        if *o != 0 {
            n += 1;
        }
    }
    n
}
