// Stages 1, 2, 3 and 14 of an update: it takes and releases the locks of objects and cells.
// On the index, the locks of the cells, or the words that hold all tables; the length of the index is the caller's to
// check.
#![tactic(auto)]

ghost use Rattle.std.specs.Prelude.{◌≡◌, length};
ghost use Rattle.index.specs.Index.{index_at, with_lock};
ghost use Rattle.tables.specs.Tables.{with_locks};
ghost use Rattle.acquire.specs.Acquire.{stage2};
ghost use Rattle.acquire.specs.On.{lock_object, free_object, take_on, end_on, back_on, last_on};
ghost use Rattle.base.specs.Promise.{AttemptsIn, ChangesIn};
ghost use Rattle.words.specs.Map.{INDEX-SIZE};
ghost use Rattle.tables.specs.Promise.{OnWords};
ghost use Rattle.stage.specs.Promise.{Turns};
ghost use Rattle.base.specs.Lent.{lent};

use base::{CELL_COUNT, Corrupt, Stop};
use cells::last_tuple;
use index::place::read_place;
use index::search::{Search, find_object};
use layout::place::Place;
use locks::{look_lock, release_lock, take_lock};
use stage::{Stage, Turn, hold_lock};
use words::{
    CELLS, FIRST, HITS, INDEX, INDEX_CURRENT, INDEX_LOCKS, INDEX_PREVIOUS, INDEX_SIZE, WORDS,
};

// Takes the lock of an object's entry. Blocked if it is taken.
fn lock_object(index: &mut [u32], oid: u32, owner: u32) -> Result<(), Stop>
    requires { length index.old ≡ INDEX-SIZE }
    ensures { AttemptsIn with_lock (λ d. lock_object d oid owner) result (index_at index.old) (index_at index.new) }
{
    let Search::Found(i) = find_object(&index[0..INDEX_LOCKS], oid) else {
        return Err(Stop::Corrupt);
    };
    take_lock(&mut index[INDEX_LOCKS..INDEX_CURRENT], i, owner)
}

// Frees the lock of an object's entry.
fn free_object(index: &mut [u32], oid: u32) -> Result<(), Corrupt>
    requires { length index.old ≡ INDEX-SIZE }
    ensures { ChangesIn with_lock (λ d. free_object d oid) result (index_at index.old) (index_at index.new) }
{
    let Search::Found(i) = find_object(&index[0..INDEX_LOCKS], oid) else {
        return Err(Corrupt);
    };
    release_lock(&mut index[INDEX_LOCKS..INDEX_CURRENT], i)
}

// stage 1: takes the object's lock. With a previous place it goes on to lock that place's cell, else to choose the new cell.
pub fn take_object(index: &mut [u32], oid: u32, owner: u32) -> Result<Turn, Stop>
    requires { length index.old ≡ INDEX-SIZE }
    ensures { Turns (λ d. take_on d oid owner) result (index_at index.old) (index_at index.new) }
{
    let Search::Found(i) = find_object(&index[0..INDEX_LOCKS], oid) else {
        return Err(Stop::Corrupt);
    };
    look_lock(&index[INDEX_LOCKS..INDEX_CURRENT], i)?;
    let previous = read_place(&index[INDEX_PREVIOUS..INDEX_SIZE], i)?;
    let next = match previous {
        None => Stage::ChooseCell,
        Some(place) => Stage::LockCell(place),
    };
    hold_lock(&mut index[INDEX_LOCKS..INDEX_CURRENT], i, owner, next)
}

// stage 2: locks the cell of the place to be erased.
pub fn lock_cell(cells: &mut [u32], place: Place, owner: u32) -> Result<Turn, Stop>
    ensures { Turns (λ l. stage2 l place owner) result cells.old cells.new }
{
    hold_lock(cells, place.cell as usize, owner, Stage::LookLast(place))
}

// stage 3, where the other object's lock is taken: releases the own object and the cell, and goes back to stage 1.
fn go_back(words: &mut [u32; WORDS], place: Place, oid: u32) -> Result<Turn, Stop>
    ensures { OnWords (lent words) (Turns (λ t. back_on t place oid) result) }
{
    if place.cell >= CELL_COUNT {
        return Err(Stop::Corrupt);
    }
    free_object(&mut words[INDEX..HITS], oid)?;
    let cells = &mut words[CELLS..FIRST];
    cells[place.cell as usize] = 0;
    Ok(Turn::Restarted)
}

// stage 3: takes the lock of the other object.
fn lock_other(words: &mut [u32; WORDS], oid: u32, owner: u32) -> Result<(), Stop>
    ensures { OnWords (lent words) (AttemptsIn with_locks (λ t. lock_object t.index oid owner) result) }
{
    lock_object(&mut words[INDEX..HITS], oid, owner)
}

// stage 3: looks at the last tuple of the cell's first bucket. If it is another object's, it takes that object's lock, or goes back if that is taken.
pub fn look_last(words: &mut [u32; WORDS], place: Place, oid: u32, owner: u32) -> Result<Turn, Stop>
    ensures { OnWords (lent words) (Turns (λ t. last_on t place oid owner) result) }
{
    let last = last_tuple(words, place.cell)?;
    if last.oid == oid {
        return Ok(Turn::Advanced(Stage::CopyLast(place, oid)));
    }
    match lock_other(words, last.oid, owner) {
        Ok(()) => Ok(Turn::Advanced(Stage::CopyLast(place, last.oid))),
        Err(Stop::Blocked) => go_back(words, place, oid),
        Err(Stop::Corrupt) => Err(Stop::Corrupt),
    }
}

// stage 14: releases the object. The update has ended.
pub fn release_object(index: &mut [u32], oid: u32) -> Result<Turn, Stop>
    requires { length index.old ≡ INDEX-SIZE }
    ensures { Turns (λ d. end_on d oid) result (index_at index.old) (index_at index.new) }
{
    free_object(index, oid)?;
    Ok(Turn::Finished)
}
