// Stages 11 to 13 of an update (document 01: the stages of a report): the new tuple counts, the object index names it, the old tuple is deleted.
// On the words that hold all tables.
#![tactic(auto)]

ghost use Rattle.base.specs.Lent.{lent};
ghost use Rattle.commit.specs.On.{stage11_on, stage12_on, stage13_on, ShiftsAt};
ghost use Rattle.tables.specs.Promise.{OnGrid, OnWords};
ghost use Rattle.stage.specs.Promise.{Turns};

use base::{CELL_COUNT, Corrupt, Stop};
use cells::raise_count;
use index::place::shift_place;
use layout::place::Place;
use slots::tuple::delete_tuple;
use stage::{Stage, Turn, next_stamp};
use tables::seek::seek_object;
use words::{CELLS, CLOCK, COUNT, HITS, INDEX, NEXT, TIMES, WORDS};

// stage 11: the tuple at the place counts from now on.
pub fn raise(words: &mut [u32; WORDS], place: Place) -> Result<Turn, Stop>
    ensures { OnWords (lent words) (Turns (λ t. stage11_on t place) result) }
{
    raise_count(&mut words[COUNT..NEXT], place.bucket)?;
    Ok(Turn::Advanced(Stage::SwitchPlace(place)))
}

// Shifts the places of an entry of the index.
fn shift_entry(words: &mut [u32; WORDS], at: usize, place: Place) -> Result<Option<Place>, Corrupt>
    ensures { OnWords (lent words) (ShiftsAt at place result) }
{
    shift_place(&mut words[INDEX..HITS], at, place)
}

// stage 12: the index names the place, and the cell is free again.
pub fn switch_place(words: &mut [u32; WORDS], place: Place, oid: u32) -> Result<Turn, Stop>
    ensures { OnWords (lent words) (Turns (λ t. stage12_on t place oid) result) }
{
    let i = seek_object(words, oid).found()?;
    if place.cell >= CELL_COUNT {
        return Err(Stop::Corrupt);
    }
    let old = shift_entry(words, i, place)?;
    let next = match old {
        None => Stage::ReleaseObject,
        Some(place) => Stage::DeleteOld(place),
    };
    words[CELLS + place.cell as usize] = 0;
    Ok(Turn::Advanced(next))
}

// stage 13: the old tuple gets the negative of a new stamp. The clock is stored last, when nothing can refuse.
pub fn delete_old(
    words: &mut [u32; WORDS],
    times: &mut [i32; TIMES],
    place: Place,
) -> Result<Turn, Stop>
    ensures { OnGrid (lent words) (lent times) (Turns (λ t. stage13_on t place) result) }
{
    let time = next_stamp(words[CLOCK])?;
    delete_tuple(times, place.bucket, place.slot, time)?;
    words[CLOCK] = time;
    Ok(Turn::Advanced(Stage::ReleaseObject))
}
