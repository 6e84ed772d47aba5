// Stages 4 to 7 of an update: a tuple is erased by moving the cell's last one over it.
// On the words that hold all tables, and the stamps.
// A place and the object that moves there stay two parameters: a stage carries them side by side, as document 01 has them.
#![tactic(auto)]

ghost use Rattle.std.specs.Prelude.{◌<◌};
ghost use Rattle.base.specs.Lent.{seen, lent};
ghost use Rattle.erase.specs.On.{stage4_on, stage5_on, stage6_on, moved_on, stage7_on};
ghost use Rattle.tables.specs.Promise.{OnGrid, OnWords};
ghost use Rattle.stage.specs.Promise.{Turns};

use base::{CELL_COUNT, Stop};
use cells::{copy_slot, last_tuple, lower_count, return_bucket};
use index::search::Search;
use layout::place::{NOWHERE, Place, encode_place};
use slots::tuple::read_sign;
use stage::{Stage, Turn};
use tables::seek::seek_object;
use words::{CELLS, CURRENT, LOCKS, PREVIOUS, TIMES, WORDS};

// stage 4: copies the last tuple of the cell's first bucket over the one being erased
pub fn copy_last(
    words: &mut [u32; WORDS],
    times: &mut [i32; TIMES],
    place: Place,
    moved: u32,
) -> Result<Turn, Stop>
    ensures { OnGrid (lent words) (lent times) (Turns (λ t. stage4_on t place moved) result) }
{
    let last = last_tuple(words, place.cell)?;
    copy_slot(
        words,
        times,
        last.bucket,
        last.slot,
        place.bucket,
        place.slot,
    )?;
    Ok(Turn::Advanced(Stage::LowerCount(place, moved)))
}

// stage 5: lowers the first bucket's count; at zero the bucket is unlinked, and returned next
pub fn lower_first(words: &mut [u32; WORDS], place: Place, moved: u32) -> Result<Turn, Stop>
    ensures { OnWords (lent words) (Turns (λ t. stage5_on t place moved) result) }
{
    let unlinked = lower_count(words, place.cell)?;
    let next = match unlinked {
        None => Stage::ErasePlace(place, moved),
        Some(bucket) => Stage::ReturnBucket(place, moved, bucket),
    };
    Ok(Turn::Advanced(next))
}

// stage 6: returns the unlinked bucket to the pool; blocked while it has readers
pub fn give_back(
    words: &mut [u32; WORDS],
    place: Place,
    moved: u32,
    bucket: u32,
) -> Result<Turn, Stop>
    ensures { OnWords (lent words) (Turns (λ t. stage6_on t place moved bucket) result) }
{
    return_bucket(words, bucket)?;
    Ok(Turn::Advanced(Stage::ErasePlace(place, moved)))
}

// stage 7: erases the object's previous place and releases the cell; where another object's tuple moved, in correct_moved
pub fn erase_entry(
    words: &mut [u32; WORDS],
    times: &[i32; TIMES],
    place: Place,
    moved: u32,
    oid: u32,
) -> Result<Turn, Stop>
    ensures { OnGrid (lent words) (seen times) (Turns (λ t. stage7_on t place moved oid) result) }
{
    let Search::Found(i) = seek_object(words, oid) else {
        return Err(Stop::Corrupt);
    };
    if moved != oid {
        return correct_moved(words, times, place, moved, i);
    }
    if place.cell >= CELL_COUNT {
        return Err(Stop::Corrupt);
    }
    words[PREVIOUS + i] = NOWHERE;
    words[CELLS + place.cell as usize] = 0;
    Ok(Turn::Advanced(Stage::ChooseCell))
}

// stage 7 from the object's entry i on, where another object's tuple moved: that object's entry names the new place, and its lock is released too
fn correct_moved(
    words: &mut [u32; WORDS],
    times: &[i32; TIMES],
    place: Place,
    moved: u32,
    i: usize,
) -> Result<Turn, Stop>
    requires { i < 512 }
    ensures { OnGrid (lent words) (seen times) (Turns (λ t. moved_on t place moved i) result) }
{
    let Search::Found(j) = seek_object(words, moved) else {
        return Err(Stop::Corrupt);
    };
    let deleted = read_sign(times, place.bucket, place.slot)?;
    let number = encode_place(place)?;
    words[PREVIOUS + i] = NOWHERE;
    words[LOCKS + j] = 0;
    words[CELLS + place.cell as usize] = 0;
    if deleted {
        words[PREVIOUS + j] = number;
        return Ok(Turn::Advanced(Stage::ChooseCell));
    }
    words[CURRENT + j] = number;
    Ok(Turn::Advanced(Stage::ChooseCell))
}
