// The start of an update (document 01: report start).
ghost use Rattle.std.specs.Prelude.{◌≡◌, List, ℤ};
ghost use Rattle.index.specs.Index.{enter};
ghost use Rattle.index.specs.Search.{search};
ghost use Rattle.tables.specs.Grid.{grid};
ghost use Rattle.tables.specs.Tables.{with_index};
ghost use Rattle.updates.specs.Update.{search_has_room};
ghost use Rattle.base.specs.Promise.{ChangesIn};
ghost use Rattle.tables.specs.Promise.{OnGrid, OnWords};
ghost use Rattle.updates.specs.Promise.{Starts, StartsOne};
ghost use Rattle.base.specs.Lent.{seen, lent};

use base::{CLOCK_SPENT, Corrupt, LAST_TAG, MOST_OBJECTS, UPDATER_COUNT};
use calls::refusal::{Refusal, no_lane};
use index::search::{Search, count_known, enter_at};
use layout::place::on_grid;
use stage::{Stage, Updater};
use tables::seek::seek_object;
use words::{CLOCK, HITS, INDEX, LOCKS, TIMES, WORDS};

// Whether an object may be reported, whose search ended there: it is known, or fewer than 256 are.
fn has_room(words: &[u32; WORDS], s: Search) -> bool
    ensures { (ts : List ℤ) → search_has_room s (grid words.now ts).index.oid ≡ result }
{
    let Search::Empty(_) = s else {
        return true;
    };
    count_known(&words[INDEX..LOCKS]) < MOST_OBJECTS
}

// Enters an object where its search ended; leaves a known one as it is.
fn enter_there(words: &mut [u32; WORDS], s: Search, oid: u32) -> Result<(), Corrupt>
    requires { (ts : List ℤ) → search (grid words.old ts).index.oid oid ≡ s }
    ensures { OnWords (lent words) (ChangesIn with_index (λ t. enter t.index oid) result) }
{
    enter_at(&mut words[INDEX..HITS], s, oid)
}

// Object, place and tag are four parameters of a call, as document 01 and its script have them.
// Starts an update of an object's place and tag in a lane, given by value. Refused with 12 (lengths), 1, 2, 4, 5, 31, 7
// or 8, which leaves the lane as it is.
pub fn start_one(
    u: Updater,
    lane: u32,
    oid: u32,
    x: u32,
    y: u32,
    tag: u32,
    words: &mut [u32],
    times: &[i32],
) -> Result<Updater, Refusal>
    ensures { OnGrid (lent words) (seen times) (StartsOne u lane oid x y tag result) }
{
    let Some(words) = words.as_mut_array::<WORDS>() else {
        return Err(Refusal::Corrupt);
    };
    if times.len() != TIMES {
        return Err(Refusal::Corrupt);
    }
    if lane >= UPDATER_COUNT {
        return Err(Refusal::NoSuchLane);
    }
    let Stage::Idle = u.stage else {
        return Err(Refusal::LaneTaken);
    };
    if oid == 0 {
        return Err(Refusal::NoObject);
    }
    if !on_grid(x, y) {
        return Err(Refusal::OffGrid);
    }
    if tag > LAST_TAG {
        return Err(Refusal::TagOver);
    }
    let place = seek_object(words, oid);
    if !has_room(words, place) {
        return Err(Refusal::GridFull);
    }
    if words[CLOCK] >= CLOCK_SPENT {
        return Err(Refusal::ClockExhausted);
    }
    enter_there(words, place, oid)?;
    Ok(Updater {
        oid,
        x,
        y,
        tag,
        stage: Stage::TakeObject,
    })
}

// Starts an update of an object's place and tag in one of the lanes: what `start_one` does there.
// Written out for each call: the five are lent words and stamps in three ways (to read, one to write, both to write), so
// that no one type of closure fits them, and a closure with its contract is longer than these lines.
pub fn update_start(
    updaters: [Updater; 8],
    lane: u32,
    oid: u32,
    x: u32,
    y: u32,
    tag: u32,
    words: &mut [u32],
    times: &[i32],
) -> Result<[Updater; 8], Refusal>
    ensures { OnGrid (lent words) (seen times) (Starts updaters lane oid x y tag result) }
{
    if lane >= UPDATER_COUNT {
        return Err(no_lane(words.len(), times.len()));
    }
    let at = lane as usize;
    let mut next = updaters;
    next[at] = start_one(updaters[at], lane, oid, x, y, tag, words, times)?;
    Ok(next)
}
