// Stage 8 of an update (document 01: the stages of a report): the tuple is overwritten in its cell, or another cell is locked for it.
// On the words that hold all tables. The clock is stored last, when nothing can refuse.
#![tactic(auto)]

ghost use Rattle.std.specs.Prelude.{◌≡◌, List, ℤ};
ghost use Rattle.base.specs.Answer.{outcome_of};
ghost use Rattle.tables.specs.Grid.{grid};
ghost use Rattle.choose.specs.On.{here_on, rewrite_on, lock_new_on, stage8_on};
ghost use Rattle.tables.specs.Promise.{OnGrid, OnWords};
ghost use Rattle.stage.specs.Promise.{Turns};
ghost use Rattle.base.specs.Lent.{lent};

use base::{Corrupt, Stop};
use cells::overwrite_slot;
use index::place::read_place;
use layout::place::{Place, cell_of, on_grid};
use slots::tuple::Report;
use stage::{Stage, Turn, hold_lock, next_stamp};
use tables::seek::seek_object;
use words::{CELLS, CLOCK, CURRENT, FIRST, PREVIOUS, TIMES, WORDS};

// Draws a stamp and overwrites the tuple at the place.
fn rewrite_tuple(
    words: &mut [u32; WORDS],
    times: &mut [i32; TIMES],
    place: Place,
    report: Report,
) -> Result<Turn, Stop>
    ensures { OnGrid (lent words) (lent times) (Turns (λ t. rewrite_on t place report.oid report.x report.y report.tag) result) }
{
    let time = next_stamp(words[CLOCK])?;
    overwrite_slot(words, times, place.bucket, place.slot, report, time)?;
    words[CLOCK] = time;
    Ok(Turn::Advanced(Stage::ReleaseObject))
}

// Locks the cell into which the tuple will be written.
fn lock_new(words: &mut [u32; WORDS], cell: u32, owner: u32) -> Result<Turn, Stop>
    ensures { OnWords (lent words) (Turns (λ t. lock_new_on t cell owner) result) }
{
    hold_lock(
        &mut words[CELLS..FIRST],
        cell as usize,
        owner,
        Stage::MakeRoom,
    )
}

// The current place of an object that is to stand at a point of the grid, if it has one.
fn current_place(words: &[u32; WORDS], oid: u32, x: u32, y: u32) -> Result<Option<Place>, Corrupt>
    ensures { (ts : List ℤ) → here_on (grid words.now ts) oid x y ≡ outcome_of result }
{
    if !on_grid(x, y) {
        return Err(Corrupt);
    }
    let i = seek_object(words, oid).found()?;
    read_place(&words[CURRENT..PREVIOUS], i)
}

// stage 8: the tuple is overwritten where the object stays in its cell, else the new cell is locked.
pub fn choose_cell(
    words: &mut [u32; WORDS],
    times: &mut [i32; TIMES],
    report: Report,
    owner: u32,
) -> Result<Turn, Stop>
    ensures { OnGrid (lent words) (lent times) (Turns (λ t. stage8_on t report.oid report.x report.y report.tag owner) result) }
{
    let here = current_place(words, report.oid, report.x, report.y)?;
    let cell = cell_of(report.x, report.y);
    let Some(place) = here else {
        return lock_new(words, cell, owner);
    };
    if place.cell != cell {
        return lock_new(words, cell, owner);
    }
    rewrite_tuple(words, times, place, report)
}
