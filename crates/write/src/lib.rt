// Stages 9 and 10 of an update (document 01: the stages of a report): room is made in the new cell, and the tuple is written there.
// On the words that hold all tables. The clock is stored last, when nothing can refuse.
#![tactic(auto, unfolding(crate::specs::Write::stage9, crate::specs::Write::stage10, base::specs::Outcome::need, base::specs::Step::lift, base::specs::Step::turn_tells, base::specs::Step::turn_leaves))]

ghost use Rattle.base.specs.Lent.{lent};
ghost use Rattle.write.specs.On.{stage9_on, stage10_on};
ghost use Rattle.tables.specs.Promise.{OnGrid, OnWords};
ghost use Rattle.stage.specs.Promise.{Turns};

use base::Stop;
use cells::{make_room, write_tuple};
use layout::place::{cell_of, on_grid};
use slots::tuple::Report;
use stage::{Stage, Turn, next_stamp};
use words::{CLOCK, TIMES, WORDS};

// stage 9: the new cell gets room for a tuple.
pub fn make_room_stage(words: &mut [u32; WORDS], x: u32, y: u32) -> Result<Turn, Stop>
    ensures { OnWords (lent words) (Turns (λ t. stage9_on t x y) result) }
{
    if !on_grid(x, y) {
        return Err(Stop::Corrupt);
    }
    make_room(words, cell_of(x, y))?;
    Ok(Turn::Advanced(Stage::WriteTuple))
}

// stage 10: the tuple is written with a new stamp, and goes uncounted yet.
pub fn write_new(
    words: &mut [u32; WORDS],
    times: &mut [i32; TIMES],
    report: Report,
) -> Result<Turn, Stop>
    ensures { OnGrid (lent words) (lent times) (Turns (λ t. stage10_on t report.oid report.x report.y report.tag) result) }
{
    if !on_grid(report.x, report.y) {
        return Err(Stop::Corrupt);
    }
    let time = next_stamp(words[CLOCK])?;
    let place = write_tuple(words, times, cell_of(report.x, report.y), report, time)?;
    words[CLOCK] = time;
    Ok(Turn::Advanced(Stage::RaiseCount(place)))
}
