// One stage of an update, on the words that hold all tables, and the stamps.
#![tactic(auto, unfolding(crate::specs::Stages::stage_on, acquire::specs::On::last_on, erase::specs::On::stage7_on, choose::specs::On::stage8_on, commit::specs::On::stage12_on, commit::specs::On::stage13_on, base::specs::Step::turn_tells, base::specs::Step::turn_leaves))]

ghost use Rattle.base.specs.Lent.{lent};
ghost use Rattle.turns.specs.Stages.{stage_on};
ghost use Rattle.tables.specs.Promise.{OnGrid};
ghost use Rattle.stage.specs.Promise.{Turns};

mod locking;

use crate::locking::{cell_in, release_in, take_in};
use acquire::look_last;
use base::Stop;
use choose::choose_cell;
use commit::{delete_old, raise, switch_place};
use erase::{copy_last, erase_entry, give_back, lower_first};
use slots::tuple::Report;
use stage::{Stage, Turn, Updater};
use words::{TIMES, WORDS};
use write::{make_room_stage, write_new};

// Does the stage that an updater is at. The owner of the locks it takes is 1 + its number.
// The stage is data that a lane keeps between two calls, so a match on it is plainer than a closure, which none could keep.
pub fn step_stage(
    words: &mut [u32; WORDS],
    times: &mut [i32; TIMES],
    owner: u32,
    u: Updater,
) -> Result<Turn, Stop>
    ensures { OnGrid (lent words) (lent times) (Turns (λ t. stage_on t owner u u.stage) result) }
{
    let report = Report {
        oid: u.oid,
        x: u.x,
        y: u.y,
        tag: u.tag,
    };
    match u.stage {
        Stage::Idle => Err(Stop::Corrupt),
        Stage::TakeObject => take_in(words, owner, u),
        Stage::LockCell(p) => cell_in(words, owner, u, p),
        Stage::LookLast(p) => look_last(words, p, u.oid, owner),
        Stage::CopyLast(p, m) => copy_last(words, times, p, m),
        Stage::LowerCount(p, m) => lower_first(words, p, m),
        Stage::ReturnBucket(p, m, b) => give_back(words, p, m, b),
        Stage::ErasePlace(p, m) => erase_entry(words, times, p, m, u.oid),
        Stage::ChooseCell => choose_cell(words, times, report, owner),
        Stage::MakeRoom => make_room_stage(words, u.x, u.y),
        Stage::WriteTuple => write_new(words, times, report),
        Stage::RaiseCount(p) => raise(words, p),
        Stage::SwitchPlace(p) => switch_place(words, p, u.oid),
        Stage::DeleteOld(p) => delete_old(words, times, p),
        Stage::ReleaseObject => release_in(words, owner, u),
    }
}
