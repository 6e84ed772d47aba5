// An update in progress (document 01: a report lane): its object, the place reported with its tag, and its stage.
// And the lock and the stamp that several stages take.
#![tactic(auto, unfolding(crate::specs::Turn::hold, crate::specs::Turn::draw, locks::specs::Lock::look, locks::specs::Lock::take_lock, base::specs::Outcome::need, base::specs::Outcome::awaits, base::specs::Outcome::and_then, base::specs::Outcome::tells, base::specs::Outcome::leaves, base::specs::Step::turn_tells, base::specs::Step::turn_leaves))]

ghost use Rattle.std.specs.Prelude.{◌≡◌};
ghost use Rattle.base.specs.Answer.{outcome_of};
ghost use Rattle.stage.specs.Promise.{Turns};
ghost use Rattle.stage.specs.Turn.{drawn, hold};

use base::{Corrupt, LAST_STAMP, Stop};
use layout::place::Place;
use locks::take_lock;

// What an update does next, with the data of that stage (document 01: the stages of a report).
// The place of stages 2 to 7 is the one being erased; the object with it is the one whose tuple moves there.
// The place of stages 11 and 12 is the new one, that of stage 13 the old one.
#[derive(Clone, Copy, Debug, Default, PartialEq, Eq)]
pub enum Stage {
    #[default]
    Idle,
    TakeObject,
    LockCell(Place),
    LookLast(Place),
    CopyLast(Place, u32),
    LowerCount(Place, u32),
    ReturnBucket(Place, u32, u32),
    ErasePlace(Place, u32),
    ChooseCell,
    MakeRoom,
    WriteTuple,
    RaiseCount(Place),
    SwitchPlace(Place),
    DeleteOld(Place),
    ReleaseObject,
}

#[derive(Clone, Copy, Debug, Default, PartialEq, Eq)]
pub struct Updater {
    pub oid: u32,
    pub x: u32,
    pub y: u32,
    pub tag: u32,
    pub stage: Stage,
}

// What a step of an update that is not refused and not blocked does: on to a stage, back to the first, or finished.
#[derive(Clone, Copy, Debug, PartialEq, Eq)]
pub enum Turn {
    Advanced(Stage),
    Restarted,
    Finished,
}

// Takes a lock and goes on to a stage. Blocked if it is taken.
pub fn hold_lock(locks: &mut [u32], at: usize, owner: u32, next: Stage) -> Result<Turn, Stop>
    ensures { Turns (λ l. hold l at owner next) result locks.old locks.new }
{
    take_lock(locks, at, owner)?;
    Ok(Turn::Advanced(next))
}

// The stamp that is drawn next: the clock with one added, if that is a stamp's magnitude.
pub fn next_stamp(clock: u32) -> Result<u32, Corrupt>
    ensures { outcome_of result ≡ drawn clock }
{
    if clock >= LAST_STAMP {
        return Err(Corrupt);
    }
    Ok(clock + 1)
}
