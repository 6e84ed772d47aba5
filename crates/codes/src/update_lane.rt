// A lane of an update in ten numbers: object, x, y, tag, number of the stage (0 idle, 1 to 14 as document 01 counts
// them), cell, bucket and slot of the place, the object that moves, the unlinked bucket. What a stage does not carry is
// 0.
ghost use Rattle.std.specs.Prelude.{◌≡◌, eqb, leb};
ghost use Rattle.base.specs.Table.{at};
ghost use Rattle.stage.specs.Turn.{is_idle};
ghost use Rattle.codes.specs.Updaters.{STAGE-AT, LAST-STAGE, code_stage, stage_of, code_updater, decode_updater};

use layout::place::Place;
use stage::{Stage, Updater};

// How many numbers a lane is, where its stage is, and the number of the last stage.
pub const UPDATER_NUMBERS: usize = 10;

pub const STAGE_AT: usize = 4;

pub const LAST_STAGE: u32 = 14;

// A stage in numbers.
#[derive(Clone, Copy, Debug, PartialEq, Eq)]
pub struct StageCode {
    pub stage: u32,
    pub place: Place,
    pub moved: u32,
    pub bucket: u32,
}

impl From<Stage> for StageCode {
    ghost from_gives = { λ s c. c ≡ code_stage s };

    fn from(s: Stage) -> StageCode {
        let none = Place {
            cell: 0,
            bucket: 0,
            slot: 0,
        };
        let (stage, place, moved, bucket) = match s {
            Stage::Idle => (0, none, 0, 0),
            Stage::TakeObject => (1, none, 0, 0),
            Stage::LockCell(place) => (2, place, 0, 0),
            Stage::LookLast(place) => (3, place, 0, 0),
            Stage::CopyLast(place, moved) => (4, place, moved, 0),
            Stage::LowerCount(place, moved) => (5, place, moved, 0),
            Stage::ReturnBucket(place, moved, bucket) => (6, place, moved, bucket),
            Stage::ErasePlace(place, moved) => (7, place, moved, 0),
            Stage::ChooseCell => (8, none, 0, 0),
            Stage::MakeRoom => (9, none, 0, 0),
            Stage::WriteTuple => (10, none, 0, 0),
            Stage::RaiseCount(place) => (11, place, 0, 0),
            Stage::SwitchPlace(place) => (12, place, 0, 0),
            Stage::DeleteOld(place) => (13, place, 0, 0),
            Stage::ReleaseObject => (14, none, 0, 0),
        };
        StageCode {
            stage,
            place,
            moved,
            bucket,
        }
    }
}

// A number that names no stage is not given.
impl From<StageCode> for Stage {
    ghost from_gives = { λ c s. s ≡ stage_of c.stage c.place c.moved c.bucket };

    fn from(c: StageCode) -> Stage {
        match c.stage {
            1 => Stage::TakeObject,
            2 => Stage::LockCell(c.place),
            3 => Stage::LookLast(c.place),
            4 => Stage::CopyLast(c.place, c.moved),
            5 => Stage::LowerCount(c.place, c.moved),
            6 => Stage::ReturnBucket(c.place, c.moved, c.bucket),
            7 => Stage::ErasePlace(c.place, c.moved),
            8 => Stage::ChooseCell,
            9 => Stage::MakeRoom,
            10 => Stage::WriteTuple,
            11 => Stage::RaiseCount(c.place),
            12 => Stage::SwitchPlace(c.place),
            13 => Stage::DeleteOld(c.place),
            14 => Stage::ReleaseObject,
            _ => Stage::Idle,
        }
    }
}

// An update that is idle exactly if the number of its stage says so: all that a start looks at.
pub fn seen_updater(stage: u32) -> Updater
    ensures { is_idle result.stage ≡ eqb stage 0 }
{
    Updater {
        oid: 0,
        x: 0,
        y: 0,
        tag: 0,
        stage: match stage {
            0 => Stage::Idle,
            _ => Stage::TakeObject,
        },
    }
}

// Whether the number of a lane's stage names one.
pub fn names_stage(lane: &[u32; UPDATER_NUMBERS]) -> bool
    ensures { result ≡ leb (at lane.now STAGE-AT) LAST-STAGE }
{
    lane[STAGE_AT] <= LAST_STAGE
}

// The update whose numbers these are.
pub fn decode_updater(lane: &[u32; UPDATER_NUMBERS]) -> Updater
    ensures { result ≡ decode_updater lane.now }
{
    let &[oid, x, y, tag, stage, cell, bucket, slot, moved, unlinked] = lane;
    let code = StageCode {
        stage,
        place: Place { cell, bucket, slot },
        moved,
        bucket: unlinked,
    };
    Updater {
        oid,
        x,
        y,
        tag,
        stage: Stage::from(code),
    }
}

// The numbers of an update.
pub fn code_updater(u: Updater) -> [u32; UPDATER_NUMBERS]
    ensures { result ≡ code_updater u }
{
    let code = StageCode::from(u.stage);
    [
        u.oid,
        u.x,
        u.y,
        u.tag,
        code.stage,
        code.place.cell,
        code.place.bucket,
        code.place.slot,
        code.moved,
        code.bucket,
    ]
}
