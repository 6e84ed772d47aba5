// Why a call is refused: document 01's table, with document 02's additions. Its words are in base/specs/Numbers.antt.
ghost use Rattle.std.specs.Prelude.{◌≡◌};
ghost use Rattle.base.specs.Numbers.{NO-SUCH-LANE, CORRUPT};
ghost use Rattle.base.specs.Outcome.{pick};
ghost use Rattle.tables.specs.Grid.{right_words};
ghost use Rattle.calls.specs.Refusals.{refusal_number, refusal_of, call_number};
ghost use Rattle.calls.specs.declared.refusal.Refusal.TheVariants.{Corrupt as RefusalCorrupt};

use base::Corrupt;
use regions::region::BadRegion;
use tables::lengths::right_words;

// Why a call is refused. Nothing has changed.
#[derive(Clone, Copy, Debug, PartialEq, Eq)]
pub enum Refusal {
    NoSuchLane = 1,
    LaneTaken = 2,
    LaneIdle = 3,
    NoObject = 4,
    OffGrid = 5,
    CrossedCorners = 6,
    GridFull = 7,
    ClockExhausted = 8,
    QueryFinished = 9,
    QueryUnfinished = 10,
    ShortOutput = 11,
    Corrupt = 12,
    Unreadable = 13,
    Busy = 30,
    TagOver = 31,
    RadiusOver = 32,
}

impl From<Corrupt> for Refusal {
    ghost from_gives = { λ _ r. r ≡ RefusalCorrupt };

    fn from(_e: Corrupt) -> Refusal {
        Refusal::Corrupt
    }
}

impl From<BadRegion> for Refusal {
    ghost from_gives = { λ e r. r ≡ refusal_of e };

    fn from(e: BadRegion) -> Refusal {
        match e {
            BadRegion::OffGrid => Refusal::OffGrid,
            BadRegion::Crossed => Refusal::CrossedCorners,
            BadRegion::Wide => Refusal::RadiusOver,
        }
    }
}

impl From<Refusal> for u32 {
    ghost from_gives = { λ r n. n ≡ refusal_number r };

    fn from(r: Refusal) -> u32 {
        r as u32
    }
}

// Why a call in a lane that is none is refused: the tables, where there are too many or too few words or stamps, else the lane.
#[tactic(auto, unfolding(base::specs::Outcome::pick))]
pub fn no_lane(words: usize, times: usize) -> Refusal
    ensures { refusal_number result ≡ pick (right_words words times) NO-SUCH-LANE CORRUPT }
{
    if right_words(words, times) {
        return Refusal::NoSuchLane;
    }
    Refusal::Corrupt
}

// The number of a call that takes no step.
pub fn call_number<A>(answer: &Result<A, Refusal>) -> u32
    ensures { result ≡ call_number answer.now }
{
    match answer {
        Ok(_) => 0,
        Err(r) => u32::from(*r),
    }
}
