// How a step that is not refused went.
ghost use Rattle.std.specs.Prelude.{◌≡◌, ◌≤◌};
ghost use Rattle.calls.specs.Refusals.{pace_number, end_number};
ghost use Rattle.calls.specs.Run.{carried_out};

use crate::refusal::Refusal;

// A step moved on, was blocked, which changes nothing, went back, or finished.
#[derive(Clone, Copy, Debug, PartialEq, Eq)]
pub enum Pace {
    Moved = 0,
    Blocked = 20,
    Restarted = 21,
    Finished = 22,
}

impl From<Pace> for u32 {
    ghost from_gives = { λ p n. n ≡ pace_number p };

    fn from(p: Pace) -> u32 {
        p as u32
    }
}

// What a step comes to: how it went, and the lane, or the lanes, afterwards.
#[derive(Clone, Copy, Debug, PartialEq, Eq)]
pub struct Stepped<L> {
    pub pace: Pace,
    pub lanes: L,
}

// How many steps a step was that went so: 1 if it was carried out, 0 if it was blocked.
pub fn carried_out(pace: Pace) -> u32
    ensures { (result ≡ carried_out (pace_number pace)) × (result ≤ 1) }
{
    crate::carried_out(u32::from(pace))
}

// The number of a step, or of a run of steps.
pub fn end_number(end: Result<Pace, Refusal>) -> u32
    ensures { result ≡ end_number end }
{
    match end {
        Ok(p) => u32::from(p),
        Err(r) => u32::from(r),
    }
}
