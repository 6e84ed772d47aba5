// How a run of steps ended.
ghost use Rattle.std.specs.Prelude.{◌≡◌};

use crate::pace::Pace;
use crate::refusal::Refusal;

// The end of a run: Moved if all its steps moved on, else how the last one went or why it was refused; how many steps
// were carried out; and the lane afterwards.
#[derive(Clone, Copy, Debug, PartialEq, Eq)]
pub struct Ran<L> {
    pub end: Result<Pace, Refusal>,
    pub made: u32,
    pub lanes: L,
}

impl<L> Ran<L> {
    // A run that has carried out no step.
    pub fn unmade(end: Result<Pace, Refusal>, lanes: L) -> Ran<L>
        ensures { (result.end ≡ end) × (result.made ≡ 0) × (result.lanes ≡ lanes) }
    {
        Ran {
            end,
            made: 0,
            lanes,
        }
    }
}
