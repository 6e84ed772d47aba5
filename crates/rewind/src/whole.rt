// A REWIND, the public operation.
ghost use Rattle.tables.specs.Promise.{OnGrid};
ghost use Rattle.base.specs.Lent.{lent};
ghost use Rattle.rewind.specs.Promise.{Rewinds};

use crate::clock::wind_clock;
use crate::stamps::wind_stamps;
use calls::refusal::Refusal;
use rest::{Lanes, at_rest};
use tables::lengths::right_words;
use words::CLOCK;

// Winds every stamp and the clock back. Refused with 12 (lengths) or 30 (not at rest), which leaves everything as it is.
pub fn rewind(lanes: Lanes, words: &mut [u32], times: &mut [i32]) -> Result<(), Refusal>
    ensures { OnGrid (lent words) (lent times) (Rewinds lanes.updaters lanes.queries result) }
{
    if !right_words(words.len(), times.len()) {
        return Err(Refusal::Corrupt);
    }
    if !at_rest(lanes) {
        return Err(Refusal::Busy);
    }
    wind_stamps(times);
    words[CLOCK] = wind_clock(words[CLOCK]);
    Ok(())
}
