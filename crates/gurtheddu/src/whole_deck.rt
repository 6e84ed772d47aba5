// The calls of a whole deck: the empty grid (document 01: a fresh deck), and winding the clock back (document 02,
// request a).
ghost use Rattle.tables.specs.Promise.{OnGrid};
ghost use Rattle.base.specs.Lent.{seen, lent};
ghost use Rattle.calls.specs.Refusals.{call_number};
ghost use Rattle.gurtheddu.specs.Promise.{ResetsDeck, RewindsDeck};

use calls::refusal::{Refusal, call_number};
use codes::all_lanes::{moving, scans_to, stages_to};
use codes::query_lane::LAST_SCAN;
use codes::update_lane::{LAST_STAGE, seen_updater};
use grid::reset::empty_grid;
use queries::lanes::idle_queries;
use rest::Lanes;
use rewind::whole::rewind;

// Winds every stamp and the clock back. The lanes stay as they are.
fn rewind_lanes(
    updaters: &[u32; 80],
    queries: &[u32; 52],
    words: &mut [u32; 16898],
    times: &mut [i32; 2048],
) -> Result<(), Refusal>
    ensures { OnGrid (lent words) (lent times) (RewindsDeck (seen updaters) (seen queries) (call_number result)) }
{
    if !stages_to(updaters, LAST_STAGE) || !scans_to(queries, LAST_SCAN) {
        return Err(Refusal::Corrupt);
    }
    let u = seen_updater(u32::from(moving(updaters, queries)));
    let lanes = Lanes {
        updaters: [u; 8],
        queries: idle_queries(),
    };
    rewind(lanes, words, times)
}

// Makes the tables an empty grid and every lane idle. Gives 0.
pub fn gurtheddu_reset(
    updaters: &mut [u32; 80],
    queries: &mut [u32; 52],
    words: &mut [u32; 16898],
    times: &mut [i32; 2048],
) -> u32
    ensures { OnGrid (lent words) (lent times) (ResetsDeck (lent updaters) (lent queries) result) }
{
    empty_grid(words, times);
    updaters.fill(0);
    queries.fill(0);
    0
}

// Winds every stamp and the clock back. Gives 0, or is refused with 12 (a lane's number is none) or 30 (not at rest).
// The lanes stay as they are.
pub fn gurtheddu_rewind(
    updaters: &[u32; 80],
    queries: &[u32; 52],
    words: &mut [u32; 16898],
    times: &mut [i32; 2048],
) -> u32
    ensures { OnGrid (lent words) (lent times) (RewindsDeck (seen updaters) (seen queries) result) }
{
    call_number(&rewind_lanes(updaters, queries, words, times))
}
