// All lanes of a deck in their numbers: what the numbers of their stages tell.
ghost use Rattle.std.specs.Prelude.{◌≡◌, ◌&&◌, not, ◌+◌, ◌*◌, ◌/◌, ◌<◌, leb, length};
ghost use Rattle.base.specs.Table.{at as entry};
ghost use Rattle.rest.specs.Rest.{all_below};
ghost use Rattle.codes.specs.Rest.{stages_to, scans_to};

use crate::query_lane::{QUERY_NUMBERS, SCAN_AT};
use crate::update_lane::{STAGE_AT, UPDATER_NUMBERS};

// No number at this place of a lane is above the last one, where each lane has so many numbers.
fn none_above(lanes: &[u32], numbers: usize, at: usize, last: u32) -> bool
    requires { at < numbers }
    ensures { result ≡ all_below (length lanes.now / numbers) (λ l. leb (entry lanes.now (numbers * l + at)) last) }
{
    lanes.chunks_exact(numbers).all(|lane| lane[at] <= last)
}

// No number of an update's stage is above the last one.
pub fn stages_to(lanes: &[u32; 80], last: u32) -> bool
    ensures { result ≡ stages_to lanes.now last }
{
    none_above(lanes, UPDATER_NUMBERS, STAGE_AT, last)
}

// No number of what comes next in a query is above the last one.
pub fn scans_to(lanes: &[u32; 52], last: u32) -> bool
    ensures { result ≡ scans_to lanes.now last }
{
    none_above(lanes, QUERY_NUMBERS, SCAN_AT, last)
}

// Whether a lane is not idle.
pub fn moving(updaters: &[u32; 80], queries: &[u32; 52]) -> bool
    ensures { result ≡ not (stages_to updaters.now 0 && scans_to queries.now 0) }
{
    !(stages_to(updaters, 0) && scans_to(queries, 0))
}
